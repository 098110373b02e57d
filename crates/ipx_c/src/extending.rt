//! Broadcasts that are copied to another network, as C asks for them. They need no tunnel.
ghost use Rattle.std.specs.Prelude.{◌≡◌, [], ◌∷◌};
ghost use Rattle.std.specs.List.{list_any};
ghost use Rattle.ipx_tunnel.specs.Extend.{is_extended};
ghost use Rattle.ipx_c.specs.Extends.{flag, socket_of, is_copied, copy_after};

use ipx_tunnel::{extend, is_extended};
use ipx_wire::{Network, Socket};

/// Makes the bytes of a packet those of its copy for another network, where it is copied. Returns 1 where it is, else 0.
#[unsafe(no_mangle)]
pub extern "C" fn ipxr_tunnel_extend(network: u32, sockets: &[u16], to: u32, bytes: &mut [u8]) -> u8
    ensures answer { result ≡ flag (is_copied network sockets.now bytes.old) }
    ensures copy { bytes.new ≡ copy_after network sockets.now to bytes.old }
{
    u8::from(copy(network, sockets, to, bytes))
}

/// The same, with yes or no.
fn copy(network: u32, sockets: &[u16], to: u32, bytes: &mut [u8]) -> bool
    ensures answer { result ≡ is_copied network sockets.now bytes.old }
    ensures copy { bytes.new ≡ copy_after network sockets.now to bytes.old }
{
    let is_copied = is_copied_by_one(Network(network), sockets, bytes);
    if is_copied {
        extend(bytes, Network(to));
    }
    is_copied
}

/// Whether one of the sockets has it copied.
fn is_copied_by_one(network: Network, sockets: &[u16], bytes: &[u8]) -> bool
    ensures { result ≡ list_any (λ socket. is_extended network (socket_of socket ∷ []) bytes.now) sockets.now }
{
    sockets
        .iter()
        .any(|socket| is_extended(network, &[Socket(*socket)], bytes))
}
