//! What carries links.
ghost use Rattle.std.specs.Prelude.{◌≡◌};
ghost use Rattle.ipx_plan.specs.declared.carrier.Carrier.TheVariants.{Own};

/// What carries a link. Carriers are the same if all that they say is equal.
///
/// See the example of [`Plan`](crate::Plan).
#[derive(Clone, Copy, Debug, PartialEq, Eq)]
pub enum Carrier {
    /// DOSBox's tunnel.
    Tunnel {
        /// Its UDP port; 0 where it takes whichever is free.
        port: u16,
        /// A number for its address.
        address: u32,
    },
    /// A network card, by a number for its name: each network there opens a socket of its own.
    Card(u32),
    /// A socket, a connection or a TAP, by a number for its addresses or its name: it is opened once for all networks on it.
    Shared(u32),
    /// A socket at whichever port is free, by a number for its addresses: each link opens its own.
    Own(u32),
}

impl Default for Carrier {
    fn default() -> Carrier
        ensures { result ≡ Own 0 }
    {
        Carrier::Own(0)
    }
}
