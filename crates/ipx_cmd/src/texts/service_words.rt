//! A service as words, for the lines of tables.
ghost use Rattle.std.specs.Prelude.{◌≡◌, ◌++◌, OnOk, ◌+◌, ◌<◌, ◌≤◌, length, OnErr};
ghost use Rattle.std.specs.Vec.{vec_capacity};
ghost use Rattle.ipx_cmd.specs.ServiceWords.{offered_words, service_words};

use crate::texts::draft::{Draft, ROOM};
use ipx_wire::{Address, Service, Socket};
use std::alloc::AllocError;

/// How many bytes the words of a service have at most.
pub(crate) const LONGEST_SERVICE: usize = 187;

/// How many bytes its address and its hops have at most, each behind a space.
pub(crate) const LONGEST_OFFERED: usize = 33;

/// Appends the words of a service: its type, its name, where it is offered and how far away.
///
/// An error is out of memory.
pub(crate) fn add_service(text: &mut Vec<u8>, service: &Service) -> Result<(), AllocError>
    ensures text { OnOk result (text.new.items ≡ text.old.items ++ service_words service.now) }
    ensures room { OnErr result (vec_capacity text.old < length text.old.items + length (service_words service.now)) }
    ensures kept { vec_capacity text.old ≤ vec_capacity text.new }
{
    let mut draft = Draft::new();
    put_service(&mut draft, service);
    text.extend_from_slice(draft.text())
}

/// Puts the words of a service.
#[tactic(auto, unfolding(crate::specs::ServiceWords::service_words))]
pub(crate) fn put_service(draft: &mut Draft, service: &Service)
    requires { length draft.old + LONGEST_SERVICE ≤ ROOM }
    ensures text { draft.new ≡ draft.old ++ service_words service.now }
    ensures most { length draft.new ≤ length draft.old + LONGEST_SERVICE }
{
    let Service {
        kind,
        name,
        address,
        hops,
    } = *service;
    draft.put(b"service ");
    draft.put(&Socket(kind).digits());
    draft.put(b" ");
    draft.put_name(&name);
    put_offered(draft, address, hops);
}

/// Puts where a service is offered, and how far away.
#[tactic(auto, unfolding(crate::specs::ServiceWords::offered_words))]
fn put_offered(draft: &mut Draft, address: Address, hops: u16)
    requires { length draft.old + LONGEST_OFFERED ≤ ROOM }
    ensures text { draft.new ≡ draft.old ++ offered_words address hops }
    ensures most { length draft.new ≤ length draft.old + LONGEST_OFFERED }
{
    let Address {
        network,
        node,
        socket,
    } = address;
    draft.put(b" ");
    draft.put(&network.digits());
    draft.put(b" ");
    draft.put(&node.digits());
    draft.put(b" ");
    draft.put(&socket.digits());
    draft.put(b" ");
    draft.put_number(hops);
}
