//! The entries of a response, each by its bytes.
ghost use Rattle.std.specs.Prelude.{◌≡◌, ◌≤◌, length};
ghost use Rattle.ipx_wire.specs.Numbers.{entry_size, service_size};
ghost use Rattle.ipx_wire.specs.Rip.{entry_at};
ghost use Rattle.ipx_wire.specs.SapEntries.{sap_entry_at};
ghost use Rattle.ipx_edge.specs.inside.Verdict.{size_of, passes_of};

use crate::fields::{address_at, name_at, u16_at, u32_at};
use crate::naming::{permits_route, permits_service};
use crate::rule::{Rule, Way};
use ipx_wire::{Network, RipEntry, SapEntry};

/// What a response lists.
#[derive(Clone, Copy)]
pub(crate) enum Listed {
    Routes,
    Services,
}

impl Listed {
    /// How many bytes an entry has.
    pub(crate) fn size(self) -> usize
        ensures { result ≡ size_of self }
    {
        match self {
            Listed::Routes => RipEntry::SIZE,
            Listed::Services => SapEntry::SIZE,
        }
    }

    /// Whether rules let an entry pass.
    pub(crate) fn passes(self, way: Way, rules: &[Rule], entry: &[u8]) -> bool
        requires { size_of self ≤ length entry.now }
        ensures { result ≡ passes_of way rules.now self entry.now }
    {
        match self {
            Listed::Routes => permits_route(way, rules, route_in(entry)),
            Listed::Services => permits_service(way, rules, &service_in(entry)),
        }
    }
}

/// The route in the eight bytes of an entry.
#[tactic(auto, unfolding(ipx_wire::specs::Rip::entry_at))]
fn route_in(entry: &[u8]) -> RipEntry
    requires { entry_size ≤ length entry.now }
    ensures { result ≡ entry_at entry.now 0 }
{
    RipEntry {
        network: Network(u32_at(0, entry)),
        hops: u16_at(4, entry),
        ticks: u16_at(6, entry),
    }
}

/// The service in the 64 bytes of an entry.
#[tactic(auto, unfolding(ipx_wire::specs::SapEntries::sap_entry_at))]
fn service_in(entry: &[u8]) -> SapEntry
    requires { service_size ≤ length entry.now }
    ensures { result ≡ sap_entry_at entry.now }
{
    SapEntry {
        kind: u16_at(0, entry),
        name: name_at(2, entry),
        address: address_at(50, entry),
        hops: u16_at(62, entry),
    }
}
