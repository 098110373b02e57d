//! Which of the routes and services that a port advertises are sent, and how.
ghost use Rattle.std.specs.Prelude.{◌≡◌, ◌<◌};
ghost use Rattle.std.specs.Option.{option_to_list};
ghost use Rattle.ipx_router.specs.Numbers.{unreachable};
ghost use Rattle.ipx_router.specs.inside.Selection.{asks_for, is_asked, is_of_kind, is_service_selected, selected_by, service_sent};

use crate::advertising::hops::dead;
use ipx_wire::{Network, Rip, RipEntry, Sap, Service};

/// Which routes are sent.
#[derive(Clone, Copy)]
pub(crate) enum Selection<'a> {
    /// All.
    All,
    /// All, as unreachable.
    Dead,
    /// Those that a request asks for.
    Asked(&'a Rip<'a>),
}

/// Which services are sent.
#[derive(Clone, Copy)]
pub(crate) enum ServiceSelection {
    /// All.
    All,
    /// All, as unreachable.
    Dead,
    /// Those of a type; FFFFh stands for every type.
    OfKind(u16),
}

/// The entry as it is sent; `None` where it isn't.
pub(crate) fn select(selection: Selection<'_>, entry: RipEntry) -> Option<RipEntry>
    ensures { option_to_list result ≡ selected_by selection.entry entry }
{
    match selection {
        Selection::All => Some(entry),
        Selection::Dead => Some(dead(entry)),
        Selection::Asked(request) => {
            if is_asked(request, entry) {
                Some(entry)
            } else {
                None
            }
        }
    }
}

/// Whether a service is sent; for that it doesn't matter how far away it is.
pub(crate) fn is_service_selected(selection: ServiceSelection, service: &Service) -> bool
    ensures { result ≡ is_service_selected selection service.now }
{
    match selection {
        ServiceSelection::All | ServiceSelection::Dead => true,
        ServiceSelection::OfKind(kind) => is_of_kind(kind, service),
    }
}

/// The hops with which a service of the table is sent: one more, or those of what is unreachable.
pub(crate) fn hops_sent(selection: ServiceSelection, service: &Service) -> u16
    requires { service.now.hops < unreachable }
    ensures value { (record service.now { hops = result }) ≡ service_sent selection service.now }
{
    match selection {
        ServiceSelection::Dead => RipEntry::UNREACHABLE,
        _ => service.hops + 1,
    }
}

/// Whether a request asks for the entry.
fn is_asked(request: &Rip<'_>, entry: RipEntry) -> bool
    ensures { result ≡ is_asked request.now.entries entry }
{
    for k in 0..request.len() {
        if asks_for(request.entry(k), entry) {
            return true;
        }
    }
    false
}

/// Whether an entry of a request asks for that entry: for all routes, or for its network.
fn asks_for(wanted: RipEntry, entry: RipEntry) -> bool
    ensures { result ≡ asks_for wanted entry }
{
    wanted.network == Network::ALL_ROUTES || wanted.network == entry.network
}

/// Whether a query for that type asks for the service.
pub(crate) fn is_of_kind(kind: u16, service: &Service) -> bool
    ensures { result ≡ is_of_kind kind service.now }
{
    kind == Sap::EVERY_TYPE || service.kind == kind
}
