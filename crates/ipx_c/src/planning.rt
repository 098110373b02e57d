//! The plan of a reload, as C asks for it. It needs no handle.
ghost use Rattle.std.specs.Prelude.{◌≡◌, ◌≤◌, ◌++◌, nat_lt, if◌then◌else◌, ◌||◌, length, drop, map, Bool, Option, None, Some, Ok, Err, IfOk, IfErr};
ghost use Rattle.std.specs.List.{list_all};
ghost use Rattle.std.specs.Option.{option_map};
ghost use Rattle.ipx_plan.specs.Planned.{Planned};
ghost use Rattle.ipx_c.specs.Codes.{fault_code};
ghost use Rattle.ipx_c.specs.PlanValues.{most_planned, is_carrier, carrier_of, planned_link, number_of, is_kept, cable_number, tunnel_number, origin_record, fate_record};
ghost use Rattle.ipx_c.specs.Plans.{plan_fault, stays_code, IsPlanned, IsUnplanned};
ghost use Rattle.ipx_c.specs.declared.fault.Fault.{Fault};

use crate::code::fault_code;
use crate::fault::Fault;
use crate::plan_values::{PlanFate, PlanLink, PlanOrigin};
use crate::sizes::{MOST_LINKS, MOST_PORTS};
use arrayvec::ArrayVec;
use ipx_plan::laws::once;
use ipx_plan::{Cable, Carrier, Fate, Link, Origin, Plan, Tunnel};
use ipx_wire::{Network, Node};

/// How many links a configuration has at most.
const MOST_PLANNED: usize = MOST_PORTS + MOST_LINKS;

/// What carries a link, by its number: a tunnel, a card, or what links share.
const TUNNEL: u8 = 0;

const CARD: u8 = 1;

const SHARED: u8 = 2;

/// There are so many carriers.
const CARRIERS: u8 = 4;

/// Plans what stays when a gateway with the old links gets the new ones. Returns whether the router stays.
#[unsafe(no_mangle)]
pub extern "C" fn ipxr_plan(
    old: &[PlanLink],
    links: &[PlanLink],
    origins: &mut [PlanOrigin],
    fates: &mut [PlanFate],
) -> i32
    ensures planned { plan_fault old.now links.now origins.old fates.old ≡ None
        → (stays : Bool) × (result ≡ stays_code stays) × IsPlanned old.now links.now origins.old origins.new fates.old fates.new stays }
    ensures unplanned { (fault : Fault) → plan_fault old.now links.now origins.old fates.old ≡ Some fault
        → (result ≡ fault_code fault) × IsUnplanned origins.old origins.new fates.old fates.new }
{
    match planned(old, links, origins, fates) {
        Ok(true) => 1,
        Ok(false) => 0,
        Err(fault) => fault_code(fault),
    }
}

fn planned(
    old: &[PlanLink],
    links: &[PlanLink],
    origins: &mut [PlanOrigin],
    fates: &mut [PlanFate],
) -> Result<bool, Fault>
    ensures ok { IfOk result (λ stays. (plan_fault old.now links.now origins.old fates.old ≡ None) × IsPlanned old.now links.now origins.old origins.new fates.old fates.new stays) }
    ensures err { IfErr result (λ fault. (plan_fault old.now links.now origins.old fates.old ≡ Some fault) × IsUnplanned origins.old origins.new fates.old fates.new) }
{
    if old.len() > MOST_PLANNED || links.len() > MOST_PLANNED {
        return Err(Fault::ManyLinks);
    }
    if origins.len() < links.len() || fates.len() < old.len() {
        return Err(Fault::ShortBuffer);
    }
    if !are_carriers(old) || !are_carriers(links) {
        return Err(Fault::BadLink);
    }
    let before = links_of(old);
    let after = links_of(links);
    let plan = Plan::<MOST_PLANNED>::new(&before, &after);
    once();
    put_origins(plan.origins(), origins);
    put_fates(plan.fates(), fates);
    Ok(plan.keeps_router())
}

/// Whether each link has a carrier.
fn are_carriers(links: &[PlanLink]) -> bool
    ensures { result ≡ list_all is_carrier links.now }
{
    links.iter().all(|link| link.carrier < CARRIERS)
}

fn links_of(values: &[PlanLink]) -> ArrayVec<Link, MOST_PLANNED>
    requires { length values.now ≤ most_planned }
    ensures { result.items ≡ map planned_link values.now }
{
    let mut links = ArrayVec::new();
    for value in values {
        links.push(link_of(value));
    }
    links
}

fn link_of(values: &PlanLink) -> Link
    ensures { result ≡ planned_link values.now }
{
    Link {
        network: Network(values.network),
        carrier: carrier_of(values),
        frames: values.frames,
        is_of_several: values.is_of_several,
        is_first: values.is_first,
        port: values.port,
        node: if values.has_node {
            Some(Node(values.node))
        } else {
            None
        },
        clients: values.clients,
        sockets: values.sockets,
    }
}

fn carrier_of(values: &PlanLink) -> Carrier
    ensures { result ≡ carrier_of values.now }
{
    match values.carrier {
        TUNNEL => Carrier::Tunnel {
            port: values.udp_port,
            address: values.number,
        },
        CARD => Carrier::Card(values.number),
        SHARED => Carrier::Shared(values.number),
        _ => Carrier::Own(values.number),
    }
}

/// Puts origins to the front of what has room for them.
fn put_origins(origins: &[Origin], to: &mut [PlanOrigin])
    requires { length origins.now ≤ length to.old }
    ensures { to.new ≡ map origin_record origins.now ++ drop (length origins.now) to.old }
{
    for k in 0..origins.len() {
        to[k] = origin_record(origins[k]);
    }
}

/// Puts fates to the front of what has room for them.
fn put_fates(fates: &[Fate], to: &mut [PlanFate])
    requires { length fates.now ≤ length to.old }
    ensures { to.new ≡ map fate_record fates.now ++ drop (length fates.now) to.old }
{
    for j in 0..fates.len() {
        to[j] = fate_record(fates[j]);
    }
}

fn origin_record(origin: Origin) -> PlanOrigin
    ensures { result ≡ origin_record origin }
{
    PlanOrigin {
        was: number_of(origin.was),
        cable: cable_number(origin.cable),
        tunnel: tunnel_number(origin.tunnel),
        is_kept: is_kept(origin.cable),
        is_as_before: origin.is_as_before,
        has_other_clients: origin.has_other_clients,
        has_other_sockets: origin.has_other_sockets,
    }
}

fn fate_record(fate: Fate) -> PlanFate
    ensures { result ≡ fate_record fate }
{
    PlanFate {
        becomes: number_of(fate.becomes),
        is_closed: fate.is_closed,
        ends_tunnel: fate.ends_tunnel,
    }
}

/// The number of a link; where there is none, the most that there can be.
fn number_of(link: Option<usize>) -> usize
    ensures { result ≡ number_of link }
{
    link.unwrap_or(MOST_PLANNED)
}

fn is_kept(cable: Cable) -> bool
    ensures { result ≡ is_kept cable }
{
    match cable {
        Cable::Kept(_) => true,
        Cable::Opened(_) => false,
    }
}

/// The link whose cable it is.
fn cable_number(cable: Cable) -> usize
    ensures { result ≡ cable_number cable }
{
    match cable {
        Cable::Kept(number) | Cable::Opened(number) => number,
    }
}

fn tunnel_number(tunnel: Tunnel) -> u8
    ensures { result ≡ tunnel_number tunnel }
{
    match tunnel {
        Tunnel::Absent => 0,
        Tunnel::Stays => 1,
        Tunnel::Again => 2,
        Tunnel::New => 3,
    }
}
