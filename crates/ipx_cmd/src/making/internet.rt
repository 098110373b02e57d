//! The internet that a script makes: all its routers are made before the first of them is added.
ghost use Rattle.std.specs.Prelude.{◌≡◌, ◌++◌, ◌∷◌, [], map, OnOk, IfOk, IfErr, Ok, Err, false};
ghost use Rattle.ipx_internet.specs.Moment.{SharesNode, StandsFor, net_at};
ghost use Rattle.ipx_internet.specs.Queue.{Queued};
ghost use Rattle.ipx_cmd.specs.InternetMachine.{internet_made, named_routers, nodes_meet, untouched};
ghost use Rattle.ipx_cmd.specs.inside.InternetStands.{IsNotAdded, IsUnmade, halt_of};
ghost use Rattle.ipx_cmd.specs.Making.{named_router};
ghost use Rattle.ipx_cmd.specs.Line.{Stops};

use crate::ended::RunFault;
use crate::lines::command::MOST_PORTS;
use crate::lines::fault::LineFault;
use crate::lines::halt::Halt;
use crate::making::router::{MOST_ROUTES, MOST_SERVICES, router_of};
use ipx_internet::{Internet, InternetFault};
use ipx_router::Port;
use std::alloc::Global;

/// The internet of a script.
pub(crate) type ScriptInternet = Internet<MOST_PORTS, MOST_ROUTES, MOST_SERVICES>;

/// The internet of the routers that were named.
pub(crate) fn internet_of(alloc: Global, named: &[Vec<Port>]) -> Result<ScriptInternet, Halt>
    ensures made { OnOk result (internet_made (map (λ ports. ports.items) named.now) ≡ Ok (untouched (map (λ ports. ports.items) named.now))) }
    ensures net { IfOk result (λ internet. net_at internet ≡ map (λ ports. ports.items) named.now) }
    ensures stands { IfOk result (λ internet. StandsFor MOST_ROUTES MOST_SERVICES internet (untouched (map (λ ports. ports.items) named.now))) }
    ensures refused { IfErr result (Stops (internet_made (map (λ ports. ports.items) named.now))) }
{
    check_routers(named)?;
    add_routers(alloc, named)
}

/// Whether each router can be made; else why the first can't.
fn check_routers(named: &[Vec<Port>]) -> Result<(), LineFault>
    ensures { result ≡ named_routers (map (λ ports. ports.items) named.now) }
{
    for ports in named {
        check_router(ports)?;
    }
    Ok(())
}

/// Whether a router can be made. One is large, so it is made out of the way of the others.
#[inline(never)]
fn check_router(ports: &[Port]) -> Result<(), LineFault>
    ensures made { OnOk result (named_router ports.now ≡ Ok ports.now) }
    ensures refused { IfErr result (λ fault. named_router ports.now ≡ Err fault) }
{
    match router_of(ports) {
        Ok(_router) => Ok(()),
        Err(fault) => Err(fault),
    }
}

/// The internet of routers that can be made.
fn add_routers(alloc: Global, named: &[Vec<Port>]) -> Result<ScriptInternet, Halt>
    requires { named_routers (map (λ ports. ports.items) named.now) ≡ Ok tt }
    ensures net { IfOk result (λ internet. net_at internet ≡ map (λ ports. ports.items) named.now) }
    ensures apart { OnOk result (nodes_meet (map (λ ports. ports.items) named.now) ≡ false) }
    ensures stands { IfOk result (λ internet. StandsFor MOST_ROUTES MOST_SERVICES internet (untouched (map (λ ports. ports.items) named.now))) }
    ensures refused { IfErr result (IsUnmade (map (λ ports. ports.items) named.now)) }
{
    let mut internet = Internet::new(alloc);
    for ports in named {
        add_router(&mut internet, ports)?;
    }
    Ok(internet)
}

/// Makes a router, and adds it behind the others.
#[inline(never)]
fn add_router(internet: &mut ScriptInternet, ports: &[Port]) -> Result<(), Halt>
    ensures net { OnOk result (net_at internet.new ≡ net_at internet.old ++ ports.now ∷ []) }
    ensures fresh { OnOk result (SharesNode (net_at internet.old) ports.now → ⊥) }
    ensures stands { OnOk result ((q : Queued) → StandsFor MOST_ROUTES MOST_SERVICES internet.old q → StandsFor MOST_ROUTES MOST_SERVICES internet.new (record { histories = q.histories ++ [] ∷ []; queue = q.queue })) }
    ensures refused { IfErr result (IsNotAdded (net_at internet.old) ports.now) }
{
    let router = router_of(ports)?;
    match internet.add(router) {
        Ok(_number) => Ok(()),
        Err(refused) => Err(halt_of(refused.fault)),
    }
}

/// What a router that isn't added does to the run.
fn halt_of(fault: InternetFault) -> Halt
    ensures { result ≡ halt_of fault }
{
    match fault {
        InternetFault::SameNode => Halt::Line(LineFault::SameNode),
        InternetFault::NoSuchPort => Halt::Line(LineFault::Port),
        InternetFault::Memory => Halt::Run(RunFault::Memory),
    }
}
