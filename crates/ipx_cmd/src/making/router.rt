//! The router of a script, its ports and its sizes.
ghost use Rattle.std.specs.Prelude.{◌≡◌, [], IfErr, IfOk, Ok, Err};
ghost use Rattle.ipx_router.specs.Stands.{StandsFor};
ghost use Rattle.ipx_cmd.specs.CommandMeaning.{values_of};
ghost use Rattle.ipx_cmd.specs.Making.{named_port, named_router};
ghost use Rattle.ipx_cmd.specs.PortWord.{port_fault, ports_fault};

use crate::lines::command::{MOST_PORTS, NamedPort};
use crate::lines::fault::LineFault;
use ipx_router::{Port, PortFault, PortsFault, Router};

/// How many routes the router of the program has at most.
pub(crate) const MOST_ROUTES: usize = 256;

/// How many services it has at most.
pub(crate) const MOST_SERVICES: usize = 128;

/// The router of a script.
pub(crate) type ScriptRouter = Router<MOST_PORTS, MOST_ROUTES, MOST_SERVICES>;

/// The port that a line names.
pub(crate) fn port_of(named: NamedPort) -> Result<Port, LineFault>
    ensures { result ≡ named_port (values_of named) }
{
    match Port::new(named.network, named.node, named.cost, named.longest) {
        Ok(port) => Ok(port.with_shares(named.routes, named.services)),
        Err(fault) => Err(port_fault(fault)),
    }
}

/// The router of the ports that were named.
pub(crate) fn router_of(ports: &[Port]) -> Result<ScriptRouter, LineFault>
    ensures made { IfOk result (λ router. named_router ports.now ≡ Ok ports.now) }
    ensures ports { IfOk result (λ router. router.ports ≡ ports.now) }
    ensures stands { IfOk result (λ router. StandsFor MOST_ROUTES MOST_SERVICES router []) }
    ensures refused { IfErr result (λ fault. named_router ports.now ≡ Err fault) }
{
    match Router::new(ports) {
        Ok(router) => Ok(router),
        Err(fault) => Err(ports_fault(fault)),
    }
}

/// The word of a port's fault.
fn port_fault(fault: PortFault) -> LineFault
    ensures { result ≡ port_fault fault }
{
    match fault {
        PortFault::Longest => LineFault::Longest,
        PortFault::Cost => LineFault::Cost,
        PortFault::Network => LineFault::Network,
        PortFault::Node => LineFault::Node,
    }
}

/// The word of a fault of ports that make no router.
fn ports_fault(fault: PortsFault) -> LineFault
    ensures { result ≡ ports_fault fault }
{
    match fault {
        PortsFault::NoPort => LineFault::None,
        PortsFault::TooMany => LineFault::Many,
        PortsFault::SameNetwork => LineFault::Same,
    }
}
