//! What a router is made of.
ghost use Rattle.std.specs.Prelude.{◌≡◌, ◌≤◌, ◌<◌, ◌==◌, false, true, length, map};
ghost use Rattle.std.specs.List.{AllByRecursion, list_any};
ghost use Rattle.ipx_table.specs.Shares.{most_shares};
ghost use Rattle.ipx_router.specs.Port.{IsPort, AreApart, port_at};

use crate::port::Port;
use arrayvec::ArrayVec;
use ipx_wire::Network;

/// How many ports a router has at most.
pub(crate) const MOST_PORTS: usize = 32;

/// What a slice of ports holds are ports: its type says so, and a call of this says it to a proof.
pub(crate) fn proves_ports(ports: &[Port])
    ensures { AllByRecursion IsPort ports.now }
{
    for port in ports {
        port.proves_port();
    }
}

/// Whether one of the ports is on that network.
fn is_on(ports: &[Port], network: Network) -> bool
    ensures { result ≡ list_any (λ p. p.network.0 == network.0) ports.now }
{
    ports.iter().any(|port| port.network() == network)
}

/// The network of the port at that place.
fn network_at(ports: &[Port], place: usize) -> Network
    requires { place < length ports.now }
    ensures { result ≡ (port_at ports.now place).network }
{
    ports[place].network()
}

/// Whether no two of the ports are on one network.
pub(crate) fn are_apart(ports: &[Port]) -> bool
    ensures apart { result ≡ true → AreApart ports.now }
    ensures same { result ≡ false → AreApart ports.now → ⊥ }
{
    for place in 0..ports.len() {
        if is_on(&ports[place + 1..], network_at(ports, place)) {
            return false;
        }
    }
    true
}

/// The ports' shares of the routes.
pub(crate) fn route_shares(ports: &[Port]) -> ArrayVec<u16, MOST_PORTS>
    requires { length ports.now ≤ most_shares }
    ensures { result.items ≡ map (λ p. p.route_share) ports.now }
{
    let mut shares = ArrayVec::new();
    for port in ports {
        shares.push(port.route_share());
    }
    shares
}

/// The ports' shares of the services.
pub(crate) fn service_shares(ports: &[Port]) -> ArrayVec<u16, MOST_PORTS>
    requires { length ports.now ≤ most_shares }
    ensures { result.items ≡ map (λ p. p.service_share) ports.now }
{
    let mut shares = ArrayVec::new();
    for port in ports {
        shares.push(port.service_share());
    }
    shares
}

/// The ports, in an array of their own.
pub(crate) fn copy_of<const P: usize>(ports: &[Port]) -> ArrayVec<Port, P>
    requires { length ports.now ≤ P }
    ensures { result.items ≡ ports.now }
{
    let mut kept = ArrayVec::new();
    let _ = kept.try_extend_from_slice(ports);
    kept
}
