//! Numbers of networks: each stands for one, and routes lead to others.
ghost use Rattle.std.specs.Prelude.{◌≡◌};
ghost use Rattle.std.specs.List.{position};
ghost use Rattle.ipx_configuration.specs.Numbers.{has_number, number_fault, has_route, routed_line, routed_fault};

use crate::fault::Fault;
use crate::said::NetworkSetting;

fn has_number(number: u32, network: NetworkSetting) -> bool
    ensures { result ≡ has_number number network }
{
    network.has_link && network.number == number
}

fn number_place(number: u32, networks: &[NetworkSetting]) -> Option<usize>
    ensures { result ≡ position (has_number number) networks.now }
{
    networks
        .iter()
        .position(|network| has_number(number, *network))
}

/// What was expected where another network has the number.
pub(crate) fn number_fault(number: Option<u32>, networks: &[NetworkSetting]) -> Option<Fault>
    ensures { result ≡ number_fault number networks.now }
{
    match number {
        Some(number) => match number_place(number, networks) {
            Some(place) => match networks.get(place) {
                Some(network) => Some(Fault::OtherNetwork(network.line)),
                None => None,
            },
            None => None,
        },
        None => None,
    }
}

/// Whether a route of the network leads there.
fn has_route(number: u32, network: NetworkSetting) -> bool
    ensures { result ≡ has_route number network }
{
    network.static_routes.line_of(number).is_some()
}

fn route_place(number: u32, networks: &[NetworkSetting]) -> Option<usize>
    ensures { result ≡ position (has_route number) networks.now }
{
    networks
        .iter()
        .position(|network| has_route(number, *network))
}

/// The line of the first route of several networks to the one with that number.
fn routed_line(number: u32, networks: &[NetworkSetting]) -> Option<usize>
    ensures { result ≡ routed_line number networks.now }
{
    match route_place(number, networks) {
        Some(place) => match networks.get(place) {
            Some(network) => network.static_routes.line_of(number),
            None => None,
        },
        None => None,
    }
}

/// What was expected where a route leads to the network with that number.
pub(crate) fn routed_fault(number: Option<u32>, networks: &[NetworkSetting]) -> Option<Fault>
    ensures { result ≡ routed_fault number networks.now }
{
    match number {
        Some(number) => match routed_line(number, networks) {
            Some(line) => Some(Fault::OtherNetwork(line)),
            None => None,
        },
        None => None,
    }
}
