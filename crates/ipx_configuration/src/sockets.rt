//! What a line below a network says of it.
ghost use Rattle.std.specs.Prelude.{◌≡◌};
ghost use Rattle.ipx_configuration.specs.Extends.{socket_fault, sockets_from, sockets_taken, adopt_taken, network_taken};
ghost use Rattle.ipx_configuration.specs.Lines.{words_from};

use crate::clash::line_fault;
use crate::fault::Fault;
use crate::lines::once;
use crate::peers::peer_taken;
use crate::rules::rule_taken;
use crate::said::{MOST_SOCKETS, NetworkSetting, Sockets};
use crate::statics::{route_taken, service_taken};
use ipx_settings::{Expected, Line, Reading, socket, word};

/// What was expected in place of one more socket, which the word with that number is.
fn socket_fault(sockets: &Sockets, number: usize, found: u16) -> Option<Fault>
    ensures { result ≡ socket_fault sockets.now number found }
{
    if sockets.has(found) {
        Some(Fault::OtherSocket(number))
    } else if sockets.count >= MOST_SOCKETS {
        Some(Fault::ManySockets(number))
    } else {
        None
    }
}

/// The sockets of a line's words, behind those that are there, and what was expected in place of the first for which there is no room.
fn add_sockets(sockets: Sockets, text: &[u8], read: usize) -> (Sockets, Option<Fault>)
    ensures { result ≡ sockets_from sockets 1 (words_from text.now 1 read) }
{
    let mut it = sockets;
    let mut number = 1;
    while number < read {
        match word(text, number) {
            Some(found) => match socket(found) {
                Some(found) => {
                    let fault = socket_fault(&it, number, found as u16);
                    if fault.is_some() {
                        return (it, fault);
                    }
                    it = it.with(found as u16);
                }
                None => return (it, None),
            },
            None => return (it, None),
        }
        number += 1;
    }
    (it, None)
}

/// A network behind a line `extend`, and what is wrong with that.
fn sockets_taken(
    network: NetworkSetting,
    text: &[u8],
    read: usize,
    own: Option<Expected>,
) -> (NetworkSetting, Option<Fault>)
    ensures { result ≡ sockets_taken network text.now read own }
{
    let (sockets, fault) = add_sockets(network.sockets, text, read);
    let mut taken = network;
    taken.sockets = sockets;
    if fault.is_some() {
        return (taken, fault);
    }
    (taken, line_fault(own))
}

fn adopt_taken(
    line: usize,
    network: NetworkSetting,
    own: Option<Expected>,
) -> (NetworkSetting, Option<Fault>)
    ensures { result ≡ adopt_taken line network own }
{
    let fault = once(network.adopt_line, own);
    let mut taken = network;
    if fault.is_none() {
        taken.adopt_line = line;
    }
    (taken, fault)
}

/// What a network is behind a line that says more of it, and what is wrong with that line.
pub(crate) fn network_taken(
    line: usize,
    text: &[u8],
    reading: Reading,
    network: NetworkSetting,
) -> (NetworkSetting, Option<Fault>)
    ensures { result ≡ network_taken line text.now reading network }
{
    let own = reading.fault;
    match reading.line {
        Line::Extend(_) => sockets_taken(network, text, reading.read, own),
        Line::Adopt(_) => adopt_taken(line, network, own),
        Line::Rule(permits, begun) => rule_taken(network, permits, begun, own),
        Line::Route(begun) => route_taken(line, network, begun, own),
        Line::Service(begun) => service_taken(line, network, begun, own),
        Line::Peer(begun) => peer_taken(line, network, begun, own),
        _ => (network, None),
    }
}
