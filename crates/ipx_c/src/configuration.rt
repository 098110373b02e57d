//! A configuration, line by line, as C reads it. It lies in memory of C's own, and needs no handle.
ghost use Rattle.std.specs.Prelude.{◌≡◌};
ghost use Rattle.std.specs.Option.{unwrap_or, is_some};
ghost use Rattle.ipx_configuration.specs.Configurations.{told, after, unlinked};
ghost use Rattle.ipx_configuration.specs.Configured.{configured};
ghost use Rattle.ipx_configuration.specs.Internals.{told_internal};
ghost use Rattle.ipx_c.specs.ConfigurationValues.{capacity_of, most_default, peers_number, fault_number, fault_word, fault_line, fault_numbers, wrong_at, line_wrong};
ghost use Rattle.ipx_c.specs.SettingsValues.{cards_of, line_said};

use crate::settings_values::{
    LineSaid, bits_of, cards_of, expected_number, line_number, link_of_line, network_of_line,
    numbers_of, route_of_line, rule_of_line, service_of_line,
};
use crate::sizes::{MOST_CLIENTS, MOST_LINKS, MOST_PORTS, MOST_ROUTES, MOST_SERVICES};
use ipx_configuration::{Capacity, Configuration, Fault, InternalSaid, LinkConfigured};
use ipx_settings::{Cards, Reading};

/// What is wrong with a line, but for what was expected there.
#[repr(C)]
#[derive(Clone, Copy)]
pub struct LineWrong {
    /// The line of the network above, which ends here and has no link; or 0.
    pub unlinked: usize,
    /// The number of the word that is wrong,
    pub word: usize,
    /// of another line that says something else,
    pub line: usize,
    /// and two numbers.
    pub numbers: [u32; 2],
    /// The line stands below a tunnel.
    pub is_below_tunnel: bool,
}

fn capacity_of(cards: Cards) -> Capacity
    ensures { result ≡ capacity_of cards }
{
    Capacity {
        cards,
        networks: MOST_PORTS,
        links: MOST_LINKS,
        clients: MOST_CLIENTS as u16,
        routes: (MOST_ROUTES / MOST_PORTS) as u16,
        services: (MOST_SERVICES / MOST_PORTS) as u16,
    }
}

/// The numbers of what was expected of other places.
fn peers_number(fault: Option<Fault>) -> u8
    ensures { result ≡ peers_number fault }
{
    match fault {
        Some(Fault::BelowPeers) => 80,
        Some(Fault::OtherPeer(_)) => 81,
        Some(Fault::ManyPeers) => 82,
        Some(Fault::PeerOfFour) => 83,
        Some(Fault::PeerOfSix) => 84,
        Some(Fault::OnePeers(_)) => 85,
        Some(Fault::OnOwnLine) => 86,
        _ => 0,
    }
}

/// The number of what was expected; 0 where nothing is wrong. Behind those of a line by itself are those of lines together.
fn fault_number(fault: Option<Fault>) -> u8
    ensures { result ≡ fault_number fault }
{
    match fault {
        None => 0,
        Some(Fault::Line(expected)) => expected_number(Some(expected)),
        Some(Fault::BelowNetwork) => 32,
        Some(Fault::BelowLink) => 33,
        Some(Fault::BelowTunnel) => 34,
        Some(Fault::BelowTunnelLink) => 35,
        Some(Fault::LinkBelow) => 36,
        Some(Fault::ManyNetworks) => 37,
        Some(Fault::ManyLinks) => 38,
        Some(Fault::ManyLinksOfNetwork) => 39,
        Some(Fault::OtherNetwork(_)) => 40,
        Some(Fault::OtherCarrier(_)) => 41,
        Some(Fault::OneKind(_)) => 42,
        Some(Fault::OtherKind(_)) => 43,
        Some(Fault::OtherPort(_)) => 44,
        Some(Fault::OwnAddress) => 45,
        Some(Fault::Longest(_, _)) => 46,
        Some(Fault::Once(_)) => 47,
        Some(Fault::OtherKilobits(_, _)) => 48,
        Some(Fault::OtherSocket(_)) => 49,
        Some(Fault::ManySockets(_)) => 50,
        Some(Fault::ManyRanges(_)) => 51,
        Some(Fault::ManyRules) => 60,
        Some(Fault::ManyRoutes) => 68,
        Some(Fault::ManyServices) => 69,
        Some(Fault::OtherService(_)) => 70,
        Some(Fault::BelowWeb) => 77,
        _ => peers_number(fault),
    }
}

/// The word that is wrong.
fn fault_word(fault: Option<Fault>, read: usize) -> usize
    ensures { result ≡ fault_word fault read }
{
    match fault {
        Some(Fault::Line(_)) => read,
        Some(Fault::OtherNetwork(_)) => 1,
        Some(Fault::OtherKilobits(_, _)) => 1,
        Some(Fault::OtherSocket(word)) => word,
        Some(Fault::ManySockets(word)) => word,
        Some(Fault::ManyRanges(word)) => word,
        Some(Fault::OtherService(_)) => 2,
        Some(Fault::OtherPeer(_)) => 1,
        Some(Fault::PeerOfFour) => 1,
        Some(Fault::PeerOfSix) => 1,
        Some(Fault::OnOwnLine) => 1,
        _ => 0,
    }
}

/// The line that says something else.
fn fault_line(fault: Option<Fault>) -> usize
    ensures { result ≡ fault_line fault }
{
    match fault {
        Some(Fault::OtherNetwork(line)) => line,
        Some(Fault::OtherCarrier(line)) => line,
        Some(Fault::OneKind(line)) => line,
        Some(Fault::OtherKind(line)) => line,
        Some(Fault::OtherPort(line)) => line,
        Some(Fault::Once(line)) => line,
        Some(Fault::OtherKilobits(_, line)) => line,
        Some(Fault::OtherService(line)) => line,
        Some(Fault::OtherPeer(line)) => line,
        Some(Fault::OnePeers(line)) => line,
        _ => 0,
    }
}

fn fault_numbers(fault: Option<Fault>) -> [u32; 2]
    ensures { result ≡ fault_numbers fault }
{
    match fault {
        Some(Fault::Longest(longest, most)) => [u32::from(longest), u32::from(most)],
        Some(Fault::OtherKilobits(kilobits, _)) => [kilobits, 0],
        _ => [0, 0],
    }
}

fn line_said(reading: Reading) -> LineSaid
    ensures { result ≡ line_said reading }
{
    LineSaid {
        read: reading.read,
        kind: line_number(reading.line),
        bits: bits_of(reading.fault),
        network: network_of_line(reading.line),
        link: link_of_line(reading.line),
        numbers: numbers_of(reading.line),
        rule: rule_of_line(reading.line),
        route: route_of_line(reading.line),
        service: service_of_line(reading.line),
    }
}

/// Reads the next line of a configuration, whose number that is. Returns what was expected where it is wrong, or 0.
#[unsafe(no_mangle)]
pub extern "C" fn ipxr_configuration_line(
    it: &mut Configuration,
    text: &[u8],
    line: usize,
    has_cards: u8,
    said: &mut LineSaid,
    wrong: &mut LineWrong,
) -> u8
    ensures after { it.new ≡ after (capacity_of (cards_of has_cards)) line text.now it.old }
    ensures said { said.new ≡ line_said (told (capacity_of (cards_of has_cards)) line text.now it.old).reading }
    ensures wrong { wrong.new ≡ line_wrong (capacity_of (cards_of has_cards)) line text.now it.old }
    ensures expected { result ≡ fault_number (told (capacity_of (cards_of has_cards)) line text.now it.old).fault }
{
    let is_below_tunnel = it.is_below_tunnel();
    let told = it.line(capacity_of(cards_of(has_cards)), line, text);
    *said = line_said(told.reading);
    *wrong = LineWrong {
        unlinked: told.unlinked.unwrap_or(0),
        word: fault_word(told.fault, told.reading.read),
        line: fault_line(told.fault),
        numbers: fault_numbers(told.fault),
        is_below_tunnel,
    };
    fault_number(told.fault)
}

/// The line of the last network, if it ends here without a link; or 0.
#[unsafe(no_mangle)]
pub extern "C" fn ipxr_configuration_unlinked(it: &Configuration) -> usize
    ensures { result ≡ unwrap_or (unlinked it.now) 0 }
{
    it.unlinked().unwrap_or(0)
}

/// What a line says of the router's own network. Returns whether one does.
#[unsafe(no_mangle)]
pub extern "C" fn ipxr_configuration_internal(
    it: &Configuration,
    internal: &mut InternalSaid,
) -> bool
    ensures is_one { result ≡ is_some (told_internal it.now) }
    ensures internal { internal.new ≡ unwrap_or (told_internal it.now) internal.old }
{
    match it.internal() {
        Some(found) => {
            *internal = found;
            true
        }
        None => false,
    }
}

/// What all lines say of the link with that number. Returns whether there is one.
#[unsafe(no_mangle)]
pub extern "C" fn ipxr_configuration_link(
    it: &Configuration,
    number: usize,
    link: &mut LinkConfigured,
) -> bool
    ensures is_one { result ≡ is_some (configured most_default number it.now) }
    ensures link { link.new ≡ unwrap_or (configured most_default number it.now) link.old }
{
    match it.link(capacity_of(Cards::None), number) {
        Some(found) => {
            *link = found;
            true
        }
        None => false,
    }
}
