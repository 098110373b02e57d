//! The numbers by which C hears what became of a call; the header has a name for each.
ghost use Rattle.std.specs.Prelude.{◌≡◌};
ghost use Rattle.ipx_c.specs.Codes.{packet_number, rip_number, sap_number, why_number, outcome_number, fault_number, fault_code, code_of, count_code};

use crate::fault::Fault;
use ipx_router::{Outcome, PortFault, PortsFault, Why};
use ipx_wire::{PacketFault, RipFault, SapFault};

/// Of a call that answers no outcome.
pub(crate) const DONE: i32 = 0;

/// The number of what became of an event, or of why nothing did.
pub(crate) fn code_of(became: Result<Outcome, Fault>) -> i32
    ensures { result ≡ code_of became }
{
    match became {
        Ok(outcome) => i32::from(outcome_number(outcome)),
        Err(fault) => fault_code(fault),
    }
}

/// How many bytes were written, or the number of why none were.
pub(crate) fn count_code(written: Result<u16, Fault>) -> i32
    ensures { result ≡ count_code written }
{
    match written {
        Ok(count) => i32::from(count),
        Err(fault) => fault_code(fault),
    }
}

/// The number of a fault: below 0.
pub(crate) fn fault_code(fault: Fault) -> i32
    ensures { result ≡ fault_code fault }
{
    -i32::from(fault_number(fault))
}

fn fault_number(fault: Fault) -> u16
    ensures { result ≡ fault_number fault }
{
    match fault {
        Fault::NoRouter => 1,
        Fault::NoPort => 2,
        Fault::NoPacket => 3,
        Fault::NoRecord => 4,
        Fault::ShortBuffer => 5,
        Fault::OutOfMemory => 6,
        Fault::NoTunnel => 7,
        Fault::NoSegment => 8,
        Fault::NoLink => 9,
        Fault::BadLink => 10,
        Fault::ManyClients => 18,
        Fault::ManyLinks => 19,
        Fault::ManyStations => 20,
        Fault::Port(PortFault::Longest) => 11,
        Fault::Port(PortFault::Cost) => 12,
        Fault::Port(PortFault::Network) => 13,
        Fault::Port(PortFault::Node) => 14,
        Fault::Ports(PortsFault::NoPort) => 15,
        Fault::Ports(PortsFault::TooMany) => 16,
        Fault::Ports(PortsFault::SameNetwork) => 17,
        Fault::Operation => 21,
        Fault::NoEntries => 22,
        Fault::ManyEntries => 23,
        Fault::Name => 24,
        Fault::LongPacket => 25,
        Fault::Way => 26,
        Fault::ManyRules => 27,
        Fault::Rule => 28,
    }
}

fn outcome_number(outcome: Outcome) -> u16
    ensures { result ≡ outcome_number outcome }
{
    match outcome {
        Outcome::Started => 0,
        Outcome::AlreadyRunning => 1,
        Outcome::Stopped => 2,
        Outcome::Ticked => 3,
        Outcome::Learned => 4,
        Outcome::Answered => 5,
        Outcome::Forwarded => 6,
        Outcome::Propagated => 7,
        Outcome::WentDown => 8,
        Outcome::CameUp => 9,
        Outcome::AlreadyDown => 10,
        Outcome::AlreadyUp => 11,
        Outcome::Local => 12,
        Outcome::Dropped(why) => why_number(why),
    }
}

/// A hundred times the number that the reason keeps, and what was wrong with the bytes.
fn why_number(why: Why) -> u16
    ensures { result ≡ why_number why }
{
    match why {
        Why::NotRunning => 100,
        Why::Malformed(fault) => 200 + packet_number(fault),
        Why::OwnEcho => 300,
        Why::BadSource => 400,
        Why::CrossedShort => 500,
        Why::CrossedFull => 600,
        Why::CrossedSeen => 700,
        Why::Elsewhere => 800,
        Why::OtherSocket => 900,
        Why::NotNeighbour => 1000,
        Why::BadRip(fault) => 1100 + rip_number(fault),
        Why::BadSap(fault) => 1200 + sap_number(fault),
        Why::NearestReply => 1300,
        Why::TooManyRouters => 1400,
        Why::FarSide => 1500,
        Why::NoRoute => 1600,
        Why::TooLong => 1700,
        Why::DownPort => 1800,
    }
}

fn packet_number(fault: PacketFault) -> u16
    ensures { result ≡ packet_number fault }
{
    match fault {
        PacketFault::Short => 1,
        PacketFault::LengthSmall => 2,
        PacketFault::LengthBeyond => 3,
    }
}

fn rip_number(fault: RipFault) -> u16
    ensures { result ≡ rip_number fault }
{
    match fault {
        RipFault::Short => 1,
        RipFault::Operation(_) => 2,
        RipFault::NoEntry => 3,
        RipFault::TooMany => 4,
    }
}

fn sap_number(fault: SapFault) -> u16
    ensures { result ≡ sap_number fault }
{
    match fault {
        SapFault::Short => 1,
        SapFault::Operation(_) => 2,
        SapFault::NoEntry => 3,
        SapFault::TooMany => 4,
    }
}
