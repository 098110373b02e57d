//! The line of what a packet holds.
ghost use Rattle.std.specs.Prelude.{◌≡◌, ◌+◌, ◌≤◌, ◌++◌, [], codes, length};
ghost use Rattle.hex.specs.Hex.{encode_upper};
ghost use Rattle.ipx_inside.specs.InsideText.{cut_word, inside_text, ping_word, response_text, signal_word};

use crate::inside::{Inside, Ping, Protocol, Signal};
use crate::line::Line;
use crate::names::socket_name;
use crate::ncp_line::put_ncp;
use crate::netbios_line::put_netbios;
use crate::spx_line::put_spx;

/// The line.
pub(crate) fn line_of(inside: &Inside) -> Line
    ensures { result ≡ inside_text inside.now }
{
    let mut line = Line::new();
    put_inside(&mut line, inside);
    line
}

/// Puts the line.
#[tactic(auto, unfolding(crate::specs::InsideText::inside_text))]
fn put_inside(line: &mut Line, inside: &Inside)
    requires { line.old ≡ [] }
    ensures { line.new ≡ inside_text inside.now }
{
    match *inside {
        Inside::Rip => line.put("rip"),
        Inside::Sap => line.put("sap"),
        Inside::Ncp(ncp) => put_ncp(line, &ncp),
        Inside::Spx(spx) => put_spx(line, &spx),
        Inside::NetBios(netbios) => put_netbios(line, &netbios),
        Inside::Watchdog { signal, connection } => {
            line.put_field(signal_word(signal), u32::from(connection));
        }
        Inside::Serialization(number) => put_serial(line, &number),
        Inside::DiagnosticRequest { excluded } => {
            line.put_field("diagnostics request excluded ", u32::from(excluded));
        }
        Inside::DiagnosticResponse {
            major,
            minor,
            socket,
            components,
        } => put_response(line, major, minor, socket.0, components),
        Inside::Ping(ping) => line.put(ping_word(ping)),
        Inside::Cut(protocol) => line.put(cut_word(protocol)),
        Inside::Named(socket) => {
            line.put_word_field("socket ", socket.0);
            line.put_named(" ", socket_name(socket));
        }
        Inside::Unknown => line.put("unknown"),
    }
}

/// Puts a server's serial number.
fn put_serial(line: &mut Line, number: &[u8; 6])
    requires { line.old ≡ [] }
    ensures { line.new ≡ codes "serialization number " ++ encode_upper number.now }
{
    line.put("serialization number ");
    line.put_hex(number);
}

#[tactic(auto, unfolding(crate::specs::InsideText::response_text))]
fn put_response(line: &mut Line, major: u8, minor: u8, socket: u16, components: u8)
    requires { line.old ≡ [] }
    ensures { line.new ≡ response_text major minor socket components }
{
    line.put_field("diagnostics response version ", u32::from(major));
    line.put_field(".", u32::from(minor));
    line.put_word_field(" socket ", socket);
    line.put_field(" components ", u32::from(components));
}

fn signal_word(signal: Signal) -> &'static str
    ensures word { result.now ≡ signal_word signal }
    ensures most { length result.now ≤ 40 }
{
    match signal {
        Signal::Asks => "watchdog asks connection ",
        Signal::Answers => "watchdog answers connection ",
        Signal::Waits => "broadcast waits connection ",
    }
}

fn ping_word(ping: Ping) -> &'static str
    ensures word { result.now ≡ ping_word ping }
    ensures most { length result.now ≤ 40 }
{
    match ping {
        Ping::Registers => "ping registers",
        Ping::Asks => "ping asks",
        Ping::Answers => "ping answers",
    }
}

fn cut_word(protocol: Protocol) -> &'static str
    ensures word { result.now ≡ cut_word protocol }
    ensures most { length result.now ≤ 40 }
{
    match protocol {
        Protocol::Ncp => "ncp cut",
        Protocol::Spx => "spx cut",
        Protocol::NetBios => "netbios cut",
        Protocol::Diagnostics => "diagnostics cut",
        Protocol::Serialization => "serialization cut",
    }
}
