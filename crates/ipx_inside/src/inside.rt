//! What a packet holds, told by its type and its sockets.
ghost use Rattle.std.specs.Prelude.{◌≡◌, Some};
ghost use Rattle.ipx_inside.specs.Inside.{by_sockets, customary, diagnostics_in, excluded_in, inside_of, is_station, is_watched, known_at, named_in, ncp_in, netbios_in, pinged, propagated_in, response_in, serial_in, signal_of, spx_in, watched};
ghost use Rattle.ipx_inside.specs.InsideText.{inside_text};

use crate::fields::u16_at;
use crate::inside_line::line_of;
use crate::line::Line;
use crate::names::socket_name;
use crate::ncp::Ncp;
use crate::netbios::NetBios;
use crate::spx::Spx;
use ipx_wire::{Header, Node, Socket};
use std::fmt;

/// The packet type of sequenced packets.
const SPX: u8 = 5;

/// The packet type of NCP.
const NCP: u8 = 17;

/// The socket of NetBIOS.
const NETBIOS: Socket = Socket(0x0455);

/// The socket of DOSBox' tunnels.
const PING: Socket = Socket(0x0002);

/// How many bytes the list of networks in a propagated packet has.
const CROSSED: usize = 32;

/// A protocol whose fields a packet is too short for.
///
/// See the example of [`Inside`].
#[derive(Clone, Copy, Debug, PartialEq, Eq)]
pub enum Protocol {
    /// The NetWare Core Protocol.
    Ncp,
    /// The Sequenced Packet Exchange.
    Spx,
    /// NetBIOS.
    NetBios,
    /// Diagnostics.
    Diagnostics,
    /// Serialization.
    Serialization,
}

/// What a server says to a client's station in two bytes, or the station to it.
///
/// See the example of [`Inside`].
#[derive(Clone, Copy, Debug, PartialEq, Eq)]
pub enum Signal {
    /// `?`: is the station still there?
    Asks,
    /// `Y`: it is.
    Answers,
    /// `!`: a message waits at the server.
    Waits,
}

/// A packet of DOSBox' tunnels on socket 2, without data.
///
/// See the example of [`Inside`].
#[derive(Clone, Copy, Debug, PartialEq, Eq)]
pub enum Ping {
    /// To node 0: a client registers.
    Registers,
    /// To all nodes: who is there?
    Asks,
    /// To one node: an answer to either.
    Answers,
}

/// What a packet holds.
///
/// ```
/// let inside = Inside::read(&packet.header(), packet.payload());
/// match inside {
///     Inside::Ncp(Ncp::Request { function, sub, .. }) => {
///         println!(rt; "asks for {}", function_name(function, sub))?
///     }
///     Inside::Cut(protocol) => println!(rt; "too short for {protocol:?}")?,
///     _ => println!(rt; "{inside}")?,
/// }
/// // prints asks for Get File Server Information
/// ```
#[derive(Clone, Copy, Debug, PartialEq, Eq)]
pub enum Inside {
    /// Routing information, which `ipx_wire` reads.
    Rip,
    /// Service advertising, which `ipx_wire` reads.
    Sap,
    /// The NetWare Core Protocol.
    Ncp(Ncp),
    /// The Sequenced Packet Exchange.
    Spx(Spx),
    /// NetBIOS.
    NetBios(NetBios),
    /// The server's watchdog, or a message that waits.
    Watchdog {
        /// What is said.
        signal: Signal,
        /// The number of the connection.
        connection: u8,
    },
    /// Serialization: a server's serial number, by which copies of one licence find each other.
    Serialization([u8; 6]),
    /// Asks a station what it has.
    DiagnosticRequest {
        /// How many nodes that are listed shouldn't answer.
        excluded: u8,
    },
    /// Tells what a station has.
    DiagnosticResponse {
        /// The version of its diagnostics, before the point.
        major: u8,
        /// The version behind the point.
        minor: u8,
        /// The socket at which it answers further questions over SPX.
        socket: Socket,
        /// How many components it lists.
        components: u8,
    },
    /// A packet of DOSBox' tunnels.
    Ping(Ping),
    /// The protocol is known, and the packet ends before its fields do.
    Cut(Protocol),
    /// Nothing is known of the data, but a socket has a name.
    Named(Socket),
    /// Nothing is known.
    Unknown,
}

impl Inside {
    /// What a packet holds, by its header and its data.
    #[tactic(auto, unfolding(crate::specs::Inside::inside_of))]
    pub fn read(header: &Header, payload: &[u8]) -> Inside
        ensures { result ≡ inside_of header.now payload.now }
    {
        if header.kind == SPX {
            return spx_in(payload);
        }
        if header.kind == Header::PROPAGATED {
            return propagated_in(header, payload);
        }
        by_sockets(header, payload)
    }

    /// The one line that says it, without an end of the line.
    pub fn line(&self) -> Line
        ensures { result ≡ inside_text self.now }
    {
        line_of(self)
    }
}

/// The line.
impl fmt::Display for Inside {
    ghost output = { λ inside. Some (inside_text inside) };

    fn fmt<W: fmt::Write>(&self, f: &mut fmt::Formatter<W>) -> fmt::Result {
        f.write_str(self.line().as_str())
    }
}

fn spx_in(payload: &[u8]) -> Inside
    ensures { result ≡ spx_in payload.now }
{
    match Spx::read(payload) {
        Some(spx) => Inside::Spx(spx),
        None => Inside::Cut(Protocol::Spx),
    }
}

fn ncp_in(payload: &[u8]) -> Inside
    ensures { result ≡ ncp_in payload.now }
{
    match Ncp::read(payload) {
        Some(ncp) => Inside::Ncp(ncp),
        None => Inside::Cut(Protocol::Ncp),
    }
}

fn netbios_in(bytes: &[u8]) -> Inside
    ensures { result ≡ netbios_in bytes.now }
{
    match NetBios::read(bytes) {
        Some(netbios) => Inside::NetBios(netbios),
        None => Inside::Cut(Protocol::NetBios),
    }
}

/// Of a propagated packet what stands behind the networks, if it is NetBIOS.
fn propagated_in(header: &Header, payload: &[u8]) -> Inside
    ensures { result ≡ propagated_in header.now payload.now }
{
    if header.destination.socket != NETBIOS {
        return Inside::Unknown;
    }
    if payload.len() < CROSSED {
        return Inside::Cut(Protocol::NetBios);
    }
    let (_, bytes) = payload.split_at(CROSSED);
    netbios_in(bytes)
}

/// By the destination's socket, then by the source's, then by the type of NCP, and else by what is customary.
fn by_sockets(header: &Header, payload: &[u8]) -> Inside
    ensures { result ≡ by_sockets header.now payload.now }
{
    if let Some(inside) = known_at(header.destination.socket.0, true, payload) {
        return inside;
    }
    if let Some(inside) = known_at(header.source.socket.0, false, payload) {
        return inside;
    }
    if header.kind == NCP {
        return ncp_in(payload);
    }
    customary(header, payload)
}

/// What the data are at a well-known socket of the packet's destination, or of its source.
fn known_at(socket: u16, is_to: bool, payload: &[u8]) -> Option<Inside>
    ensures { result ≡ known_at socket is_to payload.now }
{
    match socket {
        0x0451 => Some(ncp_in(payload)),
        0x0452 => Some(Inside::Sap),
        0x0453 => Some(Inside::Rip),
        0x0455 => Some(netbios_in(payload)),
        0x0456 => Some(diagnostics_in(is_to, payload)),
        0x0457 => Some(serial_in(payload)),
        _ => None,
    }
}

/// A request to the socket of diagnostics, or the response from it.
fn diagnostics_in(is_request: bool, payload: &[u8]) -> Inside
    ensures { result ≡ diagnostics_in is_request payload.now }
{
    if is_request {
        return excluded_in(payload);
    }
    response_in(payload)
}

fn excluded_in(payload: &[u8]) -> Inside
    ensures { result ≡ excluded_in payload.now }
{
    if payload.is_empty() || payload.len() < 1 + 6 * usize::from(payload[0]) {
        return Inside::Cut(Protocol::Diagnostics);
    }
    Inside::DiagnosticRequest {
        excluded: payload[0],
    }
}

fn response_in(payload: &[u8]) -> Inside
    ensures { result ≡ response_in payload.now }
{
    if payload.len() < 5 {
        return Inside::Cut(Protocol::Diagnostics);
    }
    Inside::DiagnosticResponse {
        major: payload[0],
        minor: payload[1],
        socket: Socket(u16_at(payload, 2)),
        components: payload[4],
    }
}

fn serial_in(payload: &[u8]) -> Inside
    ensures { result ≡ serial_in payload.now }
{
    if payload.len() < 6 {
        return Inside::Cut(Protocol::Serialization);
    }
    let mut number = [0; 6];
    number.copy_from_slice(&payload[..6]);
    Inside::Serialization(number)
}

/// What it is by custom: a packet of DOSBox' tunnels, a watchdog's, or one for a socket with a name.
fn customary(header: &Header, payload: &[u8]) -> Inside
    ensures { result ≡ customary header.now payload.now }
{
    if header.destination.socket == PING && payload.is_empty() {
        return pinged(header.destination.node);
    }
    if let Some(inside) = watched(header, payload) {
        return inside;
    }
    named_in(header)
}

fn pinged(node: Node) -> Inside
    ensures { result ≡ pinged node }
{
    if node == Node([0; 6]) {
        return Inside::Ping(Ping::Registers);
    }
    if node == Node::BROADCAST {
        return Inside::Ping(Ping::Asks);
    }
    Inside::Ping(Ping::Answers)
}

/// A watchdog's packet: two bytes, the second a signal, and a socket by which servers send these.
fn watched(header: &Header, payload: &[u8]) -> Option<Inside>
    ensures { result ≡ watched header.now payload.now }
{
    if payload.len() != 2 || !is_watched(header) {
        return None;
    }
    let signal = signal_of(payload[1])?;
    Some(Inside::Watchdog {
        signal,
        connection: payload[0],
    })
}

fn is_watched(header: &Header) -> bool
    ensures { result ≡ is_watched header.now }
{
    is_station(header.destination.socket.0) || is_station(header.source.socket.0)
}

fn is_station(socket: u16) -> bool
    ensures { result ≡ is_station socket }
{
    socket == 0x4001 || socket == 0x4003
}

fn signal_of(byte: u8) -> Option<Signal>
    ensures { result ≡ signal_of byte }
{
    match byte {
        b'?' => Some(Signal::Asks),
        b'Y' => Some(Signal::Answers),
        b'!' => Some(Signal::Waits),
        _ => None,
    }
}

/// The destination's socket, or else the source's, if it has a name.
fn named_in(header: &Header) -> Inside
    ensures { result ≡ named_in header.now }
{
    if !socket_name(header.destination.socket).is_empty() {
        return Inside::Named(header.destination.socket);
    }
    if !socket_name(header.source.socket).is_empty() {
        return Inside::Named(header.source.socket);
    }
    Inside::Unknown
}
