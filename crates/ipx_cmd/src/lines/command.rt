//! A line of a script for one router: what is wrong with it, or the command that it gives.
//!
//! The order of judging: a comment is skipped; then `text`; a line without words is skipped; then
//! `command`, `words`, `late`, `many`, and the words from left to right.
ghost use Rattle.std.specs.Prelude.{◌≡◌, ℕ, List, codes, IsTrue, IsErrOf, IfOk, IfErr, Ok, Err};
ghost use Rattle.std.specs.Str.{bytes_eq};
ghost use Rattle.std.specs.Option.{option_map};
ghost use Rattle.ipx_cmd.specs.declared.ended.RunFault.{RunFault};
ghost use Rattle.ipx_cmd.specs.CommandMeaning.{command_says, next_port, values_of};
ghost use Rattle.ipx_cmd.specs.Line.{Answers, AnswersInMemory, Stops};
ghost use Rattle.ipx_cmd.specs.Script.{line_meaning, command_meaning, port_allowed, shares_of, port_of, port_meaning, count_meaning, number_meaning, later_meaning, packet_of, in_meaning, brings_bytes};
ghost use Rattle.ipx_cmd.specs.Words.{words};

use crate::lines::fault::LineFault;
use crate::lines::halt::Halt;
use crate::lines::line::{line_words, no_more, read_bytes};
use crate::lines::words::{
    PortWords, is_word, network, node, number_from_one, number_u8, number_u16, one_word,
    port_words, two_words,
};
use ipx_wire::{Network, Node};

/// How many ports a router of the program has at most.
pub(crate) const MOST_PORTS: usize = 8;

/// How many seconds one line can let pass: a day.
const MOST_SECONDS: u32 = 86_400;

/// How far a script has come.
#[derive(Clone, Copy)]
pub(crate) struct Stage {
    /// Whether the router is made.
    pub made: bool,
    /// How many ports were named so far.
    pub ports: usize,
}

/// A port as a line names it.
#[derive(Clone, Copy)]
pub(crate) struct NamedPort {
    pub network: Network,
    pub node: Node,
    /// Ticks to the port's network.
    pub cost: u16,
    /// Bytes of the longest packet.
    pub longest: u16,
    /// How many of the routes in the table may have come by it.
    pub routes: u16,
    /// How many of the services in the table may have come by it.
    pub services: u16,
}

/// What a line of a script asks for.
#[derive(Clone, Copy)]
pub(crate) enum Command {
    /// The next port of the router.
    Port(NamedPort),
    /// The router starts.
    Start,
    /// The router stops.
    Stop,
    /// This many seconds pass, one after the other.
    Second { count: u32 },
    /// The packet in the buffer comes in by a port.
    Packet { port: u8 },
    /// A port goes down.
    PortDown { port: u8 },
    /// A port comes up.
    PortUp { port: u8 },
    /// The route table is shown.
    Routes,
    /// The service table is shown.
    Services,
}

/// Whether another port may be named.
fn port_allowed(stage: Stage) -> Result<(), LineFault>
    ensures { result ≡ port_allowed stage }
{
    if stage.made {
        Err(LineFault::Late)
    } else if MOST_PORTS <= stage.ports {
        Err(LineFault::Many)
    } else {
        Ok(())
    }
}

/// The shares that two words name; without them nothing is limited.
fn shares_of(named: Option<(&[u8], &[u8])>) -> Result<(u16, u16), LineFault>
    ensures { result ≡ shares_of (option_map (λ shares. (shares.0.now, shares.1.now)) named.entry) }
{
    match named {
        None => Ok((u16::MAX, u16::MAX)),
        Some((routes_word, services_word)) => {
            let routes = number_u16(routes_word).ok_or(LineFault::Number)?;
            let services = number_u16(services_word).ok_or(LineFault::Number)?;
            Ok((routes, services))
        }
    }
}

/// The port that words name, read from left to right.
pub(crate) fn port_of(named: PortWords<'_>) -> Result<NamedPort, LineFault>
    ensures { Answers values_of result (port_of named.entry.network.now named.entry.node.now named.entry.cost.now named.entry.longest.now (option_map (λ shares. (shares.0.now, shares.1.now)) named.entry.shares)) }
{
    let network = network(named.network).ok_or(LineFault::Network)?;
    let node = node(named.node).ok_or(LineFault::Node)?;
    let cost = number_u16(named.cost).ok_or(LineFault::Number)?;
    let longest = number_u16(named.longest).ok_or(LineFault::Number)?;
    let (routes, services) = shares_of(named.shares)?;
    Ok(NamedPort {
        network,
        node,
        cost,
        longest,
        routes,
        services,
    })
}

/// The port of `port NET NODE COST LONGEST`, or with ROUTES SERVICES behind it, by the words after the first.
fn named_port(stage: Stage, arguments: &[u8]) -> Result<NamedPort, LineFault>
    ensures { Answers next_port result (port_meaning stage (words arguments.now)) }
{
    let named = port_words(arguments).ok_or(LineFault::Words)?;
    port_allowed(stage)?;
    port_of(named)
}

/// The count of `second N`, by the words after the first.
pub(crate) fn seconds(arguments: &[u8]) -> Result<u32, LineFault>
    ensures { Answers (λ count. count) result (count_meaning (words arguments.now)) }
{
    let word = one_word(arguments).ok_or(LineFault::Words)?;
    number_from_one(word, MOST_SECONDS).ok_or(LineFault::Number)
}

/// The number of a port or a router, alone behind the first word.
pub(crate) fn one_number(arguments: &[u8]) -> Result<u8, LineFault>
    ensures { Answers (λ number. number) result (number_meaning (words arguments.now)) }
{
    let word = one_word(arguments).ok_or(LineFault::Words)?;
    number_u8(word).ok_or(LineFault::Number)
}

/// The packet that two words name, read from left to right; its bytes go into the buffer.
fn packet_of(buffer: &mut Vec<u8>, port_word: &[u8], bytes_word: &[u8]) -> Result<Command, Halt>
    ensures { AnswersInMemory (command_says buffer.new.items) result (packet_of port_word.now bytes_word.now) }
{
    let port = number_u8(port_word).ok_or(LineFault::Number)?;
    read_bytes(buffer, bytes_word)?;
    Ok(Command::Packet { port })
}

/// `in PORT HEX`, by the words after the first.
fn in_command(buffer: &mut Vec<u8>, arguments: &[u8]) -> Result<Command, Halt>
    ensures { AnswersInMemory (command_says buffer.new.items) result (in_meaning (words arguments.now)) }
{
    let (port, bytes) = two_words(arguments).ok_or(LineFault::Words)?;
    packet_of(buffer, port, bytes)
}

/// A command by its first word and what follows that.
fn read_command(
    buffer: &mut Vec<u8>,
    stage: Stage,
    name: &[u8],
    arguments: &[u8],
) -> Result<Command, Halt>
    ensures meaning { AnswersInMemory (command_says buffer.new.items) result (command_meaning stage name.now (words arguments.now)) }
    ensures memory { IsErrOf result (Halt.Run RunFault.Memory) → IsTrue (bytes_eq name.now (codes "in")) }
{
    if is_word(name, b"port") {
        let named = named_port(stage, arguments)?;
        return Ok(Command::Port(named));
    }
    if is_word(name, b"start") {
        no_more(arguments)?;
        return Ok(Command::Start);
    }
    if is_word(name, b"stop") {
        no_more(arguments)?;
        return Ok(Command::Stop);
    }
    if is_word(name, b"second") {
        let count = seconds(arguments)?;
        return Ok(Command::Second { count });
    }
    if is_word(name, b"in") {
        return in_command(buffer, arguments);
    }
    let command = read_later_command(name, arguments)?;
    Ok(command)
}

/// The commands behind `in`.
fn read_later_command(name: &[u8], arguments: &[u8]) -> Result<Command, LineFault>
    ensures command { IfOk result (λ command. (buffer : List ℕ) → later_meaning name.now (words arguments.now) ≡ Ok (command_says buffer command)) }
    ensures fault { IfErr result (λ fault. later_meaning name.now (words arguments.now) ≡ Err fault) }
{
    if is_word(name, b"down") {
        let port = one_number(arguments)?;
        return Ok(Command::PortDown { port });
    }
    if is_word(name, b"up") {
        let port = one_number(arguments)?;
        return Ok(Command::PortUp { port });
    }
    if is_word(name, b"routes") {
        no_more(arguments)?;
        return Ok(Command::Routes);
    }
    if is_word(name, b"services") {
        no_more(arguments)?;
        return Ok(Command::Services);
    }
    Err(LineFault::Command)
}

/// Reads a line of `replay`'s script, without its line feed and the carriage return before that.
///
/// A line that is skipped gives no command. Of several faults the first in the order above is told. The bytes of a packet go
/// into the buffer.
pub(crate) fn read_line(
    buffer: &mut Vec<u8>,
    line: &[u8],
    stage: Stage,
) -> Result<Option<Command>, Halt>
    ensures command { IfOk result (λ command. line_meaning stage line.now ≡ Ok (option_map (command_says buffer.new.items) command)) }
    ensures refused { IfErr result (Stops (line_meaning stage line.now)) }
    ensures memory { IsErrOf result (Halt.Run RunFault.Memory) → IsTrue (brings_bytes (words line.now)) }
{
    match line_words(line)? {
        Some((name, arguments)) => Ok(Some(read_command(buffer, stage, name, arguments)?)),
        None => Ok(None),
    }
}
