//! A line of a script for an internet: what is wrong with it, or the order that it gives.
//!
//! The order of judging: a comment is skipped; then `text`; a line without words is skipped; then
//! `command`, `words`, `late`, `routers`, `router`, `many`, and the words from left to right.
ghost use Rattle.std.specs.Prelude.{◌≡◌, ℕ, List, codes, IsTrue, IsErrOf, IfOk, IfErr, Ok, Err, ◌||◌};
ghost use Rattle.std.specs.Str.{bytes_eq};
ghost use Rattle.std.specs.Option.{option_map};
ghost use Rattle.ipx_cmd.specs.declared.ended.RunFault.{RunFault};
ghost use Rattle.ipx_cmd.specs.Line.{Answers, AnswersInMemory, Stops};
ghost use Rattle.ipx_cmd.specs.OrderLine.{router_allowed, port_allowed, port_meaning, place_of, place_meaning, limit_meaning, packet_of, in_meaning, traced_of, trace_meaning, router_command, later_command, command_meaning, order_meaning, brings_bytes};
ghost use Rattle.ipx_cmd.specs.OrderMeaning.{next_port, order_says};
ghost use Rattle.ipx_cmd.specs.Words.{words};

use crate::lines::command::{MOST_PORTS, NamedPort, one_number, port_of, seconds};
use crate::lines::fault::LineFault;
use crate::lines::halt::Halt;
use crate::lines::line::{line_words, no_more, read_bytes};
use crate::lines::words::{
    four_words, is_word, number, number_u8, one_word, port_words, three_words, two_words,
};

/// How many routers an internet of the program has at most.
pub(crate) const MOST_ROUTERS: usize = 32;

/// How many deliveries one line can ask for, and how many receptions.
const MOST_LIMIT: u32 = 1_000_000;

/// How far an internet's script has come.
#[derive(Clone, Copy)]
pub(crate) struct OrderStage {
    /// Whether the internet is made.
    pub made: bool,
    /// How many routers were named so far.
    pub routers: usize,
    /// How many ports of the latest of them were named so far.
    pub ports: usize,
}

/// What a line of an internet's script asks for.
#[derive(Clone, Copy)]
pub(crate) enum Order {
    /// The next router of the internet.
    Router,
    /// The next port of the latest router.
    Port(NamedPort),
    /// A router starts.
    Start { router: u8 },
    /// A router stops.
    Stop { router: u8 },
    /// This many seconds pass for all routers, one after the other.
    Second { count: u32 },
    /// The packet in the buffer comes in by a port of a router.
    Packet { router: u8, port: u8 },
    /// A port of a router goes down.
    PortDown { router: u8, port: u8 },
    /// A port of a router comes up.
    PortUp { router: u8, port: u8 },
    /// What waits is delivered, that many deliveries at most.
    Settle { limit: u32 },
    /// What becomes of the packet in the buffer, in that many receptions at most.
    Trace { router: u8, port: u8, limit: u32 },
    /// The route table of a router is shown.
    Routes { router: u8 },
    /// The service table of a router is shown.
    Services { router: u8 },
}

/// Whether another router may be named.
fn router_allowed(stage: OrderStage) -> Result<(), LineFault>
    ensures { result ≡ router_allowed stage }
{
    if stage.made {
        Err(LineFault::Late)
    } else if MOST_ROUTERS <= stage.routers {
        Err(LineFault::Routers)
    } else {
        Ok(())
    }
}

/// Whether another port of the latest router may be named.
fn port_allowed(stage: OrderStage) -> Result<(), LineFault>
    ensures { result ≡ port_allowed stage }
{
    if stage.made {
        Err(LineFault::Late)
    } else if stage.routers == 0 {
        Err(LineFault::Router)
    } else if MOST_PORTS <= stage.ports {
        Err(LineFault::Many)
    } else {
        Ok(())
    }
}

/// The port of `port NET NODE COST LONGEST`, or with ROUTES SERVICES behind it, by the words after the first.
fn named_port(stage: OrderStage, arguments: &[u8]) -> Result<NamedPort, LineFault>
    ensures { Answers next_port result (port_meaning stage (words arguments.now)) }
{
    let named = port_words(arguments).ok_or(LineFault::Words)?;
    port_allowed(stage)?;
    let port = port_of(named)?;
    Ok(port)
}

/// The router and the port that two words name, read from left to right.
fn place_of(router_word: &[u8], port_word: &[u8]) -> Result<(u8, u8), LineFault>
    ensures { result ≡ place_of router_word.now port_word.now }
{
    let router = number_u8(router_word).ok_or(LineFault::Number)?;
    let port = number_u8(port_word).ok_or(LineFault::Number)?;
    Ok((router, port))
}

/// The router and the port of `down ROUTER PORT` and `up ROUTER PORT`, by the words after the first.
fn place(arguments: &[u8]) -> Result<(u8, u8), LineFault>
    ensures { result ≡ place_meaning (words arguments.now) }
{
    let (router, port) = two_words(arguments).ok_or(LineFault::Words)?;
    place_of(router, port)
}

/// The limit of `settle LIMIT`, by the words after the first.
fn limit(arguments: &[u8]) -> Result<u32, LineFault>
    ensures { result ≡ limit_meaning (words arguments.now) }
{
    let word = one_word(arguments).ok_or(LineFault::Words)?;
    number(word, MOST_LIMIT).ok_or(LineFault::Number)
}

/// The packet that three words name, read from left to right; its bytes go into the buffer.
fn packet_of(
    buffer: &mut Vec<u8>,
    router_word: &[u8],
    port_word: &[u8],
    bytes_word: &[u8],
) -> Result<Order, Halt>
    ensures { AnswersInMemory (order_says buffer.new.items) result (packet_of router_word.now port_word.now bytes_word.now) }
{
    let (router, port) = place_of(router_word, port_word)?;
    read_bytes(buffer, bytes_word)?;
    Ok(Order::Packet { router, port })
}

/// `in ROUTER PORT HEX`, by the words after the first.
fn in_order(buffer: &mut Vec<u8>, arguments: &[u8]) -> Result<Order, Halt>
    ensures { AnswersInMemory (order_says buffer.new.items) result (in_meaning (words arguments.now)) }
{
    let (router, port, bytes) = three_words(arguments).ok_or(LineFault::Words)?;
    packet_of(buffer, router, port, bytes)
}

/// The packet and the limit that four words name, read from left to right; its bytes go into the buffer.
fn traced_of(
    buffer: &mut Vec<u8>,
    router_word: &[u8],
    port_word: &[u8],
    limit_word: &[u8],
    bytes_word: &[u8],
) -> Result<Order, Halt>
    ensures { AnswersInMemory (order_says buffer.new.items) result (traced_of router_word.now port_word.now limit_word.now bytes_word.now) }
{
    let (router, port) = place_of(router_word, port_word)?;
    let limit = number(limit_word, MOST_LIMIT).ok_or(LineFault::Number)?;
    read_bytes(buffer, bytes_word)?;
    Ok(Order::Trace {
        router,
        port,
        limit,
    })
}

/// `trace ROUTER PORT LIMIT HEX`, by the words after the first.
fn trace_order(buffer: &mut Vec<u8>, arguments: &[u8]) -> Result<Order, Halt>
    ensures { AnswersInMemory (order_says buffer.new.items) result (trace_meaning (words arguments.now)) }
{
    let (router, port, limit, bytes) = four_words(arguments).ok_or(LineFault::Words)?;
    traced_of(buffer, router, port, limit, bytes)
}

/// An order by its first word and what follows that.
fn read_order(
    buffer: &mut Vec<u8>,
    stage: OrderStage,
    name: &[u8],
    arguments: &[u8],
) -> Result<Order, Halt>
    ensures meaning { AnswersInMemory (order_says buffer.new.items) result (command_meaning stage name.now (words arguments.now)) }
    ensures memory { IsErrOf result (Halt.Run RunFault.Memory) → IsTrue (bytes_eq name.now (codes "in") || bytes_eq name.now (codes "trace")) }
{
    if is_word(name, b"router") {
        no_more(arguments)?;
        router_allowed(stage)?;
        return Ok(Order::Router);
    }
    if is_word(name, b"port") {
        let named = named_port(stage, arguments)?;
        return Ok(Order::Port(named));
    }
    if is_word(name, b"in") {
        return in_order(buffer, arguments);
    }
    if is_word(name, b"trace") {
        return trace_order(buffer, arguments);
    }
    let order = read_later_order(name, arguments)?;
    Ok(order)
}

/// The orders of a port or of all routers, and those behind them.
fn read_later_order(name: &[u8], arguments: &[u8]) -> Result<Order, LineFault>
    ensures order { IfOk result (λ order. (buffer : List ℕ) → later_command name.now (words arguments.now) ≡ Ok (order_says buffer order)) }
    ensures fault { IfErr result (λ fault. later_command name.now (words arguments.now) ≡ Err fault) }
{
    if is_word(name, b"second") {
        let count = seconds(arguments)?;
        return Ok(Order::Second { count });
    }
    if is_word(name, b"settle") {
        let limit = limit(arguments)?;
        return Ok(Order::Settle { limit });
    }
    if is_word(name, b"down") {
        let (router, port) = place(arguments)?;
        return Ok(Order::PortDown { router, port });
    }
    if is_word(name, b"up") {
        let (router, port) = place(arguments)?;
        return Ok(Order::PortUp { router, port });
    }
    read_router_order(name, arguments)
}

/// The orders of one router, by its number alone.
fn read_router_order(name: &[u8], arguments: &[u8]) -> Result<Order, LineFault>
    ensures order { IfOk result (λ order. (buffer : List ℕ) → router_command name.now (words arguments.now) ≡ Ok (order_says buffer order)) }
    ensures fault { IfErr result (λ fault. router_command name.now (words arguments.now) ≡ Err fault) }
{
    if is_word(name, b"start") {
        let router = one_number(arguments)?;
        return Ok(Order::Start { router });
    }
    if is_word(name, b"stop") {
        let router = one_number(arguments)?;
        return Ok(Order::Stop { router });
    }
    if is_word(name, b"routes") {
        let router = one_number(arguments)?;
        return Ok(Order::Routes { router });
    }
    if is_word(name, b"services") {
        let router = one_number(arguments)?;
        return Ok(Order::Services { router });
    }
    Err(LineFault::Command)
}

/// Reads a line of `internet`'s script, without its line feed and the carriage return before that.
///
/// A line that is skipped gives no order. Of several faults the first in the order above is told. The bytes of a packet go
/// into the buffer.
pub(crate) fn read_order_line(
    buffer: &mut Vec<u8>,
    line: &[u8],
    stage: OrderStage,
) -> Result<Option<Order>, Halt>
    ensures order { IfOk result (λ order. order_meaning stage line.now ≡ Ok (option_map (order_says buffer.new.items) order)) }
    ensures refused { IfErr result (Stops (order_meaning stage line.now)) }
    ensures memory { IsErrOf result (Halt.Run RunFault.Memory) → IsTrue (brings_bytes (words line.now)) }
{
    match line_words(line)? {
        Some((name, arguments)) => Ok(Some(read_order(buffer, stage, name, arguments)?)),
        None => Ok(None),
    }
}
