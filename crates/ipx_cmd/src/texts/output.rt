//! The lines that a run writes, each with its line feed.
ghost use Rattle.std.specs.Prelude.{◌≡◌, ◌++◌, OnOk, ◌+◌, ◌<◌, ◌≤◌, length, OnErr};
ghost use Rattle.std.specs.Vec.{vec_capacity};
ghost use Rattle.ipx_router.specs.WhyWord.{why_word};
ghost use Rattle.ipx_cmd.specs.Output.{out_text, drop_text, route_text, route_words, service_text, fault_text};

use crate::lines::fault::LineFault;
use crate::texts::service_words::add_service;
use crate::texts::text::{put_decimal, put_word};
use ipx_router::{RouteOffer, ServiceOffer, Why};
use ipx_wire::Node;
use std::alloc::AllocError;

/// Appends the line of a packet that was sent, by the port and to the node of its network.
///
/// An error means out of memory.
pub(crate) fn out_line(
    text: &mut Vec<u8>,
    port: u8,
    node: Node,
    bytes: &[u8],
) -> Result<(), AllocError>
    ensures text { OnOk result (text.new.items ≡ text.old.items ++ out_text port node.0 bytes.now) }
    ensures room { OnErr result (vec_capacity text.old < length text.old.items + length (out_text port node.0 bytes.now)) }
    ensures kept { vec_capacity text.old ≤ vec_capacity text.new }
{
    text.extend_from_slice(b"out ")?;
    put_decimal(text, u64::from(port))?;
    text.extend_from_slice(b" ")?;
    text.extend_from_slice(&node.digits())?;
    text.extend_from_slice(b" ")?;
    put_word(text, bytes)?;
    text.extend_from_slice(b"\n")
}

/// Appends the line of an event that was dropped.
///
/// An error means out of memory.
pub(crate) fn drop_line(text: &mut Vec<u8>, why: Why) -> Result<(), AllocError>
    ensures text { OnOk result (text.new.items ≡ text.old.items ++ drop_text (why_word why)) }
    ensures room { OnErr result (vec_capacity text.old < length text.old.items + length (drop_text (why_word why))) }
    ensures kept { vec_capacity text.old ≤ vec_capacity text.new }
{
    text.extend_from_slice(b"drop ")?;
    text.extend_from_slice(why.word().as_bytes())?;
    text.extend_from_slice(b"\n")
}

/// Appends the line of a route in the table: its age is in seconds.
///
/// An error means out of memory.
pub(crate) fn route_line(text: &mut Vec<u8>, route: &RouteOffer, age: u8) -> Result<(), AllocError>
    ensures text { OnOk result (text.new.items ≡ text.old.items ++ route_text route.now age) }
    ensures room { OnErr result (vec_capacity text.old < length text.old.items + length (route_text route.now age)) }
    ensures kept { vec_capacity text.old ≤ vec_capacity text.new }
{
    add_route(text, route)?;
    text.extend_from_slice(b" ")?;
    put_decimal(text, u64::from(route.port))?;
    text.extend_from_slice(b" ")?;
    text.extend_from_slice(&route.node.digits())?;
    text.extend_from_slice(b" ")?;
    put_decimal(text, u64::from(age))?;
    text.extend_from_slice(b"\n")
}

/// Appends the words of a route: its network, and how far away that is.
///
/// An error means out of memory.
#[tactic(auto, unfolding(crate::specs::Output::route_words))]
fn add_route(text: &mut Vec<u8>, route: &RouteOffer) -> Result<(), AllocError>
    ensures text { OnOk result (text.new.items ≡ text.old.items ++ route_words route.now) }
    ensures room { OnErr result (vec_capacity text.old < length text.old.items + length (route_words route.now)) }
    ensures kept { vec_capacity text.old ≤ vec_capacity text.new }
{
    text.extend_from_slice(b"route ")?;
    text.extend_from_slice(&route.network.digits())?;
    text.extend_from_slice(b" ")?;
    put_decimal(text, u64::from(route.hops))?;
    text.extend_from_slice(b" ")?;
    put_decimal(text, u64::from(route.ticks))
}

/// Appends the line of a service in the table: its age is in seconds.
///
/// An error means out of memory.
#[tactic(auto, unfolding(crate::specs::Output::service_text))]
pub(crate) fn service_line(
    text: &mut Vec<u8>,
    offer: &ServiceOffer,
    age: u8,
) -> Result<(), AllocError>
    ensures text { OnOk result (text.new.items ≡ text.old.items ++ service_text offer.now age) }
    ensures room { OnErr result (vec_capacity text.old < length text.old.items + length (service_text offer.now age)) }
    ensures kept { vec_capacity text.old ≤ vec_capacity text.new }
{
    add_service(text, &offer.service)?;
    text.extend_from_slice(b" ")?;
    put_decimal(text, u64::from(offer.port))?;
    text.extend_from_slice(b" ")?;
    put_decimal(text, u64::from(age))?;
    text.extend_from_slice(b"\n")
}

/// Appends the line that tells what is wrong with a line of the script, numbered from 1.
///
/// An error means out of memory.
pub(crate) fn fault_line(
    text: &mut Vec<u8>,
    number: u64,
    fault: LineFault,
) -> Result<(), AllocError>
    ensures text { OnOk result (text.new.items ≡ text.old.items ++ fault_text number fault) }
    ensures room { OnErr result (vec_capacity text.old < length text.old.items + length (fault_text number fault)) }
    ensures kept { vec_capacity text.old ≤ vec_capacity text.new }
{
    text.extend_from_slice(b"line ")?;
    put_decimal(text, number)?;
    text.extend_from_slice(b": ")?;
    text.extend_from_slice(fault.word().as_bytes())?;
    text.extend_from_slice(b"\n")
}
