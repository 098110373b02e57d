//! The data of service advertising packets: a query for services of a type, or a response of 1 to 7 entries.
ghost use Rattle.ipx_wire.specs.Sap.{IsSap, IsNoSap, query_of, response_of, sap_of};
ghost use Rattle.ipx_wire.specs.declared.sap.Sap.{Sap as Data};
ghost use Rattle.std.specs.Prelude.{◌≡◌, ◌≤◌, length, IfOk, IfErr, IsOkAnd};

use crate::fields::u16_at;
use crate::sap_entries::{SapEntries, SapEntry};
use thiserror::Error;

/// Why data is not service advertising. A reader reports a fault of the operation before one of what follows it.
///
/// See the example of [`Sap`].
#[derive(Clone, Copy, Debug, PartialEq, Eq, Hash, Error)]
pub enum SapFault {
    /// There are fewer than the two bytes of the operation, or a query has fewer than four.
    #[error("no operation, or no type")]
    Short,
    /// The operation isn't 1 to 4, but this number.
    #[error("operation {0} is neither query nor response")]
    Operation(u16),
    /// A response has fewer than 66 bytes, so no whole entry.
    #[error("no entry")]
    NoEntry,
    /// A response has 514 bytes or more, so over seven entries.
    #[error("more than seven entries")]
    TooMany,
}

/// The data of a service advertising packet; entries are lent from the bytes that were read.
///
/// ```
/// match Sap::read(data) {
///     Ok(Sap::Query { kind, .. }) => println!(rt; "who has type {kind:04X}?")?,
///     Ok(Sap::Response { entries, .. }) => {
///         for SapEntry { kind, address, .. } in entries.entries() {
///             println!(rt; "type {kind:04X} is at {address}")?;
///         }
///     }
///     Err(SapFault::Operation(number)) => println!(rt; "no operation has the number {number}")?,
///     Err(fault) => println!(rt; "{fault}")?,
/// }
/// // prints type 0004 is at 00000030.0000000000CC.0451
/// ```
#[derive(Debug, Drop)]
pub enum Sap<'a> {
    /// Asks for services.
    Query {
        /// Whether only the nearest service is asked for.
        nearest: bool,
        /// The type of the services; [`Sap::EVERY_TYPE`] stands for every type.
        kind: u16,
    },
    /// Advertises services.
    Response {
        /// Whether it answers a query for the nearest service.
        nearest: bool,
        /// The services, 1 to 7.
        entries: SapEntries<'a>,
    },
}

impl<'a> Sap<'a> {
    /// The type by which a query asks for services of every type.
    pub const EVERY_TYPE: u16 = 0xFFFF;

    /// Reads the data of a packet. Bytes behind the type of a query, and fewer than 64 behind the
    /// last entry of a response, are ignored.
    ///
    /// The faults, in their order: `Short` under 2 bytes; `Operation` if the operation isn't 1 to 4; then `Short` for
    /// a query under 4 bytes, and for a response `NoEntry` under 66 bytes and `TooMany` from 514 bytes on.
    pub fn read(payload: &'a [u8]) -> Result<Sap<'a>, SapFault>
        ensures found { IfOk result (IsSap payload.entry.now) }
        ensures only { (s : Data) → IsSap payload.entry.now s → IsOkAnd result (λ q. q ≡ s) }
        ensures refused { IfErr result (IsNoSap payload.entry.now) }
        // The same as a function of the bytes.
        ensures value { result ≡ sap_of payload.entry.now }
    {
        of(payload)
    }
}

#[tactic(auto, unfolding(crate::specs::Sap::sap_of))]
fn of(payload: &[u8]) -> Result<Sap<'_>, SapFault>
    ensures { result ≡ sap_of payload.entry.now }
{
    if payload.len() < 2 {
        return Err(SapFault::Short);
    }
    match u16_at(payload, 0) {
        1 => query(false, payload),
        2 => response(false, payload),
        3 => query(true, payload),
        4 => response(true, payload),
        number => Err(SapFault::Operation(number)),
    }
}

fn query(nearest: bool, payload: &[u8]) -> Result<Sap<'_>, SapFault>
    requires { 2 ≤ length payload.now }
    ensures { result ≡ query_of nearest payload.entry.now }
{
    if payload.len() < 4 {
        return Err(SapFault::Short);
    }
    let kind = u16_at(payload, 2);
    Ok(Sap::Query { nearest, kind })
}

fn response(nearest: bool, payload: &[u8]) -> Result<Sap<'_>, SapFault>
    requires { 2 ≤ length payload.now }
    ensures { result ≡ response_of nearest payload.entry.now }
{
    let count = (payload.len() - 2) / SapEntry::SIZE;
    if count == 0 {
        return Err(SapFault::NoEntry);
    }
    if count > SapEntry::MOST {
        return Err(SapFault::TooMany);
    }
    let (_, body) = payload.split_at(2);
    let entries = SapEntries::of(count, body);
    Ok(Sap::Response { nearest, entries })
}
