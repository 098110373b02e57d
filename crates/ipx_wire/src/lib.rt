//! The packets of Novell IPX, after the IPX Router Specification, read from bytes and written to
//! bytes; and the two ends of a run, a source and a sink of bytes that remember their failures. Whatever
//! routes, simulates or shows packets stands on this crate.
//!
//! - Readers are exact: they return a value if the bytes have its layout, and only then, and otherwise
//!   the first fault in the listed order. Writers are exact, and leave the rest of a slice.
//! - What was written is read again (law `reread`), and what is sent on is what came, but for the
//!   changed places (law `sent_on`). Names are in the order of their bytes (law `name_order`).
//! - What is read lends slices of its bytes, and nothing here takes memory. An intake asks its source
//!   once a call, and a bounded number of times; an outlet gives once a call.
//! - Lists of entries ([`Rip`], [`SapEntries`]) have `len`, `get(k)`, `entry(k)` for a `k` that is known to be below
//!   `len`, and `entries`; the networks crossed ([`Crossed`]) alike, with `get(k)` for such a `k`.
//! - A fault says what is wrong; `measure` beside each reader tells the numbers of the same bytes, for a log ([`Measure`]).
//! - Numbers, addresses, names and operations are told as bytes or words that can't fail (`digits`, `word`, `put_word`), and have
//!   `Display` and a `Debug` of the same.
//!
//! It computes no checksum, knows no link headers, and decides nothing: which packet is answered,
//! forwarded or dropped is a router's matter.
#![tactic(auto)]

mod address;
mod crossed;
mod crossed_iter;
mod failed;
mod fields;
mod forward;
mod header;
mod hex_text;
mod intake;
pub mod laws;
mod measure;
mod name_word;
mod network;
mod node;
mod not_hex;
mod out_of_memory;
mod outlet;
mod packet;
mod rip;
mod rip_entries;
mod sap;
mod sap_entries;
mod sap_iter;
mod service;
mod service_name;
mod sink;
mod socket;
mod source;
mod write;
mod write_services;

pub use crate::address::Address;
pub use crate::crossed::{Crossed, CrossedFault};
pub use crate::crossed_iter::CrossedIter;
pub use crate::failed::Failed;
pub use crate::forward::{change_to_crossed, change_to_forwarded, write_crossed, write_forwarded};
pub use crate::header::Header;
pub use crate::hex_text::{Hex, put_digits};
pub use crate::intake::{Intake, MOST_CALLS};
pub use crate::measure::Measure;
pub use crate::network::Network;
pub use crate::node::Node;
pub use crate::not_hex::NotHex;
pub use crate::out_of_memory::OutOfMemory;
pub use crate::outlet::Outlet;
pub use crate::packet::{Packet, PacketFault};
pub use crate::rip::{Operation, Rip, RipEntry, RipFault};
pub use crate::rip_entries::RipEntries;
pub use crate::sap::{Sap, SapFault};
pub use crate::sap_entries::{SapEntries, SapEntry};
pub use crate::sap_iter::SapIter;
pub use crate::service::Service;
pub use crate::service_name::ServiceName;
pub use crate::sink::Sink;
pub use crate::socket::Socket;
pub use crate::source::Source;
pub use crate::write::{write_query, write_rip};
pub use crate::write_services::{put_service, write_sap, write_sap_front};
