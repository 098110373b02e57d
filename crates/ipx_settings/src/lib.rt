//! What a gateway's configuration says, line by line.
//!
//! - A line is cut into words; each word is a number, an address, a node, a name, or one of a list, and goes on with what the words before it
//!   said. So a line that is wrong has one word that is wrong, the first behind which it could go on no more, and one thing that was expected
//!   there.
//! - `Reading::of` reads a line: what its words say, how many of them could be read, and what was expected where they couldn't be. Its contract
//!   is exact, by the definitions in `specs/`, one word after the other.
//! - `write_line` and its like write lines, links and addresses into a room that they are given. What was written of a value that a right line
//!   can have is read again as this value (`laws`).
//! - It stands on nothing, takes no memory, and knows no other line.
#![tactic(auto)]

mod addresses;
mod cutting;
mod expected;
mod hosts;
mod internal;
pub mod laws;
mod line;
mod link;
mod names;
mod network;
mod nodes;
mod numbers;
mod putting;
mod reading;
mod rule;
mod statics;
mod words;
mod writing_addresses;
mod writing_hosts;
mod writing_lines;
mod writing_links;
mod writing_lists;
mod writing_rules;
mod writing_statics;

pub use crate::addresses::{Address, Host, HostRange, Place, read_range};
pub use crate::expected::Expected;
pub use crate::internal::InternalBegun;
pub use crate::line::{ClientsBegun, Context, Line, RateBegun, socket};
pub use crate::link::{Cards, End, Frames, Link, LinkBegun};
pub use crate::names::origin;
pub use crate::network::{Head, NetworkBegun, Shares};
pub use crate::nodes::node_bytes;
pub use crate::numbers::hexadecimal;
pub use crate::reading::{Reading, word, word_of};
pub use crate::rule::{Names, RuleBegun, Way, What};
pub use crate::statics::{RouteBegun, ServiceAddress, ServiceBegun, StaticRoute, StaticService};
pub use crate::words::Span;
pub use crate::writing_addresses::{LONGEST_ADDRESS, write_address};
pub use crate::writing_lines::{LONGEST_LINE, write_line};
pub use crate::writing_links::{LONGEST_LINK, write_link};
pub use crate::writing_lists::{LONGEST_LIST, write_allowed, write_sockets, write_trusted};
