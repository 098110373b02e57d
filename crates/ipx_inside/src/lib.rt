//! What travels in IPX packets, in one line each.
//!
//! - [`Inside::read`] says what a packet holds: a value with the protocol's own fields, by the packet's type, its sockets and its data alone. It
//!   keeps nothing of earlier packets, reads nothing past the end, and takes no memory.
//! - [`Inside::line`] puts that value into words, in at most [`Line::LONGEST`] bytes, and `Display` shows the same.
//! - What is cut short, and what isn't known, has a case of its own: [`Inside::Cut`], [`Inside::Named`], [`Inside::Unknown`].
//! - Names of NCP functions, of sockets and of types of services stand in one table each: [`function_name`], [`socket_name`], [`service_name`].
//!
//! RIP, SAP and the networks that a propagated packet crossed are read by `ipx_wire`; here they are named alone.
#![tactic(auto)]

mod fields;
mod inside;
mod inside_line;
mod line;
mod names;
mod ncp;
mod ncp_line;
mod ncp_name;
mod netbios;
mod netbios_line;
mod spx;
mod spx_line;

pub use crate::inside::{Inside, Ping, Protocol, Signal};
pub use crate::line::Line;
pub use crate::names::{service_name, socket_name};
pub use crate::ncp::{Burst, Caller, Ncp, Sub};
pub use crate::ncp_name::function_name;
pub use crate::netbios::{NetBios, Session};
pub use crate::spx::{Size, Spx};
