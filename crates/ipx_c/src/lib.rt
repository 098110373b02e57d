//! The router for C, and for whatever can call C: a static library, whose headers are `ipxr.h`, `ipxr_tunnel.h`, `ipxr_keyed.h`, `ipxr_segment.h`,
//! `ipxr_plan.h`, `ipxr_settings.h`, `ipxr_fair.h`, `ipxr_limits.h`, `ipxr_cable.h`, `ipxr_fates.h` and `ipxr_peers.h` in `include/`.
//!
//! - C holds a router by a `RouterHandle`: a flag and a pointer. All bytes 0 are a handle without a router.
//! - `Handle` and `Cell` serve any machine, and are proved once. What crosses to C may have no type parameter, so each kind of machine
//!   has a cell and a handle of its own beside them, with the same fields.
//! - Each export answers a number (`specs/Codes`), and its clause says what it did, by the definitions of `ipx_router`: an event
//!   was taken (`Happens`), a router was made (`Makes`), a packet was copied out (`Copies`), a record was read (`Reads`). Below 0
//!   nothing happened.
//! - How many ports, routes and services a router can have, how many clients a tunnel, and how many links and stations a
//!   segment, stands in `sizes`, whose constants `specs/Sizes` names. `tools/sized` writes that file anew for a library of other sizes.
//! - A tunnel of DOSBox' is the second kind of machine: `TunnelMachine` has the tunnel of `ipx_tunnel` and the lists of what came of
//!   its last event, which are filled where they lie (`TunnelMakes`, `TunnelEvents`, `TunnelReads`). Broadcasts are copied without
//!   one (`Extends`).
//! - A tunnel that hands out nodes is another: `KeyedMachine` has that of `ipx_keyed` (`KeyedMakes`, `KeyedEvents`, `KeyedReads`).
//! - A network over several links is the last: `SegmentMachine` has the segment of `ipx_segment` and the links that get the packet of
//!   its last event (`SegmentMakes`, `SegmentEvents`, `SegmentReads`).
//! - The plan of a reload is made of values and written to values (`Plans`), by `ipx_plan`; and the lines of a configuration are read to
//!   values (`SettingsValues`) and written of values (`SettingsWritten`), by `ipx_settings`.
//! - Fair queueing and meters are no machines: C keeps them in memory of its own, where all bytes 0 are one, and lends them. Each call's
//!   clause is that of `ipx_fair`. So are a gateway's limits, by `ipx_limits`, whose kinds, reasons and ranks have numbers
//!   (`LimitValues`), and a narrow line; and what a gateway decides about its cables, by `ipx_cable` (`CableValues`), and what
//!   becomes of each packet, by `ipx_fates`, whose steps, fates and reasons have numbers (`CourseValues`, `CountValues`); and what is
//!   known of gateways that share a network, by `ipx_peers`, whose verdicts have numbers (`PeerValues`).
//! - Frames of Ethernet are read and written as `ipx_capture` does, by the numbers of their kinds (`Kinds`).
//! - Packets are written by the writers of `ipx_wire`, of values that C gives (`Writes`).
//! - What passes between a cable and the router is asked with the port's values (`Edges`), by `ipx_edge`. The rules of a filter are values
//!   too, whose numbers say what a rule names (`RuleValues`); each call reads them anew.
//! - `cell` is the only place with a raw pointer; its proofs, and those alone, are walks by hand.
//! - A handle isn't `Drop`: what doesn't hand its machine on, or put it into an empty one, doesn't compile or isn't proved. So no
//!   call loses a router. That `ipxr_free` and `ipxr_make` free is one line in `making`, `drop(machine)`, which no clause can say; for
//!   tunnels it is one in `tunnel_making` and one in `keyed_making`, for segments one in `segment_making`.
#![tactic(auto)]

pub mod cable;
mod cell;
mod code;
pub mod configuration;
mod course_values;
pub mod edge;
mod events;
mod extending;
mod fair;
pub mod fates;
mod fault;
mod frames;
mod handle;
mod item;
mod keyed_events;
mod keyed_machine;
mod keyed_making;
mod keyed_reading;
mod keyed_values;
mod limit_values;
pub mod limits;
pub mod line;
mod machine;
mod making;
pub mod peers;
mod plan_values;
mod planning;
mod reading;
mod rule_values;
mod segment_events;
mod segment_machine;
mod segment_making;
mod segment_reading;
mod segment_values;
mod sending;
pub mod settings;
mod settings_values;
pub mod settings_writing;
mod sizes;
pub mod statics;
mod tunnel_events;
mod tunnel_machine;
mod tunnel_making;
mod tunnel_reading;
mod tunnel_values;
mod values;
mod words;
mod writing;

pub use crate::course_values::CourseValues;
pub use crate::events::ipxr_packet;
pub use crate::events::ipxr_port_down;
pub use crate::events::ipxr_port_up;
pub use crate::events::ipxr_second;
pub use crate::events::ipxr_start;
pub use crate::events::ipxr_stop;
pub use crate::extending::ipxr_tunnel_extend;
pub use crate::fair::ipxr_fair_both_hear;
pub use crate::fair::ipxr_fair_look;
pub use crate::fair::ipxr_fair_make;
pub use crate::fair::ipxr_fair_pass;
pub use crate::fair::ipxr_fair_says;
pub use crate::fair::ipxr_meter_both_let;
pub use crate::fair::ipxr_meter_lets;
pub use crate::fair::ipxr_meter_pass;
pub use crate::fault::Fault;
pub use crate::frames::ipxr_frame_read;
pub use crate::frames::ipxr_frame_write;
pub use crate::handle::KeyedHandle;
pub use crate::handle::RouterHandle;
pub use crate::handle::SegmentHandle;
pub use crate::handle::TunnelHandle;
pub use crate::keyed_events::ipxr_keyed_hear;
pub use crate::keyed_events::ipxr_keyed_second;
pub use crate::keyed_events::ipxr_keyed_send;
pub use crate::keyed_machine::KeyedMachine;
pub use crate::keyed_making::ipxr_keyed_free;
pub use crate::keyed_making::ipxr_keyed_make;
pub use crate::keyed_reading::ipxr_keyed_carried;
pub use crate::keyed_reading::ipxr_keyed_client;
pub use crate::keyed_reading::ipxr_keyed_clients;
pub use crate::keyed_reading::ipxr_keyed_is_heard;
pub use crate::keyed_reading::ipxr_keyed_leaver;
pub use crate::keyed_reading::ipxr_keyed_leavers;
pub use crate::keyed_reading::ipxr_keyed_own;
pub use crate::keyed_reading::ipxr_keyed_owns;
pub use crate::keyed_reading::ipxr_keyed_pings;
pub use crate::keyed_reading::ipxr_keyed_receiver;
pub use crate::keyed_reading::ipxr_keyed_receivers;
pub use crate::keyed_reading::ipxr_keyed_waiter;
pub use crate::keyed_reading::ipxr_keyed_waiters;
pub use crate::keyed_values::KeyedMember;
pub use crate::keyed_values::KeyedSender;
pub use crate::keyed_values::KeyedSetting;
pub use crate::machine::Machine;
pub use crate::making::ipxr_free;
pub use crate::making::ipxr_make;
pub use crate::making::ipxr_version;
pub use crate::plan_values::PlanFate;
pub use crate::plan_values::PlanLink;
pub use crate::plan_values::PlanOrigin;
pub use crate::planning::ipxr_plan;
pub use crate::reading::ipxr_is_running;
pub use crate::reading::ipxr_is_up;
pub use crate::reading::ipxr_route;
pub use crate::reading::ipxr_routes;
pub use crate::reading::ipxr_service;
pub use crate::reading::ipxr_services;
pub use crate::rule_values::RuleValues;
pub use crate::segment_events::ipxr_segment_change;
pub use crate::segment_events::ipxr_segment_come;
pub use crate::segment_events::ipxr_segment_hear;
pub use crate::segment_events::ipxr_segment_leave;
pub use crate::segment_events::ipxr_segment_second;
pub use crate::segment_events::ipxr_segment_send;
pub use crate::segment_machine::SegmentMachine;
pub use crate::segment_making::ipxr_segment_free;
pub use crate::segment_making::ipxr_segment_make;
pub use crate::segment_reading::ipxr_segment_link;
pub use crate::segment_reading::ipxr_segment_next_node;
pub use crate::segment_reading::ipxr_segment_receiver;
pub use crate::segment_reading::ipxr_segment_receivers;
pub use crate::segment_reading::ipxr_segment_station;
pub use crate::segment_reading::ipxr_segment_stations;
pub use crate::segment_values::LinkValues;
pub use crate::segment_values::SegmentSetting;
pub use crate::segment_values::StationRecord;
pub use crate::sending::ipxr_clear;
pub use crate::sending::ipxr_get;
pub use crate::sending::ipxr_sent;
pub use crate::settings_values::HostValues;
pub use crate::settings_values::LineSaid;
pub use crate::settings_values::LinkSaid;
pub use crate::settings_values::NetworkSaid;
pub use crate::tunnel_events::ipxr_tunnel_hear;
pub use crate::tunnel_events::ipxr_tunnel_second;
pub use crate::tunnel_events::ipxr_tunnel_send;
pub use crate::tunnel_machine::TunnelMachine;
pub use crate::tunnel_making::ipxr_tunnel_free;
pub use crate::tunnel_making::ipxr_tunnel_make;
pub use crate::tunnel_reading::ipxr_tunnel_carried;
pub use crate::tunnel_reading::ipxr_tunnel_client;
pub use crate::tunnel_reading::ipxr_tunnel_clients;
pub use crate::tunnel_reading::ipxr_tunnel_is_heard;
pub use crate::tunnel_reading::ipxr_tunnel_leaver;
pub use crate::tunnel_reading::ipxr_tunnel_leavers;
pub use crate::tunnel_reading::ipxr_tunnel_own;
pub use crate::tunnel_reading::ipxr_tunnel_owns;
pub use crate::tunnel_reading::ipxr_tunnel_receiver;
pub use crate::tunnel_reading::ipxr_tunnel_receivers;
pub use crate::tunnel_values::ClientRecord;
pub use crate::tunnel_values::OwnRecord;
pub use crate::tunnel_values::SenderValues;
pub use crate::tunnel_values::TunnelSetting;
pub use crate::values::AddressValues;
pub use crate::values::PacketSent;
pub use crate::values::PortValues;
pub use crate::values::RouteEntry;
pub use crate::values::RouteRecord;
pub use crate::values::ServiceEntry;
pub use crate::values::ServiceRecord;
pub use crate::words::ipxr_word;
pub use crate::writing::ipxr_write_packet;
pub use crate::writing::ipxr_write_query;
pub use crate::writing::ipxr_write_rip;
pub use crate::writing::ipxr_write_sap;
