//! Why a call did nothing.
use ipx_router::{PortFault, PortsFault};

/// Why a call did nothing.
#[derive(Clone, Copy)]
pub enum Fault {
    /// The handle has no router.
    NoRouter,
    /// There is no port of that number.
    NoPort,
    /// There is no packet of that number.
    NoPacket,
    /// There is no record of that number.
    NoRecord,
    /// The packet is longer than the buffer.
    ShortBuffer,
    /// Memory was refused.
    OutOfMemory,
    /// The handle has no tunnel.
    NoTunnel,
    /// A tunnel would have more clients than one can have.
    ManyClients,
    /// The handle has no segment.
    NoSegment,
    /// There is no link of that number.
    NoLink,
    /// A link that is of no kind.
    BadLink,
    /// A segment would have more links than one can have.
    ManyLinks,
    /// A segment would have more stations than one can have.
    ManyStations,
    /// Values that make no port.
    Port(PortFault),
    /// Ports that make no router.
    Ports(PortsFault),
    /// An operation that is neither a request nor a response.
    Operation,
    /// A packet without a route or a service.
    NoEntries,
    /// More routes or services than a packet may have.
    ManyEntries,
    /// A name that is empty, or has no zero behind it.
    Name,
    /// More data than a packet may have.
    LongPacket,
    /// A way of packets that is none.
    Way,
    /// More rules than a filter may have.
    ManyRules,
    /// Values that are no rule.
    Rule,
}
