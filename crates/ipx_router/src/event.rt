//! What happens to a router.

/// One thing that happens to a router.
///
/// ```
/// router.step(Event::Start, outbox)?;
/// if router.has_port(1) {
///     let outcome = router.step(Event::Packet { port: 1, bytes }, outbox)?;
///     println!(rt; "{outcome}")?;
/// }
/// router.step(Event::Second, outbox)?;
/// // prints learned
/// ```
#[derive(Clone, Copy, Debug, PartialEq, Eq)]
pub enum Event<'a> {
    /// It is started.
    Start,
    /// It is stopped, and forgets what it learned.
    Stop,
    /// A second has passed.
    Second,
    /// Bytes came in on a port.
    Packet {
        /// The number of an existing port, from 0.
        port: u8,
        /// What came in, any bytes at all.
        bytes: &'a [u8],
    },
    /// A port goes down: nothing leaves on it, what came by it is forgotten, and what comes on it is dropped.
    PortDown {
        /// The number of an existing port, from 0.
        port: u8,
    },
    /// A port that went down comes up again.
    PortUp {
        /// The number of an existing port, from 0.
        port: u8,
    },
}
