//! What becomes of a packet.

/// What becomes of a packet, or why it is dropped.
///
/// See the example of [`Limits`](crate::Limits).
#[derive(Clone, Copy, Debug, PartialEq, Eq)]
pub enum Decision {
    /// It goes on.
    Passes,
    /// The client, or all clients together, ping too much.
    TooManyPings,
    /// The client, or its address, or the network, asks the router too much.
    TooManyQuestions,
    /// The address, or the network, tells the router too much.
    TooManyAdvertisements,
    /// The address hands the router too much.
    TooMuchForRouter,
    /// The client has no room for it.
    TooMuchForClient,
    /// The client's address has none.
    TooMuchForAddress,
    /// The link with frames has none.
    TooMuchForLink,
    /// The client, or its address, was answered too often.
    TooManyAnswers,
    /// The place without a client, or all such places together, were sent too much.
    TooMuchForStrangers,
}
