//! What a configuration says of a network.

/// What a network's link is, as far as limits differ.
///
/// See the example of [`Limits`](crate::Limits).
#[derive(Clone, Copy, Debug, Default, PartialEq, Eq)]
pub enum Link {
    /// A tunnel, whose clients are computers with one program each.
    #[default]
    Tunnel,
    /// A link with frames, on which there may be many computers and routers.
    Frames,
}

/// What a configuration says of a network's limits.
///
/// See the example of [`Limits`](crate::Limits).
#[derive(Clone, Copy, Debug, Default, PartialEq, Eq)]
pub struct NetworkSetting {
    /// What it is.
    pub link: Link,
    /// Packets a second that a client receives, or a link with frames of clients; 0 for any number. At most 1,000,000 count.
    pub rate: u32,
    /// Packets a second of somebody who says little. A client receives two such shares more.
    pub share: u32,
    /// How many routes the router's table takes of it.
    pub routes: u16,
    /// How many services.
    pub services: u16,
}
