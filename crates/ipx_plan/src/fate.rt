//! What becomes of a link of the old configuration.

/// What becomes of a link of the old configuration.
///
/// See the example of [`Plan`](crate::Plan).
#[derive(Clone, Copy, Debug, Default, PartialEq, Eq)]
pub struct Fate {
    /// The number of the new link that continues it; `None` if it is removed.
    pub becomes: Option<usize>,
    /// Whether its cable is closed; said of the first of the links that share it.
    pub is_closed: bool,
    /// Whether it is a tunnel that ends: its clients wouldn't find it again.
    pub ends_tunnel: bool,
}
