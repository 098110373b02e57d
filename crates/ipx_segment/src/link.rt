//! Links.

/// A link of a segment: down, or up, with the most stations of it that are known at one time.
///
/// See the example of [`Segment`](crate::Segment).
#[derive(Clone, Copy, Debug, Default, PartialEq, Eq)]
pub enum Link {
    /// Nothing goes there, and nothing that comes from there counts.
    #[default]
    Down,
    /// A cable, such as Ethernet: whoever is heard there is a station of it.
    Cable(u16),
    /// A link that proves who is there, such as a tunnel: its stations come and leave, and no word from another link moves them.
    Sure(u16),
}
