//! Two machines with one node, which is heard by turns on two links of a network.
ghost use Rattle.std.specs.Prelude.{◌≡◌};
ghost use Rattle.ipx_cable.specs.Twins.{none_watched, place_of, told_link, twins_after};

use crate::twin::Twin;

/// How many nodes are watched.
const WATCHED: usize = 64;

/// Which nodes move from one link of a network to another and back, as if two machines had one: each loses then what is sent where the other
/// spoke last. All bytes 0, no node was heard.
///
/// ```
/// let node = [0x52, 0x54, 0, 0x12, 0x34, 0x56];
/// let mut twins = Twins::zeros();
/// let mut told = None;
/// for second in 1..8_u8 {
///     if let Some(other) = twins.hear(node, second % 2, u64::from(second)) {
///         told = Some((second, other));
///     }
/// }
/// println!(rt; "told in this second, with the link before: {told:?}")?;
/// // prints told in this second, with the link before: Some((6, 1))
/// ```
#[repr(C)]
#[derive(Clone, Copy, Debug)]
pub struct Twins {
    /// The nodes that are watched, each at a place of its own; whoever comes there next takes it.
    pub list: [Twin; 64],
    /// The second in which somebody was told last, or 0.
    pub told: u64,
}

impl Twins {
    /// No node was heard.
    pub fn zeros() -> Twins
        ensures { result ≡ none_watched }
    {
        Twins {
            list: [Twin::default(); 64],
            told: 0,
        }
    }

    /// A node is heard on a link in a second. Returns the link on which it was before, if it must be told: it moved in five different seconds of
    /// a minute, and nobody was told of it before, nor of another node for a minute.
    pub fn hear(&mut self, node: [u8; 6], link: u8, second: u64) -> Option<u8>
        ensures told { result ≡ told_link node link second self.old }
        ensures twins { self.new ≡ twins_after node link second self.old }
    {
        let place = place_of(node);
        let before = self.list[place].known_of(node, link);
        if !before.moves_to(link, second) {
            self.list[place] = before;
            return None;
        }
        let moved = before.moved_to(link, second);
        if !moved.is_due(second, self.told) {
            self.list[place] = moved;
            return None;
        }
        self.list[place] = moved.told_of();
        self.told = second;
        Some(before.link)
    }
}

/// Where a node is watched.
fn place_of(node: [u8; 6]) -> usize
    ensures { result ≡ place_of node }
{
    (usize::from(node[4]) + usize::from(node[5])) % WATCHED
}
