//! A node that may be that of two machines.
ghost use Rattle.std.specs.Prelude.{◌≡◌};
ghost use Rattle.ipx_cable.specs.Twins.{known_of, moves_to, begins, moved_to, is_due, told_of};

/// In so many seconds no machine moves that is plugged in elsewhere.
const MANY: u8 = 5;

/// Of so many seconds, in which moves are counted.
const COUNTED: u64 = 60;

/// Seconds from one time that somebody is told to the next.
const BETWEEN: u64 = 60;

/// A node that is watched: on which link of its network it was heard last, and how often that was another one than before. All bytes 0, it is
/// the node of zeros, which no machine has.
///
/// See the example of [`Twins`](crate::Twins).
#[repr(C)]
#[derive(Clone, Copy, Debug, Default, PartialEq, Eq)]
pub struct Twin {
    /// The node.
    pub node: [u8; 6],
    /// The link on which it was heard last.
    pub link: u8,
    /// In how many seconds it was heard on another link than before,
    pub moves: u8,
    /// from this second on,
    pub began: u64,
    /// and the last of them.
    pub moved: u64,
    /// Whether somebody has been told of it.
    pub is_told: bool,
}

impl Twin {
    /// What is known of a node before it is heard on a link.
    pub(crate) fn known_of(&self, node: [u8; 6], link: u8) -> Twin
        ensures { result ≡ known_of node link self.now }
    {
        if self.node == node {
            return *self;
        }
        Twin {
            node,
            link,
            moves: 0,
            began: 0,
            moved: 0,
            is_told: false,
        }
    }

    /// Whether it is heard on another link than before, for the first time in this second.
    pub(crate) fn moves_to(&self, link: u8, second: u64) -> bool
        ensures { result ≡ moves_to link second self.now }
    {
        self.link != link && self.moved != second
    }

    /// Whether its moves are counted anew.
    fn begins(&self, second: u64) -> bool
        ensures { result ≡ begins second self.now }
    {
        second.saturating_sub(self.began) > COUNTED
    }

    /// The same after a move.
    pub(crate) fn moved_to(&self, link: u8, second: u64) -> Twin
        ensures { result ≡ moved_to link second self.now }
    {
        let begins = self.begins(second);
        let moves = if begins { 0 } else { self.moves };
        Twin {
            node: self.node,
            link,
            moves: moves.saturating_add(1),
            began: if begins { second } else { self.began },
            moved: second,
            is_told: self.is_told,
        }
    }

    /// Whether it moved often enough to be told, and nobody has been told of it, nor of another lately.
    pub(crate) fn is_due(&self, second: u64, told: u64) -> bool
        ensures { result ≡ is_due second told self.now }
    {
        let told_lately = told != 0 && second.saturating_sub(told) < BETWEEN;
        self.moves >= MANY && !self.is_told && !told_lately
    }

    /// The same once somebody has been told of it.
    pub(crate) fn told_of(&self) -> Twin
        ensures { result ≡ told_of self.now }
    {
        Twin {
            is_told: true,
            ..*self
        }
    }
}
