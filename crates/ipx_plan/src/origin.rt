//! What a link of the new configuration is made from.
ghost use Rattle.std.specs.Prelude.{◌≡◌};
ghost use Rattle.ipx_plan.specs.declared.origin.Cable.TheVariants.{Opened};

/// The cable of a link of the new configuration.
///
/// See the example of [`Plan`](crate::Plan).
#[derive(Clone, Copy, Debug, PartialEq, Eq)]
pub enum Cable {
    /// The one of the old link of that number, which stays open.
    Kept(usize),
    /// One that is opened for the new link of that number: for itself, or for an earlier one with which it shares it.
    Opened(usize),
}

impl Default for Cable {
    fn default() -> Cable
        ensures { result ≡ Opened 0 }
    {
        Cable::Opened(0)
    }
}

/// The tunnel of a link of the new configuration.
///
/// See the example of [`Plan`](crate::Plan).
#[derive(Clone, Copy, Debug, Default, PartialEq, Eq)]
pub enum Tunnel {
    /// It has none.
    #[default]
    Absent,
    /// It is the one of the old link that it continues, as it stands.
    Stays,
    /// It is made anew, and the clients of the old link that it continues are let in again, as far as they may.
    Again,
    /// It is made anew, without clients.
    New,
}

/// What a link of the new configuration is made from.
///
/// See the example of [`Plan`](crate::Plan).
#[derive(Clone, Copy, Debug, Default, PartialEq, Eq)]
pub struct Origin {
    /// The number of the old link that it continues; `None` if it is added.
    pub was: Option<usize>,
    /// Whether it is carried as that one was. If not, it begins anew there.
    pub is_as_before: bool,
    /// Its cable.
    pub cable: Cable,
    /// Its tunnel.
    pub tunnel: Tunnel,
    /// Whether the rules for its clients are others than that one's.
    pub has_other_clients: bool,
    /// Whether it extends broadcasts to other sockets than that one.
    pub has_other_sockets: bool,
}
