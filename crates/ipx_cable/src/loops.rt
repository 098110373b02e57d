//! Two links of a network that are one cable.
ghost use Rattle.std.specs.Prelude.{◌≡◌, ◌-◌, ◌<◌};
ghost use Rattle.ipx_cable.specs.Loops.{is_shut, opens, is_late, probed, left_here, left_there};

/// Seconds for which a probe may be under way.
const LATE: u64 = 3;

/// Seconds for which a link that is shut is so without a probe: in the next one it opens.
const QUIET: u8 = 5;

/// Whether a link is shut, since it is one cable with an earlier one. All bytes 0, it is open.
///
/// A gateway sends a probe on each of its links each second. If one comes back on another link, whoever is on the one is on the other too,
/// and a packet for all would go round for ever: so the later of both is shut, and opens once no probe has come for five seconds.
///
/// ```
/// let (mut first, mut second) = (Loop::default(), Loop::default());
/// let probed = probe(1, 0, 60, 60, &mut second, &mut first);
/// let (before, after) = (first.is_shut(), second.is_shut());
/// println!(rt; "{probed:?}: the first is shut: {before}, the second: {after}")?;
/// for _ in 0..5 {
///     second.second();
/// }
/// println!(rt; "after five seconds it is shut: {}", second.is_shut())?;
/// println!(rt; "then it opens: {}", second.second())?;
/// // prints Here: the first is shut: false, the second: true
/// // prints after five seconds it is shut: true
/// // prints then it opens: true
/// ```
#[repr(C)]
#[derive(Clone, Copy, Debug, Default, PartialEq, Eq)]
pub struct Loop {
    /// For how many seconds it is still shut, unless a probe comes. At 0 it is open.
    pub left: u8,
}

/// What a probe does.
///
/// See the example of [`Loop`].
#[derive(Clone, Copy, Debug, PartialEq, Eq)]
pub enum Probed {
    /// Nothing: it is too old.
    Late,
    /// No other link is shut than before.
    Nothing,
    /// The link where it came is shut now, which was open.
    Here,
    /// The link that sent it is shut now, which was open.
    There,
}

impl Loop {
    /// Whether the link is shut.
    pub fn is_shut(&self) -> bool
        ensures { result ≡ is_shut self.now.left }
    {
        self.left > 0
    }

    /// A second passes. Returns whether the link opens by that.
    pub fn second(&mut self) -> bool
        ensures opens { result ≡ opens self.old.left }
        ensures left { self.new.left ≡ self.old.left - 1 }
    {
        let opens = self.left == 1;
        self.left = self.left.saturating_sub(1);
        opens
    }
}

/// A probe comes on link `here` that link `there` sent in a second; it is another `now`. The numbers are those of the network's links, in
/// their order. Where both are the same, nothing happens.
pub fn probe(
    here: u8,
    there: u8,
    sent: u64,
    now: u64,
    at_here: &mut Loop,
    at_there: &mut Loop,
) -> Probed
    ensures probed { result ≡ probed here there sent now at_here.old.left at_there.old.left }
    ensures here { at_here.new.left ≡ left_here here there sent now at_here.old.left }
    ensures there { at_there.new.left ≡ left_there here there sent now at_there.old.left }
{
    if is_late(sent, now) {
        return Probed::Late;
    }
    if there < here {
        let was_shut = at_here.is_shut();
        at_here.left = QUIET + 1;
        return if was_shut {
            Probed::Nothing
        } else {
            Probed::Here
        };
    }
    if here < there && !at_there.is_shut() {
        at_there.left = QUIET + 1;
        return Probed::There;
    }
    Probed::Nothing
}

/// Whether a probe is too old.
fn is_late(sent: u64, now: u64) -> bool
    ensures { result ≡ is_late sent now }
{
    now < sent || now - sent > LATE
}
