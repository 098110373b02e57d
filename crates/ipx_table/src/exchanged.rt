//! What an offer changed: the offers of its key, before and after.
ghost use Rattle.std.specs.Prelude.{◌≡◌};
ghost use Rattle.ipx_table.specs.Taken.{offer_left};

use crate::offer::Offer;
use crate::taken::Taken;

/// What a table did with an offer, and the offer of its key before and after.
///
/// With `TimeServer`, the type that the documentation of [`Offer`] shows:
///
/// ```
/// let Exchanged { taken, before, .. } = table.exchange(nearer);
/// match (taken, before) {
///     (Taken::Replaced, Some(before)) => println!(rt; "{taken}: node {}", before.node)?,
///     _ => println!(rt; "{taken}")?,
/// }
/// // prints replaced: node 000000000001
/// ```
#[derive(Clone, Copy, Debug, PartialEq, Eq)]
pub struct Exchanged<O> {
    /// What became of the offer.
    pub taken: Taken,
    /// The offer that its key had before; `None` where there was none.
    pub before: Option<O>,
    /// The offer that its key has now; `None` where there is none.
    pub after: Option<O>,
}

/// What became of an offer, with the offer of its key before and after.
pub(crate) fn exchange_of<O: Offer>(taken: Taken, before: Option<O>, offer: &O) -> Exchanged<O>
    ensures taken { result.taken ≡ taken }
    ensures before { result.before ≡ before }
    ensures after { result.after ≡ offer_left taken before offer.now }
{
    let after = match taken {
        Taken::Withdrawn => None,
        Taken::Nothing | Taken::Worse | Taken::Full => before,
        Taken::Refreshed { .. } | Taken::Replaced | Taken::Admitted => Some(*offer),
    };
    Exchanged {
        taken,
        before,
        after,
    }
}
