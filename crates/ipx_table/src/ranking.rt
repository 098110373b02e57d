//! What decides between two offers of one key.
ghost use Rattle.std.specs.Prelude.{◌≡◌};
ghost use Rattle.std.specs.Ordering.{is_gt};
ghost use Rattle.ipx_table.specs.Reading.{one_source, rank_order};

use crate::offer::Offer;

/// Whether two offers came from one port and one node of it.
pub(crate) fn is_of_one_source<O: Offer>(a: &O, b: &O) -> bool
    ensures { result ≡ one_source (O.reading.source a.now) (O.reading.source b.now) }
{
    a.source() == b.source()
}

/// Whether the first offer is strictly worse than the second.
pub(crate) fn is_worse<O: Offer>(a: &O, b: &O) -> bool
    ensures { result ≡ is_gt (rank_order (O.reading.rank a.now) (O.reading.rank b.now)) }
{
    a.rank() > b.rank()
}
