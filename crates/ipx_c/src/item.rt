//! An item of a list, as C asks for it.
ghost use Rattle.std.specs.Prelude.{◌≡◌, slice_get};

/// The item of that number, counted from 0.
pub(crate) fn item_at<T: Copy>(items: &[T], index: usize) -> Option<T>
    ensures { result ≡ slice_get items.now index }
{
    items.get(index).copied()
}
