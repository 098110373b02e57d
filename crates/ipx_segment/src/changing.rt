//! What becomes of the links.
ghost use Rattle.std.specs.Prelude.{◌≡◌, ◌≤◌, replicate, set, length};
ghost use Rattle.ipx_segment.specs.declared.link.Link.TheVariants.{Down};

use crate::link::Link;
use arrayvec::ArrayVec;

/// So many links, none of them up.
pub(crate) fn all_down<const L: usize>(count: u8) -> ArrayVec<Link, L>
    requires { count ≤ L }
    ensures { result.items ≡ replicate count Down }
{
    let mut links = ArrayVec::new();
    for _ in 0..count {
        links.push(Link::Down);
    }
    links
}

/// A link goes up or down, if there is one of that number.
pub(crate) fn put_at(link: u8, to: Link, links: &mut [Link])
    ensures { links.new ≡ set links.old link to }
{
    let place = usize::from(link);
    if place < links.len() {
        links[place] = to;
    }
}
