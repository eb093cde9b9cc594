//! One walk along a chain.
ghost use Rattle.std.specs.Prelude.{◌≡◌, ◌<◌, length};
ghost use Rattle.chains.specs.Chains.{IsEnd};
ghost use Rattle.chains.specs.Walks.{AreRight, AreRightBut, walk_of, IsFollowed, IsWalked, IsSettled, StaysWithin};

use crate::link::{Link, link_at, next_of};
use crate::marks::{Mark, Marks, end_of, mark_of};

// The end of a chain, and how many places on it were unseen.
#[derive(Clone, Copy, Drop)]
pub(crate) struct Walk {
    pub(crate) end: Option<usize>,
    pub(crate) count: usize,
}

const fn walk_of(end: Option<usize>, count: usize) -> Walk
    ensures { result ≡ walk_of end count }
{
    Walk { end, count }
}

// Follows the chain from this place to its end, or to a place that was seen. Those on the way are marked as endless.
fn trace(links: &[Link], marks: &mut Marks, start: usize) -> Walk
    requires right { AreRight links.now marks.old }
    ensures { IsWalked links.now start marks.old marks.new result }
{
    let size = marks.len();
    let mut place = start;
    let mut count = 0;
    'walk: while count < size && marks.is_unseen(place) {
        marks.put(place, Mark::Endless);
        count += 1;
        match link_at(links, place) {
            Link::End => return walk_of(Some(place), count),
            Link::Nothing => return walk_of(None, count),
            Link::To(next) => place = next,
        }
    }
    walk_of(end_of(marks.at(place)), count)
}

// Marks the places of the walk by its end.
fn settle(links: &[Link], marks: &mut Marks, start: usize, walk: Walk)
    requires end { IsEnd links.now start walk.end }
    requires within { StaysWithin links.now start walk.count (length marks.old) }
    requires right { AreRightBut links.now start walk.count marks.old }
    ensures { IsSettled links.now marks.old marks.new }
{
    let mark = mark_of(walk.end);
    let mut place = start;
    for _ in 0..walk.count {
        marks.put(place, mark);
        place = next_of(link_at(links, place), place);
    }
}

// Marks all places of the chain from this one.
pub(crate) fn follow(links: &[Link], marks: &mut Marks, start: usize)
    requires right { AreRight links.now marks.old }
    ensures { IsFollowed links.now start marks.old marks.new }
{
    let found = trace(links, marks, start);
    settle(links, marks, start, found);
}
