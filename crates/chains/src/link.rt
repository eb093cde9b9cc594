//! Where a place leads.
ghost use Rattle.std.specs.Prelude.{◌≡◌};
ghost use Rattle.chains.specs.Chains.{link_at};
ghost use Rattle.chains.specs.Walks.{next_of};

/// Where a place leads.
#[derive(Clone, Copy, Debug, PartialEq, Eq, Drop)]
pub enum Link {
    /// A chain that comes here ends here.
    End,
    /// To another place.
    To(usize),
    /// A chain that comes here has no end.
    Nothing,
}

// Where the place leads; one that isn't there leads nowhere.
pub(crate) fn link_at(links: &[Link], place: usize) -> Link
    ensures { result ≡ link_at links.now place }
{
    match links.get(place) {
        None => Link::Nothing,
        Some(link) => *link,
    }
}

// The place that a link leads to, or else this one.
pub(crate) fn next_of(link: Link, place: usize) -> usize
    ensures { result ≡ next_of link place }
{
    match link {
        Link::End => place,
        Link::To(next) => next,
        Link::Nothing => place,
    }
}
