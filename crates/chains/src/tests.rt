//! Short chains.
use crate::{Link, ends_of};

fn shared<T: Send + Sync>(_: &T) {}

#[test]
fn chains_end_where_they_end(rt: HostRuntime) {
    let links = [
        Link::To(2),
        Link::End,
        Link::To(3),
        Link::To(1),
        Link::Nothing,
        Link::To(4),
        Link::To(99),
    ];
    let found = ends_of(rt.alloc(), &links).expect(&rt, "ends");
    shared(&found);
    for place in 0..4 {
        assert_eq!(rt; found.at(place), Some(1));
    }
    for place in 4..8 {
        assert_eq!(rt; found.at(place), None);
    }
}

#[test]
fn circles_have_no_end(rt: HostRuntime) {
    let links = [
        Link::To(1),
        Link::To(2),
        Link::To(1),
        Link::To(3),
        Link::To(5),
        Link::End,
    ];
    let found = ends_of(rt.alloc(), &links).expect(&rt, "ends");
    for place in 0..4 {
        assert_eq!(rt; found.at(place), None);
    }
    assert_eq!(rt; found.at(4), Some(5));
}

#[test]
fn long_chains_are_followed_once(rt: HostRuntime) {
    let mut links = Vec::new(rt.alloc());
    for next in 1..100_000 {
        links.push(Link::To(next)).expect(&rt, "memory");
    }
    links.push(Link::End).expect(&rt, "memory");
    let found = ends_of(rt.alloc(), &links).expect(&rt, "ends");
    assert_eq!(rt; found.at(0), Some(99_999));
    assert_eq!(rt; found.at(99_998), Some(99_999));
}

#[test]
fn no_places_have_no_end(rt: HostRuntime) {
    let found = ends_of(rt.alloc(), &[]).expect(&rt, "ends");
    assert_eq!(rt; found.at(0), None);
}
