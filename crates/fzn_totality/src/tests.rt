//! The laws are there to be called.
use crate::{posted_has_kind, unbuilt_is_undrafted};

#[test]
fn the_laws_are_called(_rt: HostRuntime) {
    posted_has_kind();
    unbuilt_is_undrafted();
}
