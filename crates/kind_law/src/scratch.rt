//! Room for kinds to work in, kept by their caller from visit to visit.

use std::alloc::Global;

/// Lists that a visit may use and grow, and whose contents mean nothing after it.
#[derive(Debug, Drop)]
pub struct Scratch {
    pub places: Vec<usize>,
    pub bounds: Vec<i64>,
}

impl Scratch {
    /// Empty lists.
    pub fn new(alloc: Global) -> Scratch {
        Scratch {
            places: Vec::new(alloc),
            bounds: Vec::new(alloc),
        }
    }
}
