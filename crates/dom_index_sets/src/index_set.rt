//! Index sets of arrays.
ghost use Rattle.std.specs.Prelude.{◌≡◌, ◌↔◌, ◌<◌, ◌*◌, ◌≤◌, length, IsTrue};
ghost use Rattle.std.specs.Bool.{MatchBool};
ghost use Rattle.std.specs.List.{All, Any};
ghost use Rattle.dom_index_sets.specs.Sizes.{size_of, product_of, IsEmpty, IsFilled};

use std::marker::Model;

/// The integers from `lo` to `hi`; none where `lo` is above.
#[derive(Clone, Copy, Debug, PartialEq, Eq, Drop)]
pub struct IndexSet {
    pub lo: i64,
    pub hi: i64,
}

/// The index sets of an array, one for each dimension.
#[derive(Debug, Drop)]
pub struct IndexSets {
    sets: Vec<IndexSet>,
}

impl Model for IndexSets {
    ghost use Rattle.std.specs.Prelude.{List};
    ghost use Rattle.dom_index_sets.specs.declared.index_set.IndexSet.{IndexSet};

    ghost Value = { List IndexSet };

    ghost view = { λ s. s.sets.items };
}

impl IndexSet {
    ghost use Rattle.dom_index_sets.specs.Sizes.{size_of};

    /// How many integers it has.
    pub fn size(self) -> u128
        ensures size { result ≡ size_of self }
        ensures small { result ≤ 18446744073709551616 }
    {
        if self.hi < self.lo {
            0
        } else {
            (i128::from(self.hi) - i128::from(self.lo) + 1) as u128
        }
    }
}

impl IndexSets {
    ghost use Rattle.dom_index_sets.specs.Sizes.{product_of};

    /// The sets of a vector, which is moved.
    pub fn from_vec(sets: Vec<IndexSet>) -> IndexSets
        ensures { result ≡ sets.items }
    {
        IndexSets { sets }
    }

    pub fn as_slice(&self) -> &[IndexSet]
        ensures { result.now ≡ self.now }
    {
        self.sets.as_slice()
    }

    /// Whether an array of this length has these index sets: whether it is all their sizes multiplied.
    pub fn count_is(&self, length: u64) -> bool
        ensures { IsTrue result ↔ product_of self.now ≡ length }
    {
        if has_empty(&self.sets) {
            length == 0
        } else {
            product_is(&self.sets, length)
        }
    }
}

fn has_empty(sets: &[IndexSet]) -> bool
    ensures { MatchBool result (Any IsEmpty sets.now) (All IsFilled sets.now) }
{
    sets.iter().any(|set| set.size() == 0)
}

// No product falls, so it is enough to go on to the first that is too great.
fn product_is(sets: &[IndexSet], length: u64) -> bool
    requires { All IsFilled sets.now }
    ensures { IsTrue result ↔ product_of sets.now ≡ length }
{
    let mut product: u128 = 1;
    for set in sets {
        product *= set.size();
        if product > u128::from(length) {
            return false;
        }
    }
    product == u128::from(length)
}
