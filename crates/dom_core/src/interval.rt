//! Intervals of integers.
ghost use Rattle.std.specs.Prelude.{◌≡◌, ◌≤ℤ◌, FitsSigned};
ghost use Rattle.std.specs.Int.{w128};
ghost use Rattle.dom_core.specs.Ends.{IsOrdered, lies_in, sum_ends, scaled_ends, hull_ends, ProductsFit, IsProductHull, IsMeet, IsSingle};

use std::marker::Model;

/// The integers from `lo` to `hi`, at least one.
#[derive(Clone, Copy, Debug, PartialEq, Eq)]
pub struct Interval {
    pub lo: i128,
    pub hi: i128,
}

impl Model for Interval {
    ghost use Rattle.dom_core.specs.Ends.{Ends, IsOrdered};

    ghost Value = { Ends };

    ghost view = { λ i. record { lo = i.lo; hi = i.hi } };

    ghost invariant = { λ i. IsOrdered (record { lo = i.lo; hi = i.hi }) };

    ghost inverse = { λ e. record { lo = e.lo; hi = e.hi } };
}

impl Interval {
    pub fn new(lo: i128, hi: i128) -> Interval
        requires { lo ≤ℤ hi }
        ensures { result ≡ record { lo = lo; hi = hi } }
    {
        Interval { lo, hi }
    }

    pub fn lo(self) -> i128
        ensures lo { result ≡ self.lo }
        ensures ordered { IsOrdered self }
    {
        self.lo
    }

    pub fn hi(self) -> i128
        ensures hi { result ≡ self.hi }
        ensures ordered { IsOrdered self }
    {
        self.hi
    }

    /// The sums of an integer of each.
    pub fn add(self, other: Interval) -> Interval
        requires low { FitsSigned w128 (sum_ends self other).lo }
        requires high { FitsSigned w128 (sum_ends self other).hi }
        ensures { result ≡ sum_ends self other }
    {
        Interval {
            lo: self.lo + other.lo,
            hi: self.hi + other.hi,
        }
    }

    /// The least interval over the multiples by the factor.
    pub fn scale(self, factor: i128) -> Interval
        requires low { FitsSigned w128 (scaled_ends factor self).lo }
        requires high { FitsSigned w128 (scaled_ends factor self).hi }
        ensures { result ≡ scaled_ends factor self }
    {
        if factor < 0 {
            Interval {
                lo: factor * self.hi,
                hi: factor * self.lo,
            }
        } else {
            Interval {
                lo: factor * self.lo,
                hi: factor * self.hi,
            }
        }
    }

    /// The least interval over the products of an integer of each.
    pub fn mul(self, other: Interval) -> Interval
        requires { ProductsFit self other }
        ensures { IsProductHull self other result }
    {
        prove!(other.lo <= other.hi);
        let at_low = other.scale(self.lo);
        let at_high = other.scale(self.hi);
        at_low.hull(at_high)
    }

    /// The least interval over both.
    pub fn hull(self, other: Interval) -> Interval
        ensures { result ≡ hull_ends self other }
    {
        Interval {
            lo: self.lo.min(other.lo),
            hi: self.hi.max(other.hi),
        }
    }

    /// The integers in both, where there are any.
    pub fn meet(self, other: Interval) -> Option<Interval>
        ensures { IsMeet self other result }
    {
        let lo = self.lo.max(other.lo);
        let hi = self.hi.min(other.hi);
        if lo <= hi {
            Some(Interval { lo, hi })
        } else {
            None
        }
    }

    pub fn has(self, value: i128) -> bool
        ensures { result ≡ lies_in value self }
    {
        self.lo <= value && value <= self.hi
    }

    /// The one integer, where there is no other.
    pub fn single(self) -> Option<i128>
        ensures { IsSingle self result }
    {
        if self.lo == self.hi {
            Some(self.lo)
        } else {
            None
        }
    }
}
