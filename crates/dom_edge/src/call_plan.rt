ghost use Rattle.std.specs.Prelude.{◌≡◌, ◌↔◌, ◌+◌, ◌-◌, ◌^◌, ◌≤◌, ◌∷◌, ◌++◌, [], min, IsTrue, Contains, OnOk, OnErr};
ghost use Rattle.dom_edge.specs.Causes.{CountRose};

use std::alloc::{AllocError, Global};

/// Which calls of an object are to fail, by their numbers from 1 on, and how many have.
#[derive(Drop)]
pub(crate) struct CallPlan {
    pub(crate) failing: Vec<u64>,
    pub(crate) calls: u64,
    pub(crate) faults: u64,
}

impl CallPlan {
    pub(crate) fn new(alloc: Global) -> Self
        ensures failing { result.failing.items ≡ [] }
        ensures calls { result.calls ≡ 0 }
        ensures faults { result.faults ≡ 0 }
    {
        CallPlan {
            failing: Vec::new(alloc),
            calls: 0,
            faults: 0,
        }
    }

    pub(crate) fn fail_at(&mut self, call: u64) -> Result<(), AllocError>
        ensures ok { OnOk result (self.new.failing.items ≡ self.old.failing.items ++ call ∷ []) }
        ensures err { OnErr result (self.new.failing.items ≡ self.old.failing.items) }
        ensures calls { self.new.calls ≡ self.old.calls }
        ensures faults { self.new.faults ≡ self.old.faults }
    {
        self.failing.push(call)?;
        Ok(())
    }

    /// Counts a call, and says whether it is to fail.
    pub(crate) fn next_fails(&mut self) -> bool
        ensures calls { self.new.calls ≡ min (self.old.calls + 1) (2 ^ 64 - 1) }
        ensures fails { IsTrue result ↔ Contains self.old.failing.items self.new.calls }
        ensures failing { self.new.failing.items ≡ self.old.failing.items }
        ensures faults { self.new.faults ≡ self.old.faults }
    {
        self.calls = self.calls.saturating_add(1);
        self.failing.contains(&self.calls)
    }

    pub(crate) fn count_fault(&mut self)
        ensures rose { CountRose self.old.faults self.new.faults }
        ensures kept { self.old.faults ≤ self.new.faults }
        ensures calls { self.new.calls ≡ self.old.calls }
        ensures failing { self.new.failing.items ≡ self.old.failing.items }
    {
        self.faults = self.faults.saturating_add(1);
    }
}
