//! Which assignments satisfy every constraint.
ghost use Rattle.std.specs.Prelude.{◌≡◌, ◌↔◌, IsTrue, length};
ghost use Rattle.any_kind.specs.Meets.{MeetsEach};
ghost use Rattle.dom_network.specs.Completion.{AreInHulls};
ghost use Rattle.dom_network.specs.Free.{IsTuple, free_values};

use crate::network::Network;
use dom_core::Assignment;
use kind_law::Kind;

impl Network {
    /// Whether the free values are from their domains and each constraint is satisfied.
    pub fn admits(&self, a: &Assignment) -> bool
        requires { AreInHulls self.now.hulls a.now }
        ensures { IsTrue result ↔ (IsTuple self.now.domains (free_values self.now.definers a.now)
            × MeetsEach self.now.constraints a.now) }
    {
        if !self.is_in_domains(a) {
            return false;
        }
        self.meets_each(a)
    }

    fn is_in_domains(&self, a: &Assignment) -> bool
        requires { AreInHulls self.now.hulls a.now }
        ensures { IsTrue result ↔ IsTuple self.now.domains (free_values self.now.definers a.now) }
    {
        for (place, var) in self.free.iter().enumerate() {
            if !self.domains[place].contains(a.value(*var)) {
                return false;
            }
        }
        true
    }

    fn meets_each(&self, a: &Assignment) -> bool
        requires { AreInHulls self.now.hulls a.now }
        ensures { IsTrue result ↔ MeetsEach self.now.constraints a.now }
    {
        for kind in self.constraints.iter() {
            if !kind.holds(a) {
                return false;
            }
        }
        true
    }
}
