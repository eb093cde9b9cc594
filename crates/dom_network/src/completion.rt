//! The values that definitions give.
ghost use Rattle.std.specs.Prelude.{◌≡◌, ◌<◌, length};
ghost use Rattle.dom_network.specs.Completion.{AreInHulls, IsCompletion};
ghost use Rattle.dom_network.specs.Filling.{IsReadInside, own_definition, with_given, written};
ghost use Rattle.dom_network.specs.Free.{IsTuple};
ghost use Rattle.kind_law.specs.Laws.{AllBelow};

use crate::network::Network;
use dom_core::{Assignment, VarId};
use kind_law::Define;

impl Network {
    /// Writes the values of the free variables, and of each defined one what its definition gives.
    pub fn complete(&self, values: &[i64], out: &mut Assignment)
        requires tuple { IsTuple self.now.domains values.now }
        requires whole { length out.old ≡ length self.now.definers }
        ensures completed { IsCompletion self.now.constraints self.now.definers values.now out.new }
        ensures inside { AreInHulls self.now.hulls out.new }
    {
        write_free(self.free.as_slice(), values, out);
        for node in self.order.iter() {
            self.define(*node, out);
        }
    }

    /// Gives the variable with this number what its definition gives, where it has one.
    fn define(&self, node: usize, out: &mut Assignment)
        requires node { node < length self.now.definers }
        requires whole { length out.old ≡ length self.now.definers }
        requires read { IsReadInside self.now.hulls (own_definition self.now node) out.old }
        ensures { out.new ≡ with_given (own_definition self.now node) node out.old }
    {
        if let Some(place) = self.definers[node] {
            let value = self.constraints[place].value(out);
            out.set(VarId(node as u32), value);
        }
    }
}

/// Gives the variables these values.
fn write_free(free: &[VarId], values: &[i64], out: &mut Assignment)
    requires size { length values.now ≡ length free.now }
    requires below { AllBelow (length out.old) free.now }
    ensures { out.new ≡ written free.now values.now out.old }
{
    for (place, var) in free.iter().enumerate() {
        out.set(*var, values[place]);
    }
}
