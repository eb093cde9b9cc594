//! Models.
ghost use Rattle.std.specs.Prelude.{◌≡◌, ◌<◌, ◌≤◌, ◌↔◌, List, Some, None, pos, neg_ℤ, length, map, replicate, slice_get, IsTrue, IfOk};
ghost use Rattle.std.specs.Cmp.Lexicographic.{slice_cmp};
ghost use Rattle.std.specs.Ordering.{int_cmp};
ghost use Rattle.dom_core.specs.Assignment.{value_at};
ghost use Rattle.dom_core.specs.Domain.{IsDomain};
ghost use Rattle.dom_definers.specs.Definers.{definer_at};
ghost use Rattle.dom_definers.specs.Hulls.{hull_at};
ghost use Rattle.dom_model.specs.Draft.{AreFitOutputs};
ghost use Rattle.dom_model.specs.Least.{IsBetter, IsFeasible, objective_of};
ghost use Rattle.dom_model.specs.Sound.{FeasibleIsCompleted};
ghost use Rattle.dom_network.specs.Completion.{AreInHulls, IsCompletion};
ghost use Rattle.dom_network.specs.Free.{IsTuple, free_of};
ghost use Rattle.dom_network.specs.NetworkLaws.{HasOneCompletion};
ghost use Rattle.dom_network.specs.Place.{HasDomain, IsPlace};
ghost use Rattle.dom_network.specs.Tables.{AreDependentsIn, AreReadersIn};
ghost use Rattle.kind_law.specs.Laws.{AllBelow};

use crate::goal::Goal;
use crate::output::Output;
use any_kind::AnyKind;
use dom_core::{Assignment, Domain, Interval, Name, NoMemory, VarId};
use dom_definers::{Form, Variable};
use dom_network::Network;
use std::alloc::Global;
use std::cmp::Ordering;

/// A model: variables, constraints, what is asked, and what is printed.
#[derive(Drop)]
pub struct Model {
    pub(crate) variables: Vec<Variable>,
    pub(crate) network: Network,
    pub(crate) goal: Goal,
    pub(crate) outputs: Vec<Output>,
}

impl std::marker::Model for Model {
    ghost use Rattle.dom_model.specs.Problem.{Problem};
    ghost use Rattle.dom_model.specs.Sound.{IsSound};

    ghost Value = { Problem };

    ghost view = { λ m. record { variables = m.variables.items; network = m.network; goal = m.goal; outputs = m.outputs.items } };

    ghost invariant = { λ m. IsSound (record { variables = m.variables.items; network = m.network; goal = m.goal; outputs = m.outputs.items }) };
}

impl Model {
    /// How many variables there are.
    pub fn vars(&self) -> usize
        ensures count { result ≡ length self.now.variables }
        ensures few { length self.now.variables ≤ 100000 }
        ensures whole { length self.now.network.definers ≡ length self.now.variables }
        ensures hulls { length self.now.network.hulls ≡ length self.now.variables }
    {
        let _network = self.network.vars();
        self.variables.len()
    }

    /// The name of the variable.
    pub fn name(&self, var: VarId) -> &Name
        requires { var.0 < length self.now.variables }
        ensures { slice_get (map (λ v. v.name) self.now.variables) var.0 ≡ Some result.now }
    {
        &self.variables[var.0 as usize].name
    }

    /// What the values of the variable stand for.
    pub fn form(&self, var: VarId) -> Form
        requires { var.0 < length self.now.variables }
        ensures { slice_get (map (λ v. v.form) self.now.variables) var.0 ≡ Some result }
    {
        self.variables[var.0 as usize].form
    }

    /// The variables that nothing defines, in order of declaration.
    pub fn free(&self) -> &[VarId]
        ensures free { result.now ≡ free_of self.now.network.definers }
        ensures few { length result.now ≤ 4096 }
        ensures domains { length self.now.network.domains ≡ length result.now }
    {
        self.network.free()
    }

    /// The variable's place among the free ones.
    pub fn place(&self, var: VarId) -> Option<usize>
        requires { var.0 < length self.now.variables }
        ensures { IsPlace self.now.network.definers var.0 result }
    {
        let _network = self.network.vars();
        self.network.place(var)
    }

    /// The values of the free variable at this place.
    pub fn domain_at(&self, place: usize) -> &Domain
        requires { place < length (free_of self.now.network.definers) }
        ensures domain { slice_get self.now.network.domains place ≡ Some result.now }
        ensures sound { IsDomain result.now }
    {
        let domain = self.network.domain(place);
        let _size = domain.size();
        domain
    }

    /// The values of the free variable.
    pub fn domain(&self, var: VarId) -> &Domain
        requires below { var.0 < length self.now.variables }
        requires free { definer_at self.now.network.definers var.0 ≡ None }
        ensures domain { HasDomain self.now.network var.0 result.now }
        ensures sound { IsDomain result.now }
    {
        match self.place(var) {
            Some(place) => self.domain_at(place),
            None => unreachable!(),
        }
    }

    /// The place of the constraint that defines the variable, where there is one.
    pub fn definer(&self, var: VarId) -> Option<usize>
        requires { var.0 < length self.now.variables }
        ensures { result ≡ definer_at self.now.network.definers var.0 }
    {
        let _network = self.network.vars();
        self.network.definer(var)
    }

    /// The places of the constraints that read the variable, in order.
    pub fn readers(&self, var: VarId) -> &[usize]
        requires { var.0 < length self.now.variables }
        ensures { AreReadersIn self.now.network.constraints var.0 result.now }
    {
        let _network = self.network.vars();
        self.network.readers(var)
    }

    /// The numbers of the variables that depend on the free one, each behind those that its definition reads.
    pub fn dependents(&self, var: VarId) -> &[usize]
        requires below { var.0 < length self.now.variables }
        requires free { definer_at self.now.network.definers var.0 ≡ None }
        ensures { AreDependentsIn self.now.network var.0 result.now }
    {
        let _network = self.network.vars();
        self.network.dependents(var)
    }

    /// The least to the greatest value that the variable can have.
    pub fn hull(&self, var: VarId) -> Interval
        requires { var.0 < length self.now.variables }
        ensures { hull_at self.now.network.hulls var.0 ≡ Some result }
    {
        let _network = self.network.vars();
        self.network.hull(var)
    }

    pub fn constraints(&self) -> &[AnyKind]
        ensures { result.now ≡ self.now.network.constraints }
    {
        self.network.constraints()
    }

    /// What is printed of an answer, in order.
    pub fn outputs(&self) -> &[Output]
        ensures outputs { result.now ≡ self.now.outputs }
        ensures fit { AreFitOutputs (length self.now.variables) result.now }
    {
        self.outputs.as_slice()
    }

    /// An assignment of the right length, with 0 everywhere.
    pub fn blank(&self, alloc: Global) -> Result<Assignment, NoMemory>
        ensures { IfOk result (λ a. a ≡ replicate (length self.now.variables) (pos 0)) }
    {
        Assignment::zeros(alloc, self.variables.len())
    }

    /// Writes these values of the free variables, and computes the others by their definitions.
    pub fn complete(&self, free: &[i64], out: &mut Assignment)
        requires values { IsTuple self.now.network.domains free.now }
        requires whole { length out.old ≡ length self.now.variables }
        ensures completion { IsCompletion self.now.network.constraints self.now.network.definers
            free.now out.new }
        ensures hulls { AreInHulls self.now.network.hulls out.new }
    {
        let _network = self.network.vars();
        self.network.complete(free, out)
    }

    /// Whether every value is allowed, and every constraint holds.
    pub fn feasible(&self, assignment: &Assignment) -> bool
        requires { AreInHulls self.now.network.hulls assignment.now }
        ensures { IsTrue result ↔ IsFeasible self.now assignment.now }
    {
        let _network = self.network.vars();
        self.network.admits(assignment)
    }

    /// What is to be small: the value that the goal names, its negative where it is to be large, or 0.
    pub fn objective(&self, assignment: &Assignment) -> i64
        requires { AreInHulls self.now.network.hulls assignment.now }
        ensures { result ≡ objective_of self.now.goal assignment.now }
    {
        let _network = self.network.vars();
        match self.goal {
            Goal::Satisfy => 0,
            Goal::Minimize(var) => assignment.value(var),
            Goal::Maximize(var) => self.negative(var, assignment),
        }
    }

    /// The negative of the variable's value.
    fn negative(&self, var: VarId, assignment: &Assignment) -> i64
        requires known { var.0 < length self.now.variables }
        requires inside { AreInHulls self.now.network.hulls assignment.now }
        ensures { result ≡ neg_ℤ (value_at assignment.now var) }
    {
        let _network = self.network.vars();
        let _hull = self.network.hull(var);
        -assignment.value(var)
    }

    /// Whether the first assignment is better than the second: its objective is smaller, or the same and its free values come first in
    /// lexicographic order.
    pub fn better(&self, first: &Assignment, second: &Assignment) -> bool
        requires first { AreInHulls self.now.network.hulls first.now }
        requires second { AreInHulls self.now.network.hulls second.now }
        ensures { IsTrue result ↔ IsBetter self.now first.now second.now }
    {
        let _network = self.network.vars();
        self.objective(first)
            .cmp(&self.objective(second))
            .then(free_order(self.network.free(), first, second))
            .is_lt()
    }

    /// A law, which a call makes known: the free values determine what completes them.
    pub fn one_completion(&self)
        ensures { HasOneCompletion self.now.network }
    {
        self.network.one_completion()
    }

    /// A law, which a call makes known: a feasible assignment is what completes its free values, and these lie in their domains.
    pub fn feasible_is_completed(&self)
        ensures { FeasibleIsCompleted self.now }
    {
        let _network = self.network.vars();
        self.network.admitted_is_completed()
    }
}

/// How the values of the variables compare, place by place.
fn free_order(free: &[VarId], first: &Assignment, second: &Assignment) -> Ordering
    requires first { AllBelow (length first.now) free.now }
    requires second { AllBelow (length second.now) free.now }
    ensures { result ≡ slice_cmp int_cmp
        (map (value_at first.now) free.now) (map (value_at second.now) free.now) }
{
    for var in free {
        let order = first.value(*var).cmp(&second.value(*var));
        if order.is_ne() {
            return order;
        }
    }
    Ordering::Equal
}
