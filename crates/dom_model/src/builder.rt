//! Models that are being put together.
ghost use Rattle.std.specs.Prelude.{◌≡◌, ◌<◌, List, [], ◌∷◌, ◌++◌, length, IfOk, OnOk, OnErr};
ghost use Rattle.dom_model.specs.Draft.{AreFitOutputs, IsFitDraft, IsFitGoal, IsFitOutput, IsFitPosted, IsSmallDeclared, empty_draft};
ghost use Rattle.dom_model.specs.Solved.{solved};

use crate::goal::Goal;
use crate::output::Output;
use crate::solved::solved;
use any_kind::AnyKind;
use dom_core::{Name, NoMemory, VarId};
use dom_definers::{Declared, Form, Posted, Variable};
use std::alloc::Global;
use std::marker::Model;

/// A model that is being put together.
#[derive(Drop)]
pub struct ModelBuilder {
    pub(crate) alloc: Global,
    pub(crate) variables: Vec<Variable>,
    pub(crate) constraints: Vec<Posted>,
    pub(crate) goal: Goal,
    pub(crate) outputs: Vec<Output>,
}

impl Model for ModelBuilder {
    ghost use Rattle.dom_model.specs.Draft.{Draft, IsFitDraft};

    ghost Value = { Draft };

    ghost view = { λ b. record {
      variables = b.variables.items;
      constraints = b.constraints.items;
      goal = b.goal;
      outputs = b.outputs.items;
    } };

    ghost invariant = { λ b. IsFitDraft (record {
      variables = b.variables.items;
      constraints = b.constraints.items;
      goal = b.goal;
      outputs = b.outputs.items;
    }) };
}

impl ModelBuilder {
    /// No variables and no constraints, and any assignment will do.
    pub fn new(alloc: Global) -> ModelBuilder
        ensures { result ≡ empty_draft }
    {
        ModelBuilder {
            alloc,
            variables: Vec::new(alloc),
            constraints: Vec::new(alloc),
            goal: Goal::Satisfy,
            outputs: Vec::new(alloc),
        }
    }

    /// Adds a variable behind those that are there, and gives its number.
    #[tactic(auto, using(crate::proofs::DraftLaws::with_variable))]
    pub fn variable(
        &mut self,
        name: &str,
        form: Form,
        declared: Declared,
    ) -> Result<VarId, NoMemory>
        requires few { length self.old.variables < 100000 }
        requires small { IsSmallDeclared declared }
        ensures number { IfOk result (λ x. x.0 ≡ length self.old.variables) }
        ensures ok { OnOk result (self.new ≡ record self.old {
          variables = self.old.variables ++ record { name = name.now; form = form; declared = declared } ∷ [];
        }) }
        ensures err { OnErr result (self.new ≡ self.old) }
    {
        let number = self.variables.len() as u32;
        let name = Name::from_slice(self.alloc, name.as_bytes())?;
        self.variables.push(Variable {
            name,
            form,
            declared,
        })?;
        Ok(VarId(number))
    }

    /// Adds a constraint behind those that are there, and the variable that it is to define, if it is to define one. A linear equation is
    /// solved for that variable. An equation of a variable with itself may be given too: its definition is cyclic.
    #[tactic(auto, using(crate::proofs::DraftLaws::with_constraint))]
    pub fn constraint(&mut self, kind: AnyKind, defines: Option<VarId>) -> Result<(), NoMemory>
        requires few { length self.old.constraints < 2147483648 }
        requires fit { IsFitPosted (length self.old.variables)
            (record { kind = solved kind defines; defines = defines }) }
        ensures ok { OnOk result (self.new ≡ record self.old {
          constraints = self.old.constraints ++ record { kind = solved kind defines; defines = defines } ∷ [];
        }) }
        ensures err { OnErr result (self.new ≡ self.old) }
    {
        let kind = solved(self.alloc, kind, defines)?;
        self.constraints.push(Posted { kind, defines })?;
        Ok(())
    }

    /// Asks this of the assignments, in place of what was asked before.
    pub fn goal(&mut self, goal: Goal)
        requires { IsFitGoal (length self.old.variables) goal }
        ensures { self.new ≡ record self.old { goal = goal } }
    {
        self.goal = goal;
    }

    /// Marks what is printed behind all that was marked before.
    #[tactic(auto, using(crate::proofs::DraftLaws::with_output))]
    pub fn output(&mut self, mark: Output) -> Result<(), NoMemory>
        requires { IsFitOutput (length self.old.variables) mark }
        ensures ok { OnOk result (self.new ≡ record self.old {
          outputs = self.old.outputs ++ mark ∷ [];
        }) }
        ensures err { OnErr result (self.new ≡ self.old) }
    {
        self.outputs.push(mark)?;
        Ok(())
    }
}
