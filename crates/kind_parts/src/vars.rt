//! Lists of the variables of arguments, each once.
ghost use Rattle.std.specs.Prelude.{◌≡◌, IfOk, OnOk};
ghost use Rattle.kind_law.specs.Argument.{arg_vars, is_listed, is_new, with_new_arg};
ghost use Rattle.kind_parts.specs.Vars.{gathered, is_read_by, variables_of};

use dom_core::{Arg, VarId};
use std::alloc::{AllocError, Global};
use std::collections::BTreeSet;
use std::marker::Model;

/// Variables as arguments come: each once, in the order in which they came first, and whether each came once.
#[derive(Debug, Drop)]
pub struct DistinctVars {
    vars: Vec<VarId>,
    seen: BTreeSet<u32>,
    single: bool,
}

impl Model for DistinctVars {
    ghost use Rattle.std.specs.Ordering.{nat_cmp};
    ghost use Rattle.std.specs.BTreeSet.{contains};
    ghost use Rattle.kind_parts.specs.Vars.{Gathered, TellsListed};

    ghost Value = { Gathered };

    ghost view = { λ d. record { vars = d.vars.items; single = d.single } };

    ghost invariant = { λ d. TellsListed d.vars.items (contains nat_cmp d.seen) };
}

impl DistinctVars {
    ghost use Rattle.std.specs.Prelude.{◌≡◌, [], true, OnOk};
    ghost use Rattle.dom_core.specs.declared.arg.Arg.TheVariants.{Var};
    ghost use Rattle.kind_parts.specs.Vars.{gathered_more};

    /// No variables as yet.
    #[tactic(auto, using(crate::proofs::VarsLaws::none_seen))]
    pub fn new(alloc: Global) -> DistinctVars
        ensures { result ≡ record { vars = []; single = true } }
    {
        DistinctVars {
            vars: Vec::new(alloc),
            seen: BTreeSet::new(alloc),
            single: true,
        }
    }

    /// Takes one argument more. A constant changes nothing.
    pub fn add(&mut self, arg: Arg) -> Result<(), AllocError>
        ensures { OnOk result (self.new ≡ gathered_more self.old arg) }
    {
        match arg {
            Arg::Const(_) => Ok(()),
            Arg::Var(var) => self.add_var(var),
        }
    }

    /// Takes one variable more.
    #[tactic(auto, using(crate::proofs::VarsLaws::with_unseen, crate::proofs::VarsLaws::with_seen, crate::proofs::VarsLaws::was_new, crate::proofs::VarsLaws::was_there, crate::proofs::VarsLaws::seen_more))]
    fn add_var(&mut self, var: VarId) -> Result<(), AllocError>
        ensures { OnOk result (self.new ≡ gathered_more self.old (Var var)) }
    {
        self.vars.reserve(1)?;
        if self.seen.insert(var.0)? {
            self.vars.push_reserved(var);
            return Ok(());
        }
        self.single = false;
        Ok(())
    }

    /// Whether no variable came twice.
    pub fn is_single(&self) -> bool
        ensures { result ≡ self.now.single }
    {
        self.single
    }

    /// The list.
    pub fn into_vars(self) -> Vec<VarId>
        ensures { result.items ≡ self.vars }
    {
        self.vars
    }
}

/// The variables of the arguments, each once, in the order in which they come first.
pub fn distinct_vars(alloc: Global, args: &[Arg]) -> Result<DistinctVars, AllocError>
    ensures { IfOk result (λ d. d ≡ gathered (variables_of args.now)) }
{
    let mut vars = DistinctVars::new(alloc);
    for arg in args {
        vars.add(*arg)?;
    }
    Ok(vars)
}

/// The argument's variable, where it is one.
pub fn arg_vars(alloc: Global, arg: Arg) -> Result<Vec<VarId>, AllocError>
    ensures { IfOk result (λ v. v.items ≡ arg_vars arg) }
{
    let mut vars = Vec::new(alloc);
    match arg {
        Arg::Const(_) => Ok(vars),
        Arg::Var(var) => {
            vars.push(var)?;
            Ok(vars)
        }
    }
}

/// The variables with that of the argument at their end, unless it is none or stands among them.
pub fn with_output(alloc: Global, vars: &[VarId], output: Arg) -> Result<Vec<VarId>, AllocError>
    ensures { IfOk result (λ v. v.items ≡ with_new_arg vars.now output) }
{
    let mut all = Vec::new(alloc);
    all.extend_from_slice(vars)?;
    add_new(&mut all, output)?;
    Ok(all)
}

/// Puts the argument's variable at the end, unless it is a constant or stands in the list.
fn add_new(vars: &mut Vec<VarId>, arg: Arg) -> Result<(), AllocError>
    ensures { OnOk result (vars.new.items ≡ with_new_arg vars.old.items arg) }
{
    match arg {
        Arg::Const(_) => Ok(()),
        Arg::Var(var) => {
            if is_among(vars.as_slice(), var) {
                return Ok(());
            }
            vars.push(var)?;
            Ok(())
        }
    }
}

/// Whether the argument is none of the variables.
pub fn is_new(vars: &[VarId], arg: Arg) -> bool
    ensures { result ≡ is_new vars.now arg }
{
    match arg {
        Arg::Const(_) => true,
        Arg::Var(var) => !is_among(vars, var),
    }
}

/// Whether the variable stands in the list.
pub fn is_among(vars: &[VarId], var: VarId) -> bool
    ensures { result ≡ is_listed var vars.now }
{
    vars.iter().any(|v| v.0 == var.0)
}

/// Whether the argument is the variable.
pub fn is_on(arg: Arg, var: VarId) -> bool
    ensures { result ≡ is_read_by arg var }
{
    match arg {
        Arg::Const(_) => false,
        Arg::Var(own) => own.0 == var.0,
    }
}
