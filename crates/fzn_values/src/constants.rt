//! The values of the names of a text.
ghost use Rattle.std.specs.Prelude.{◌≡◌, ◌↔◌, ℕ, ℤ, Bool, List, slice_get, Some, IfOk, IfSome, IsTrue, MatchOption, option_copied};
ghost use Rattle.fzn_syntax.specs.declared.declaration.Declaration.{Declaration};
ghost use Rattle.fzn_syntax.specs.declared.expression.Basic.{Basic};
ghost use Rattle.fzn_syntax.specs.declared.expression.Expression.{Expression};
ghost use Rattle.fzn_symbols.specs.Named.{names_of, AreDifferent};
ghost use Rattle.fzn_values.specs.declared.entry.Entry.{Entry as EntryOf};
ghost use Rattle.fzn_values.specs.declared.literal.LiteralKind.TheVariants as literals;
ghost use Rattle.fzn_values.specs.Links.{AreLiterals, IsLiteralOf, NameStandsFor, NamesListAt};
ghost use Rattle.fzn_values.specs.Constants.{IsTruthOf, IsIntOf, IsListOf, IsListAt, AreInts, AreIntsOf, IsEntryOf, IsVariableOf, NamesVariableAt, IsIntegerVariable, HasOneTruth, HasOneInteger, HasOneList};

use crate::entry::Entry;
use crate::link::links_of;
use crate::literal::{
    LiteralKind, integer_in, integer_of, is_literal, list_in, name_in, named_by, truth_in,
    truth_of, value_for,
};
use chains::{Ends, ends_of};
use fzn_symbols::{Base, Scope, Sort, sort_of};
use fzn_syntax::{Basic, Declaration, Expression};
use std::alloc::{AllocError, Global};
use std::marker::Model;

/// An expression has one truth value at most.
pub fn one_truth()
    ensures { HasOneTruth }
{}

/// An expression has one integer as its value at most.
pub fn one_integer()
    ensures { HasOneInteger }
{}

/// An expression stands for one list at most.
pub fn one_list()
    ensures { HasOneList }
{}

/// The declarations of a text with the values of their names.
#[derive(Drop)]
pub struct Constants<'a> {
    scope: &'a Scope<'a>,
    truths: Ends,
    integers: Ends,
    lists: Ends,
}

impl<'a> Model for Constants<'a> {
    ghost use Rattle.std.specs.Prelude.{List};
    ghost use Rattle.fzn_syntax.specs.declared.declaration.Declaration.{Declaration};
    ghost use Rattle.fzn_values.specs.Links.{AreEndsOfKinds};

    ghost Value = { List Declaration };

    ghost view = { λ v. v.scope.now };

    ghost invariant = { λ v. AreEndsOfKinds v.scope.now v.truths v.integers v.lists };
}

fn declaration_at<'a>(scope: &Scope<'a>, place: usize) -> Option<&'a Declaration>
    ensures { option_copied result ≡ slice_get scope.now place }
{
    scope.declarations().get(place)
}

fn literals_of(alloc: Global, scope: &Scope<'_>, literal: LiteralKind) -> Result<Ends, AllocError>
    ensures are { IfOk result (λ ends. AreLiterals scope.now literal ends) }
    ensures different { IfOk result (λ _. AreDifferent (names_of scope.now)) }
{
    let links = links_of(alloc, scope, literal)?;
    let ends = ends_of(alloc, links.as_slice())?;
    Ok(ends)
}

impl<'a> Constants<'a> {
    /// Each chain of names is followed once.
    pub fn new(alloc: Global, scope: &'a Scope<'a>) -> Result<Constants<'a>, AllocError>
        ensures { IfOk result (λ v. v ≡ scope.now) }
    {
        let truths = literals_of(alloc, scope, LiteralKind::Boolean)?;
        let integers = literals_of(alloc, scope, LiteralKind::Integer)?;
        let lists = literals_of(alloc, scope, LiteralKind::List)?;
        Ok(Constants {
            scope,
            truths,
            integers,
            lists,
        })
    }

    pub fn scope(&self) -> &'a Scope<'a>
        ensures { result.now ≡ self.now }
    {
        self.scope
    }

    fn end_of(&self, literal: LiteralKind, place: usize) -> Option<usize>
        ensures { (d : Declaration) → slice_get self.now place ≡ Some d → IsLiteralOf self.now literal d result }
    {
        match literal {
            LiteralKind::Boolean => self.truths.at(place),
            LiteralKind::Integer => self.integers.at(place),
            LiteralKind::List => self.lists.at(place),
        }
    }

    fn literal_named(&self, literal: LiteralKind, name: &[u8]) -> Option<&'a Expression>
        ensures { MatchOption result ((l : Expression) → NameStandsFor self.now literal name.now l → ⊥) (λ l. NameStandsFor self.now literal name.now l.now) }
    {
        match self.scope.place(name) {
            None => None,
            Some(place) => match self.end_of(literal, place) {
                None => None,
                Some(end) => match declaration_at(self.scope, end) {
                    None => None,
                    Some(declaration) => value_for(literal, declaration),
                },
            },
        }
    }

    /// The truth value that the expression has.
    pub fn truth_of(&self, basic: &Basic) -> Option<bool>
        ensures is { MatchOption result ((t : Bool) → IsTruthOf self.now basic.now t → ⊥) (IsTruthOf self.now basic.now) }
        ensures only { IfSome result (λ t. (u : Bool) → IsTruthOf self.now basic.now u → u ≡ t) }
    {
        let _names_are_different = &self.scope;
        match name_in(basic) {
            None => truth_in(basic),
            Some(name) => match self.literal_named(LiteralKind::Boolean, name) {
                None => None,
                Some(literal) => truth_of(literal),
            },
        }
    }

    /// The integer that is the expression's value.
    pub fn int_of(&self, basic: &Basic) -> Option<i64>
        ensures { MatchOption result ((z : ℤ) → IsIntOf self.now basic.now z → ⊥) (IsIntOf self.now basic.now) }
    {
        match name_in(basic) {
            None => integer_in(basic),
            Some(name) => match self.literal_named(LiteralKind::Integer, name) {
                None => None,
                Some(literal) => integer_of(literal),
            },
        }
    }

    /// The list that the expression stands for.
    pub fn list_of<'b>(&'b self, expression: &'b Expression) -> Option<&'b [Basic]>
        ensures { MatchOption result ((bs : List Basic) → IsListOf self.now expression.now bs → ⊥) (λ bs. IsListOf self.now expression.now bs.now) }
    {
        match named_by(expression) {
            None => list_in(expression),
            Some(name) => match self.literal_named(LiteralKind::List, name) {
                None => None,
                Some(literal) => list_in(literal),
            },
        }
    }

    fn list_named(&self, name: &[u8]) -> Option<usize>
        ensures is { MatchOption result ((l : Expression) → NameStandsFor self.now literals.List name.now l → ⊥) (NamesListAt self.now name.now) }
        ensures different { AreDifferent (names_of self.now) }
    {
        match self.scope.place(name) {
            None => None,
            Some(place) => self.end_of(LiteralKind::List, place),
        }
    }

    /// The place of the declaration whose value is the list that the expression's name stands for.
    pub fn place_of_list(&self, expression: &Expression) -> Option<usize>
        ensures is { MatchOption result ((k : ℕ) → IsListAt self.now expression.now k → ⊥) (IsListAt self.now expression.now) }
        ensures only { IfSome result (λ _. (bs cs : List Basic) → IsListOf self.now expression.now bs → IsListOf self.now expression.now cs → cs ≡ bs) }
    {
        match named_by(expression) {
            None => None,
            Some(name) => self.list_named(name),
        }
    }

    /// The integer that is the expression's value, or the integer variable that it names.
    pub fn entry_of(&self, basic: &Basic) -> Option<Entry>
        ensures { MatchOption result ((e : EntryOf) → IsEntryOf self.now basic.now e → ⊥) (IsEntryOf self.now basic.now) }
    {
        match self.int_of(basic) {
            Some(value) => Some(Entry::Constant(value)),
            None => match self.variable_of(basic) {
                None => None,
                Some(place) => Some(Entry::Variable(place)),
            },
        }
    }

    fn variable_of(&self, basic: &Basic) -> Option<usize>
        ensures { MatchOption result ((k : ℕ) → IsVariableOf self.now basic.now k → ⊥) (IsVariableOf self.now basic.now) }
    {
        match name_in(basic) {
            None => None,
            Some(name) => self.variable_named(name),
        }
    }

    fn variable_named(&self, name: &[u8]) -> Option<usize>
        ensures { MatchOption result ((k : ℕ) → NamesVariableAt self.now name.now k → ⊥) (NamesVariableAt self.now name.now) }
    {
        match self.scope.place(name) {
            None => None,
            Some(place) => {
                if self.is_variable(place) {
                    Some(place)
                } else {
                    None
                }
            }
        }
    }

    fn is_variable(&self, place: usize) -> bool
        ensures { IsTrue result ↔ IsIntegerVariable self.now place }
    {
        let variable = Sort {
            base: Base::Int,
            is_variable: true,
            is_array: false,
        };
        match self.scope.declarations().get(place) {
            None => false,
            Some(declaration) => sort_of(declaration) == variable,
        }
    }

    /// The integers of a list, or of an array by its name.
    pub fn ints_of(
        &self,
        alloc: Global,
        expression: &Expression,
    ) -> Result<Option<Vec<i64>>, AllocError>
        ensures are { IfOk result (λ r. MatchOption r ((zs : List ℤ) → AreIntsOf self.now expression.now zs → ⊥) (λ v. AreIntsOf self.now expression.now v.items)) }
        ensures only { IfOk result (λ r. IfSome r (λ v. (zs : List ℤ) → AreIntsOf self.now expression.now zs → zs ≡ v.items)) }
    {
        let _ = &self.scope;
        match self.list_of(expression) {
            None => Ok(None),
            Some(basics) => self.ints_in(alloc, basics),
        }
    }

    fn ints_in(&self, alloc: Global, basics: &[Basic]) -> Result<Option<Vec<i64>>, AllocError>
        ensures { IfOk result (λ r. MatchOption r ((zs : List ℤ) → AreInts self.now basics.now zs → ⊥) (λ v. AreInts self.now basics.now v.items)) }
    {
        let mut ints = Vec::new(alloc);
        for basic in basics {
            match self.int_of(basic) {
                None => return Ok(None),
                Some(value) => ints.push(value)?,
            }
        }
        Ok(Some(ints))
    }
}
