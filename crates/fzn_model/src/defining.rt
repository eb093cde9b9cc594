//! Which variable a written constraint defines.
ghost use Rattle.std.specs.Prelude.{◌≡◌, ◌<◌, ◌↔◌, length, None, Some, IsTrue, MatchOption};
ghost use Rattle.std.specs.Option.{option_copied};
ghost use Rattle.dom_core.specs.declared.var_id.VarId.{VarId as VarIdOf};
ghost use Rattle.dom_model.specs.Solved.{place_from};
ghost use Rattle.fzn_arguments.specs.Numbers.{AreNumbers};
ghost use Rattle.fzn_limits.specs.Sizes.{variables_in};
ghost use Rattle.fzn_model.specs.Defining.{argument_name, asked_name, closes, Converts, Defines, DefinesBy, DefinesNamed, has_shape, IsBarred, is_solvable, lone_name, MayDefine, names, opens, with_defined};
ghost use Rattle.fzn_signatures.specs.declared.shape.Shape.TheVariants as shapes;

use crate::marks::is_named;
use any_kind::AnyKind;
use dom_core::VarId;
use dom_definers::Form;
use dom_model::place_of;
use fzn_arguments::variable_named;
use fzn_lex::What;
use fzn_signatures::{Shape, one_row, row_of};
use fzn_symbols::Scope;
use fzn_syntax::Annotation;
use fzn_words::Word;
use kind_law::Define;
use kind_linear::Linear;

/// The variable that a constraint of this name and kind defines by these annotations, where those marked so are defined before it.
pub(crate) fn defines(
    scope: &Scope<'_>,
    numbers: &[u32],
    defined: &[bool],
    name: &[u8],
    kind: &AnyKind,
    annotations: &[Annotation],
) -> Option<VarId>
    requires numbers { AreNumbers scope.now numbers.now }
    requires whole { length defined.now ≡ variables_in scope.now }
    ensures { Defines scope.now defined.now name.now kind.now annotations.now result }
{
    for annotation in annotations {
        match defines_by(scope, numbers, defined, name, kind, annotation) {
            None => {}
            Some(var) => return Some(var),
        }
    }
    None
}

fn defines_by(
    scope: &Scope<'_>,
    numbers: &[u32],
    defined: &[bool],
    name: &[u8],
    kind: &AnyKind,
    annotation: &Annotation,
) -> Option<VarId>
    requires numbers { AreNumbers scope.now numbers.now }
    requires whole { length defined.now ≡ variables_in scope.now }
    ensures { MatchOption result
        ((x : VarIdOf) → DefinesBy scope.now defined.now name.now kind.now annotation.now x → ⊥)
        (DefinesBy scope.now defined.now name.now kind.now annotation.now) }
{
    match asked_name(annotation) {
        None => None,
        Some(asked) => {
            match defines_named(scope, numbers, defined, name, kind, asked, Form::Int) {
                Some(var) => Some(var),
                None => defines_named(scope, numbers, defined, name, kind, asked, Form::Bool),
            }
        }
    }
}

// The variable of this form that has the asked name, where the constraint may define it.
fn defines_named(
    scope: &Scope<'_>,
    numbers: &[u32],
    defined: &[bool],
    name: &[u8],
    kind: &AnyKind,
    asked: &[u8],
    form: Form,
) -> Option<VarId>
    requires numbers { AreNumbers scope.now numbers.now }
    requires whole { length defined.now ≡ variables_in scope.now }
    ensures { MatchOption result
        ((x : VarIdOf) → DefinesNamed scope.now defined.now name.now kind.now asked.now form x → ⊥)
        (DefinesNamed scope.now defined.now name.now kind.now asked.now form) }
{
    let _names_are_different = scope.declarations();
    match variable_named(scope, numbers, form, asked) {
        None => None,
        Some(var) => {
            if may_define(defined, name, kind, form, var) {
                Some(var)
            } else {
                None
            }
        }
    }
}

fn may_define(defined: &[bool], name: &[u8], kind: &AnyKind, form: Form, var: VarId) -> bool
    requires { var.0 < length defined.now }
    ensures { IsTrue result ↔ MayDefine defined.now name.now kind.now form var }
{
    !is_barred(form, name) && has_shape(kind, var) && !defined[var.0 as usize]
}

// A constraint that makes an integer of a truth value never defines the truth value.
fn is_barred(form: Form, name: &[u8]) -> bool
    ensures { IsTrue result ↔ IsBarred form name.now }
{
    match form {
        Form::Bool => converts(name),
        Form::Int => false,
    }
}

fn converts(name: &[u8]) -> bool
    ensures { IsTrue result ↔ Converts name.now }
{
    one_row();
    match row_of(name) {
        None => false,
        Some(row) => is_conversion(row.shape),
    }
}

fn is_conversion(shape: Shape) -> bool
    ensures { IsTrue result ↔ (shape ≡ shapes.Conversion) }
{
    shape == Shape::Conversion
}

// Whether the kind has a functional shape for the variable.
fn has_shape(kind: &AnyKind, var: VarId) -> bool
    ensures { result ≡ has_shape kind.now var }
{
    match kind {
        AnyKind::Linear(linear) => is_solvable(linear, var),
        _ => kind.is_functional() && kind.output() == var,
    }
}

fn is_solvable(linear: &Linear, var: VarId) -> bool
    ensures { result ≡ is_solvable linear.now (place_from 0 var linear.now.terms) }
{
    match place_of(linear.terms(), var) {
        None => false,
        Some(place) => linear.can_define(place),
    }
}

// The name that the annotation asks to have defined.
fn asked_name(annotation: &Annotation) -> Option<&[u8]>
    ensures { option_copied result ≡ asked_name annotation.now }
{
    if is_named(b"defines_var", annotation) {
        argument_name(annotation)
    } else {
        None
    }
}

fn argument_name(annotation: &Annotation) -> Option<&[u8]>
    ensures { option_copied result ≡ argument_name annotation.now.arguments }
{
    match &annotation.arguments {
        None => None,
        Some(words) => lone_name(words.as_slice()),
    }
}

fn lone_name(words: &[Word]) -> Option<&[u8]>
    ensures { option_copied result ≡ lone_name words.now }
{
    match words {
        [left, name, right] => {
            if opens(left.what) && names(name.what) && closes(right.what) {
                Some(name.text.as_bytes())
            } else {
                None
            }
        }
        _ => None,
    }
}

fn opens(what: What) -> bool
    ensures { result ≡ opens what }
{
    matches!(what, What::LeftParen)
}

fn names(what: What) -> bool
    ensures { result ≡ names what }
{
    matches!(what, What::Name)
}

fn closes(what: What) -> bool
    ensures { result ≡ closes what }
{
    matches!(what, What::RightParen)
}

/// Marks the variable as defined, if there is one.
pub(crate) fn define(defined: &mut Vec<bool>, defines: Option<VarId>)
    requires { (x : VarIdOf) → defines ≡ Some x → x.0 < length defined.old.items }
    ensures { defined.new.items ≡ with_defined defined.old.items defines }
{
    match defines {
        None => {}
        Some(var) => defined[var.0 as usize] = true,
    }
}
