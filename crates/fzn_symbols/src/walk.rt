//! The names of items, taken in order of the text.
ghost use Rattle.std.specs.Prelude.{◌≡◌, ◌++◌, IfOk, OnOk};
ghost use Rattle.std.specs.List.{flat_map};
ghost use Rattle.fzn_symbols.specs.Occurrences.{marks_of_basic, marks_of_expression, marks_of_value, marks_used_by, marks_of_declaration, marks_of_constraint, marks_of_goal, marks_of};

use crate::identifier::identifier_of;
use crate::occurrence::Role;
use crate::occurrences::Occurrences;
use fzn_syntax::{Basic, Constraint, Declaration, Expression, Items, SolveGoal};
use std::alloc::{AllocError, Global};

fn note_basic<'a>(names: &mut Occurrences<'a>, basic: &'a Basic) -> Result<(), AllocError>
    ensures { OnOk result (names.new ≡ names.old ++ marks_of_basic basic.now) }
{
    match basic {
        Basic::True => Ok(()),
        Basic::False => Ok(()),
        Basic::Name(name) => names.note(Role::Uses, name),
        Basic::Number(_) => Ok(()),
        Basic::Range(_) => Ok(()),
        Basic::Set(_) => Ok(()),
    }
}

fn note_basics<'a>(names: &mut Occurrences<'a>, basics: &'a [Basic]) -> Result<(), AllocError>
    ensures { OnOk result (names.new ≡ names.old ++ flat_map marks_of_basic basics.now) }
{
    for basic in basics {
        note_basic(names, basic)?;
    }
    Ok(())
}

fn note_expression<'a>(
    names: &mut Occurrences<'a>,
    expression: &'a Expression,
) -> Result<(), AllocError>
    ensures { OnOk result (names.new ≡ names.old ++ marks_of_expression expression.now) }
{
    match expression {
        Expression::Basic(basic) => note_basic(names, basic),
        Expression::List(basics) => note_basics(names, basics.as_slice()),
    }
}

fn note_value<'a>(
    names: &mut Occurrences<'a>,
    value: &'a Option<Expression>,
) -> Result<(), AllocError>
    ensures { OnOk result (names.new ≡ names.old ++ marks_of_value value.now) }
{
    match value {
        None => Ok(()),
        Some(expression) => note_expression(names, expression),
    }
}

fn note_used<'a>(
    names: &mut Occurrences<'a>,
    declaration: &'a Declaration,
) -> Result<(), AllocError>
    ensures { OnOk result (names.new ≡ names.old ++ marks_used_by declaration.now) }
{
    match declaration {
        Declaration::Parameter(parameter) => note_expression(names, &parameter.value),
        Declaration::Variable(variable) => note_value(names, &variable.value),
        Declaration::ParameterArray(array) => note_expression(names, &array.entries.value),
        Declaration::VariableArray(array) => note_expression(names, &array.value),
    }
}

fn note_declaration<'a>(
    names: &mut Occurrences<'a>,
    declaration: &'a Declaration,
) -> Result<(), AllocError>
    ensures { OnOk result (names.new ≡ names.old ++ marks_of_declaration declaration.now) }
{
    names.note(Role::Declares, identifier_of(declaration))?;
    note_used(names, declaration)
}

fn note_declarations<'a>(
    names: &mut Occurrences<'a>,
    declarations: &'a [Declaration],
) -> Result<(), AllocError>
    ensures { OnOk result (names.new ≡ names.old ++ flat_map marks_of_declaration declarations.now) }
{
    for declaration in declarations {
        note_declaration(names, declaration)?;
    }
    Ok(())
}

fn note_expressions<'a>(
    names: &mut Occurrences<'a>,
    expressions: &'a [Expression],
) -> Result<(), AllocError>
    ensures { OnOk result (names.new ≡ names.old ++ flat_map marks_of_expression expressions.now) }
{
    for expression in expressions {
        note_expression(names, expression)?;
    }
    Ok(())
}

fn note_constraints<'a>(
    names: &mut Occurrences<'a>,
    constraints: &'a [Constraint],
) -> Result<(), AllocError>
    ensures { OnOk result (names.new ≡ names.old ++ flat_map marks_of_constraint constraints.now) }
{
    for constraint in constraints {
        note_expressions(names, constraint.arguments.as_slice())?;
    }
    Ok(())
}

fn note_goal<'a>(names: &mut Occurrences<'a>, goal: &'a SolveGoal) -> Result<(), AllocError>
    ensures { OnOk result (names.new ≡ names.old ++ marks_of_goal goal.now) }
{
    match goal {
        SolveGoal::Satisfy => Ok(()),
        SolveGoal::Minimize(name) => names.note(Role::Uses, name),
        SolveGoal::Maximize(name) => names.note(Role::Uses, name),
    }
}

// All names of items where they stand.
pub(crate) fn occurrences_of<'a>(
    alloc: Global,
    items: &'a Items,
) -> Result<Occurrences<'a>, AllocError>
    ensures { IfOk result (λ o. o ≡ marks_of items.now) }
{
    let mut names = Occurrences::new(alloc);
    note_declarations(&mut names, items.declarations.as_slice())?;
    note_constraints(&mut names, items.constraints.as_slice())?;
    note_goal(&mut names, &items.solve.goal)?;
    Ok(names)
}
