//! Declarations.

ghost use Rattle.std.specs.Prelude.{◌≡◌, ◌++◌, OnOk};
ghost use Rattle.fzn_print.specs.Marks.{text_of, each};
ghost use Rattle.fzn_print.specs.Canonical.{declared_marks, value_marks, maybe_value_marks, parameter_marks, variable_marks, range_marks, of_marks, index_marks, parameter_array_marks, variable_array_marks, declaration_marks};

use crate::annotations::write_annotations;
use crate::expressions::write_expression;
use crate::marks::{write_end, write_name, write_space, write_symbol};
use crate::tokens::write_token;
use crate::types::{write_parameter_type, write_variable_type};
use fzn_lex::What;
use fzn_syntax::{
    Declaration, Expression, Identifier, IndexRange, Parameter, ParameterArray, VariableArray,
    VariableDeclaration,
};
use std::alloc::AllocError;

#[tactic(auto, using(crate::proofs::Texts::marked))]
fn write_declared(out: &mut Vec<u8>, name: &Identifier) -> Result<(), AllocError>
    ensures { OnOk result (out.new.items ≡ out.old.items ++ text_of (declared_marks name.now)) }
{
    write_symbol(out, What::Colon)?;
    write_space(out)?;
    write_name(out, name.name.as_bytes())
}

#[tactic(auto, using(crate::proofs::Texts::marked))]
fn write_value(out: &mut Vec<u8>, value: &Expression) -> Result<(), AllocError>
    ensures { OnOk result (out.new.items ≡ out.old.items ++ text_of (value_marks value.now)) }
{
    write_space(out)?;
    write_symbol(out, What::Equal)?;
    write_space(out)?;
    write_expression(out, value)
}

fn write_maybe_value(out: &mut Vec<u8>, value: &Option<Expression>) -> Result<(), AllocError>
    ensures { OnOk result (out.new.items ≡ out.old.items ++ text_of (maybe_value_marks value.now)) }
{
    match value {
        None => Ok(()),
        Some(value) => write_value(out, value),
    }
}

#[tactic(auto, using(crate::proofs::Texts::marked))]
fn write_parameter(out: &mut Vec<u8>, parameter: &Parameter) -> Result<(), AllocError>
    ensures { OnOk result (out.new.items ≡ out.old.items ++ text_of (parameter_marks parameter.now)) }
{
    write_parameter_type(out, &parameter.element)?;
    write_declared(out, &parameter.name)?;
    write_value(out, &parameter.value)?;
    write_end(out)
}

#[tactic(auto, using(crate::proofs::Texts::marked))]
fn write_variable(out: &mut Vec<u8>, variable: &VariableDeclaration) -> Result<(), AllocError>
    ensures { OnOk result (out.new.items ≡ out.old.items ++ text_of (variable_marks variable.now)) }
{
    write_variable_type(out, &variable.element)?;
    write_declared(out, &variable.name)?;
    write_annotations(out, variable.annotations.as_slice())?;
    write_maybe_value(out, &variable.value)?;
    write_end(out)
}

#[tactic(auto, using(crate::proofs::Texts::marked))]
fn write_range(out: &mut Vec<u8>, index: &IndexRange) -> Result<(), AllocError>
    ensures { OnOk result (out.new.items ≡ out.old.items ++ text_of (range_marks index.now)) }
{
    write_symbol(out, What::LeftBracket)?;
    write_symbol(out, What::Int(index.first))?;
    write_symbol(out, What::DotDot)?;
    write_symbol(out, What::Int(index.last))?;
    write_symbol(out, What::RightBracket)
}

#[tactic(auto, using(crate::proofs::Texts::marked))]
fn write_of(out: &mut Vec<u8>) -> Result<(), AllocError>
    ensures { OnOk result (out.new.items ≡ out.old.items ++ text_of of_marks) }
{
    write_space(out)?;
    write_name(out, b"of")?;
    write_space(out)
}

#[tactic(auto, using(crate::proofs::Texts::marked))]
fn write_index(out: &mut Vec<u8>, index: &IndexRange) -> Result<(), AllocError>
    ensures { OnOk result (out.new.items ≡ out.old.items ++ text_of (index_marks index.now)) }
{
    write_name(out, b"array")?;
    write_space(out)?;
    write_range(out, index)?;
    write_of(out)
}

#[tactic(auto, using(crate::proofs::Texts::marked))]
fn write_parameter_array(out: &mut Vec<u8>, array: &ParameterArray) -> Result<(), AllocError>
    ensures { OnOk result (out.new.items ≡ out.old.items ++ text_of (parameter_array_marks array.now)) }
{
    write_index(out, &array.index)?;
    write_parameter(out, &array.entries)
}

#[tactic(auto, using(crate::proofs::Texts::marked))]
fn write_variable_array(out: &mut Vec<u8>, array: &VariableArray) -> Result<(), AllocError>
    ensures { OnOk result (out.new.items ≡ out.old.items ++ text_of (variable_array_marks array.now)) }
{
    write_index(out, &array.index)?;
    write_variable_type(out, &array.element)?;
    write_declared(out, &array.name)?;
    write_annotations(out, array.annotations.as_slice())?;
    write_value(out, &array.value)?;
    write_end(out)
}

fn write_declaration(out: &mut Vec<u8>, declaration: &Declaration) -> Result<(), AllocError>
    ensures { OnOk result (out.new.items ≡ out.old.items ++ text_of (declaration_marks declaration.now)) }
{
    match declaration {
        Declaration::Parameter(parameter) => write_parameter(out, parameter),
        Declaration::Variable(variable) => write_variable(out, variable),
        Declaration::ParameterArray(array) => write_parameter_array(out, array),
        Declaration::VariableArray(array) => write_variable_array(out, array),
    }
}

pub(crate) fn write_declarations(
    out: &mut Vec<u8>,
    declarations: &[Declaration],
) -> Result<(), AllocError>
    ensures { OnOk result (out.new.items ≡ out.old.items ++ text_of (each declaration_marks declarations.now)) }
{
    for declaration in declarations {
        write_declaration(out, declaration)?;
    }
    Ok(())
}
