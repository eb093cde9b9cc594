//! Types.

ghost use Rattle.std.specs.Prelude.{◌≡◌, ◌++◌, OnOk};
ghost use Rattle.fzn_print.specs.Marks.{text_of};
ghost use Rattle.fzn_print.specs.Canonical.{element_marks, set_of_marks, parameter_type_marks, domain_marks, variable_type_marks};

use crate::marks::{write_name, write_space};
use crate::numbers::{write_bounds, write_set};
use fzn_syntax::{Element, ParameterType, VariableType};
use std::alloc::AllocError;

#[tactic(auto, using(crate::proofs::Texts::marked))]
fn write_element(out: &mut Vec<u8>, element: &Element) -> Result<(), AllocError>
    ensures { OnOk result (out.new.items ≡ out.old.items ++ text_of (element_marks element.now)) }
{
    match element {
        Element::Int => write_name(out, b"int"),
        Element::Float => write_name(out, b"float"),
        Element::Range(bounds) => write_bounds(out, bounds),
        Element::Set(numbers) => write_set(out, numbers),
    }
}

#[tactic(auto, using(crate::proofs::Texts::marked))]
fn write_set_of(out: &mut Vec<u8>, element: &Element) -> Result<(), AllocError>
    ensures { OnOk result (out.new.items ≡ out.old.items ++ text_of (set_of_marks element.now)) }
{
    write_name(out, b"set")?;
    write_space(out)?;
    write_name(out, b"of")?;
    write_space(out)?;
    write_element(out, element)
}

#[tactic(auto, using(crate::proofs::Texts::marked))]
pub(crate) fn write_parameter_type(
    out: &mut Vec<u8>,
    parameter: &ParameterType,
) -> Result<(), AllocError>
    ensures { OnOk result (out.new.items ≡ out.old.items ++ text_of (parameter_type_marks parameter.now)) }
{
    match parameter {
        ParameterType::Bool => write_name(out, b"bool"),
        ParameterType::Int => write_name(out, b"int"),
        ParameterType::Float => write_name(out, b"float"),
        ParameterType::SetOf(element) => write_set_of(out, element),
    }
}

#[tactic(auto, using(crate::proofs::Texts::marked))]
fn write_domain(out: &mut Vec<u8>, variable: &VariableType) -> Result<(), AllocError>
    ensures { OnOk result (out.new.items ≡ out.old.items ++ text_of (domain_marks variable.now)) }
{
    match variable {
        VariableType::Bool => write_name(out, b"bool"),
        VariableType::Plain(element) => write_element(out, element),
        VariableType::SetOf(element) => write_set_of(out, element),
    }
}

#[tactic(auto, using(crate::proofs::Texts::marked))]
pub(crate) fn write_variable_type(
    out: &mut Vec<u8>,
    variable: &VariableType,
) -> Result<(), AllocError>
    ensures { OnOk result (out.new.items ≡ out.old.items ++ text_of (variable_type_marks variable.now)) }
{
    write_name(out, b"var")?;
    write_space(out)?;
    write_domain(out, variable)
}
