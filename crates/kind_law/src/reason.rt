//! Reasons for what a kind gave up or implied, by the ends and the holes of its variables' cells.
ghost use Rattle.std.specs.Prelude.{◌≡◌, ◌<◌, length, OnOk, [], ◌++◌};
ghost use Rattle.std.specs.Option.{option_to_list};
ghost use Rattle.dom_cells.specs.Box.{cell_of, start_at, IsBox};
ghost use Rattle.kind_law.specs.Laws.{AllBelow, Each};
ghost use Rattle.kind_law.specs.Reason.{IsCause, IsRead, IsReason, AddsFine, CoversLow, CoversHigh, CoversValue, CoversInside, CoversVar, looks, IsListedAt};

use crate::kind::Kind;
use dom_cells::{Cells, Start};
use dom_core::{Clause, Domain, Literal, Rel, VarId};
use std::alloc::AllocError;

/// Writes the reason for the implied end, or, without one, for why the kind refutes the cells, into an empty clause: for
/// each of the kind's variables the ends that moved, and the values that are gone where single values count, and then the
/// implied literal.
pub fn reason_of<K: Kind>(
    kind: &K,
    cells: &Cells,
    implied: Option<Literal>,
    out: &mut Clause,
) -> Result<(), AllocError>
    requires below { AllBelow (length cells.now.state.starts) (K.vars kind.now) }
    requires cause { IsCause (K.refuted kind.now) (cell_of cells.now.state) implied }
    requires var { IsRead (length cells.now.state.starts) implied }
    requires empty { out.old ≡ [] }
    ensures { OnOk result (IsReason (K.refuted kind.now) cells.now.state implied out.new) }
{
    let _width = cells.width();
    explain_all(kind, cells, implied, out)?;
    add_implied(implied, out)?;
    Ok(())
}

/// Adds the implied literal, where there is one. It stands last in a reason.
pub fn add_implied(implied: Option<Literal>, out: &mut Clause) -> Result<(), AllocError>
    ensures { OnOk result (out.new ≡ out.old ++ option_to_list implied) }
{
    match implied {
        None => Ok(()),
        Some(literal) => {
            out.push(literal)?;
            Ok(())
        }
    }
}

/// Tells of each of the kind's variables how its cell differs from its start.
fn explain_all<K: Kind>(
    kind: &K,
    cells: &Cells,
    implied: Option<Literal>,
    out: &mut Clause,
) -> Result<(), AllocError>
    requires below { AllBelow (length cells.now.state.starts) (K.vars kind.now) }
    ensures fine { OnOk result (AddsFine cells.now.state out.old out.new) }
    ensures covers { OnOk result (Each (λ u. CoversVar cells.now.state out.new
        (looks (K.inside kind.now) implied u.0) u.0) (K.vars kind.now)) }
{
    for var in kind.vars() {
        let deep = is_deep(kind, implied, *var);
        explain(cells, *var, deep, out)?;
    }
    Ok(())
}

/// Whether the variable's single values count.
fn is_deep<K: Kind>(kind: &K, implied: Option<Literal>, var: VarId) -> bool
    ensures { result ≡ looks (K.inside kind.now) implied var.0 }
{
    if kind.is_inside(var) {
        return true;
    }
    match implied {
        None => false,
        Some(literal) => literal.var.0 == var.0,
    }
}

/// Tells how the variable's cell differs from its start.
fn explain(cells: &Cells, var: VarId, deep: bool, out: &mut Clause) -> Result<(), AllocError>
    requires { var.0 < length cells.now.state.starts }
    ensures fine { OnOk result (AddsFine cells.now.state out.old out.new) }
    ensures covers { OnOk result (CoversVar cells.now.state out.new deep var.0) }
{
    explain_low(cells, var, out)?;
    explain_high(cells, var, out)?;
    if !deep {
        return Ok(());
    }
    explain_holes(cells, var, out)?;
    Ok(())
}

/// Tells that the values below the least one left are gone.
pub(crate) fn explain_low(cells: &Cells, var: VarId, out: &mut Clause) -> Result<(), AllocError>
    requires { var.0 < length cells.now.state.starts }
    ensures fine { OnOk result (AddsFine cells.now.state out.old out.new) }
    ensures covers { OnOk result (CoversLow cells.now.state out.new var.0) }
{
    let lo = cells.lo(var);
    let start = cells.start(var).lo();
    if start >= lo {
        return Ok(());
    }
    out.push(Literal {
        var,
        rel: Rel::Le,
        value: lo - 1,
    })?;
    Ok(())
}

/// Tells that the values above the greatest one left are gone.
pub(crate) fn explain_high(cells: &Cells, var: VarId, out: &mut Clause) -> Result<(), AllocError>
    requires { var.0 < length cells.now.state.starts }
    ensures fine { OnOk result (AddsFine cells.now.state out.old out.new) }
    ensures covers { OnOk result (CoversHigh cells.now.state out.new var.0) }
{
    let hi = cells.hi(var);
    let start = cells.start(var).hi();
    if start <= hi {
        return Ok(());
    }
    out.push(Literal {
        var,
        rel: Rel::Ge,
        value: hi + 1,
    })?;
    Ok(())
}

/// Tells which values between the ends are gone.
fn explain_holes(cells: &Cells, var: VarId, out: &mut Clause) -> Result<(), AllocError>
    requires { var.0 < length cells.now.state.starts }
    ensures fine { OnOk result (AddsFine cells.now.state out.old out.new) }
    ensures covers { OnOk result (CoversInside cells.now.state out.new var.0) }
{
    match cells.start(var) {
        Start::Span { .. } => {
            let _width = cells.width();
            Ok(())
        }
        Start::Values(domain) => explain_values(cells, var, domain, out),
    }
}

/// Tells which values of the domain are gone.
fn explain_values(
    cells: &Cells,
    var: VarId,
    domain: &Domain,
    out: &mut Clause,
) -> Result<(), AllocError>
    requires var { var.0 < length cells.now.state.starts }
    requires start { start_at cells.now.state.starts var.0 ≡ Start.Values domain.now }
    ensures fine { OnOk result (AddsFine cells.now.state out.old out.new) }
    ensures covers { OnOk result (CoversInside cells.now.state out.new var.0) }
{
    for at in 0..domain.size() {
        let value = domain.value_at(at);
        explain_value(cells, var, value, out)?;
    }
    Ok(())
}

/// Tells that the value is gone, where it lies between the ends and is.
pub(crate) fn explain_value(
    cells: &Cells,
    var: VarId,
    value: i64,
    out: &mut Clause,
) -> Result<(), AllocError>
    requires var { var.0 < length cells.now.state.starts }
    requires start { IsListedAt (start_at cells.now.state.starts var.0) value }
    ensures fine { OnOk result (AddsFine cells.now.state out.old out.new) }
    ensures covers { OnOk result (CoversValue cells.now.state out.new var.0 value) }
{
    if value < cells.lo(var) {
        return Ok(());
    }
    if cells.hi(var) < value {
        return Ok(());
    }
    if cells.has(var, value) {
        return Ok(());
    }
    out.push(Literal {
        var,
        rel: Rel::Eq,
        value,
    })?;
    Ok(())
}
