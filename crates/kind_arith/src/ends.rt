//! The ends that a set gives a variable.
ghost use Rattle.std.specs.Prelude.{◌≡◌, ◌<◌, ◌++◌, [], length, OnOk};
ghost use Rattle.dom_cells.specs.Box.{cell_of};
ghost use Rattle.kind_arith.specs.Shared.{low_ends, high_ends, shared_ends};

use dom_cells::Cells;
use dom_core::{Clause, Literal, Rel, VarId};
use std::alloc::AllocError;

/// Writes the ends, as far as the variable's cell reaches beyond them.
pub(crate) fn write_ends(
    cells: &Cells,
    var: VarId,
    lo: i64,
    hi: i64,
    out: &mut Clause,
) -> Result<(), AllocError>
    requires var { var.0 < length cells.now.state.starts }
    requires empty { out.old ≡ [] }
    ensures { OnOk result (out.new ≡ shared_ends var (cell_of cells.now.state var.0) lo hi) }
{
    write_low(cells, var, lo, out)?;
    write_high(cells, var, hi, out)?;
    Ok(())
}

/// Writes the lower end, where the variable's cell reaches below it.
fn write_low(cells: &Cells, var: VarId, lo: i64, out: &mut Clause) -> Result<(), AllocError>
    requires var { var.0 < length cells.now.state.starts }
    requires empty { out.old ≡ [] }
    ensures { OnOk result (out.new ≡ low_ends var (cell_of cells.now.state var.0) lo) }
{
    if cells.lo(var) < lo {
        out.push(lower(var, lo))?;
    }
    Ok(())
}

/// Adds the upper end, where the variable's cell reaches above it.
fn write_high(cells: &Cells, var: VarId, hi: i64, out: &mut Clause) -> Result<(), AllocError>
    requires { var.0 < length cells.now.state.starts }
    ensures { OnOk result (out.new ≡ out.old ++ high_ends var (cell_of cells.now.state var.0) hi) }
{
    if hi < cells.hi(var) {
        out.push(upper(var, hi))?;
    }
    Ok(())
}

/// The variable is at least the value.
pub(crate) fn lower(var: VarId, value: i64) -> Literal
    ensures { result ≡ record { var = var; rel = Rel.Ge; value = value } }
{
    Literal {
        var,
        rel: Rel::Ge,
        value,
    }
}

/// The variable is at most the value.
pub(crate) fn upper(var: VarId, value: i64) -> Literal
    ensures { result ≡ record { var = var; rel = Rel.Le; value = value } }
{
    Literal {
        var,
        rel: Rel::Le,
        value,
    }
}
