//! How many variables, constraints and entries of lists items have.
ghost use Rattle.std.specs.Prelude.{◌≡◌, ◌≤◌, cond};
ghost use Rattle.fzn_limits.specs.Sizes.{is_variable, variables_in, IsCounted};

use crate::lengths::first_long_list;
use crate::too_many::TooMany;
use dom_limits::Counted;
use fzn_syntax::{Declaration, Items};

/// More of one thing are too many.
pub(crate) const LIMIT: u64 = 100_000;

// One for a variable, and none for all else.
fn variables_of(declaration: &Declaration) -> u64
    ensures one { result ≡ cond (is_variable declaration.now) 1 0 }
    ensures few { result ≤ 1 }
{
    match declaration {
        Declaration::Parameter(_) => 0,
        Declaration::Variable(_) => 1,
        Declaration::ParameterArray(_) => 0,
        Declaration::VariableArray(_) => 0,
    }
}

fn variables_in(declarations: &[Declaration]) -> u64
    ensures { result ≡ variables_in declarations.now }
{
    let mut count: u64 = 0;
    for declaration in declarations {
        count += variables_of(declaration);
    }
    count
}

/// The first thing of which there is too much: variables, then constraints, then entries of a list
/// that is a declaration's value or a constraint's argument, in order of the text.
pub fn count_items(items: &Items) -> Result<(), TooMany>
    ensures { IsCounted items.now result }
{
    let variables = variables_in(items.declarations.as_slice());
    if variables > LIMIT {
        return Err(TooMany {
            what: Counted::Variables,
            count: variables,
        });
    }
    let constraints = items.constraints.len() as u64;
    if constraints > LIMIT {
        return Err(TooMany {
            what: Counted::Constraints,
            count: constraints,
        });
    }
    match first_long_list(items) {
        None => Ok(()),
        Some(count) => Err(TooMany {
            what: Counted::ArrayEntries,
            count,
        }),
    }
}
