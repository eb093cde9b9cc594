//! The one declaration of a name.
ghost use Rattle.std.specs.Prelude.{MatchOption};
ghost use Rattle.fzn_symbols.specs.Named.{IsUndeclared};
ghost use Rattle.fzn_check.specs.Found.{IsOnly};

use fzn_symbols::Scope;
use fzn_syntax::Declaration;

/// The one declaration of this name.
pub fn found<'a>(scope: &Scope<'a>, name: &[u8]) -> Option<&'a Declaration>
    ensures { MatchOption result (IsUndeclared scope.now name.now) (λ d. IsOnly scope.now name.now d.now) }
{
    // All names of a scope are different.
    let _ = scope.declarations();
    scope.declaration(name)
}
