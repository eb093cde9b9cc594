//! Where the values of declarations lead.
ghost use Rattle.std.specs.Prelude.{◌≡◌, IfOk};
ghost use Rattle.fzn_symbols.specs.Named.{names_of, AreDifferent};
ghost use Rattle.fzn_values.specs.Links.{IsValueLink, IsLinkOf, AreLinks};

use crate::literal::{LiteralKind, is_literal, named_by, value_for};
use chains::Link;
use fzn_symbols::Scope;
use fzn_syntax::{Declaration, Expression};
use std::alloc::{AllocError, Global};

fn link_of_value(scope: &Scope<'_>, literal: LiteralKind, value: &Expression) -> Link
    ensures { IsValueLink scope.now literal value.now result }
{
    if is_literal(literal, value) {
        return Link::End;
    }
    match named_by(value) {
        None => Link::Nothing,
        Some(name) => match scope.place(name) {
            None => Link::Nothing,
            Some(place) => Link::To(place),
        },
    }
}

fn link_of(scope: &Scope<'_>, literal: LiteralKind, declaration: &Declaration) -> Link
    ensures { IsLinkOf scope.now literal declaration.now result }
{
    match value_for(literal, declaration) {
        None => Link::Nothing,
        Some(value) => link_of_value(scope, literal, value),
    }
}

// Where the value of each declaration leads.
pub(crate) fn links_of(
    alloc: Global,
    scope: &Scope<'_>,
    literal: LiteralKind,
) -> Result<Vec<Link>, AllocError>
    ensures are { IfOk result (λ links. AreLinks scope.now literal links.items) }
    ensures different { IfOk result (λ _. AreDifferent (names_of scope.now)) }
{
    let mut links = Vec::new(alloc);
    for declaration in scope.declarations() {
        links.push(link_of(scope, literal, declaration))?;
    }
    Ok(links)
}
