//! The numbers of the names of a text.
ghost use Rattle.std.specs.Prelude.{◌≡◌, ◌≤◌, ◌<◌, ◌↔◌, ℕ, List, Result, Err, [], length, MatchOption, IsTrue};
ghost use Rattle.fzn_symbols.specs.declared.error.NameError.TheVariants.{Memory};
ghost use Rattle.fzn_symbols.specs.Counted.{Counts, IsFirstUnknown, IsNowhere, fine_of};
ghost use Rattle.fzn_symbols.specs.Listed.{IsUnlisted};
ghost use Rattle.fzn_symbols.specs.Marks.{marks_of};
ghost use Rattle.fzn_symbols.specs.Noted.{IsNoted, earlier_of};
ghost use Rattle.fzn_symbols.specs.Numbered.{Mark, IsNumbered};

use crate::error::NameError;
use crate::names::Names;
use crate::occurrence::{Occurrence, Role};
use std::alloc::Global;

/// A text has one answer, but for want of memory.
pub(crate) fn names_have_one_answer()
    ensures { (os : List Mark) (r s : Result (List (List ℕ)) NameError) → IsNumbered os r → IsNumbered os s → (r ≡ Err Memory → ⊥) → (s ≡ Err Memory → ⊥) → r ≡ s }
{}

/// The declared names of a text, whose occurrences stand in order, or the first fault among them. A name may be used before it is declared.
pub(crate) fn number_names<'a>(
    alloc: Global,
    occurrences: &[Occurrence<'a>],
) -> Result<Names<'a>, NameError>
    ensures { IsNumbered (marks_of occurrences.now) result }
{
    let mut names = Names::new(alloc);
    let double = declare_all(&mut names, occurrences)?;
    let fine = fine_of(double, occurrences.len());
    if let Some(at) = first_unknown(&names, &occurrences[..fine]) {
        return Err(NameError::UnknownName { at });
    }
    match double {
        Some(place) => Err(NameError::NameTwice {
            at: occurrences[place].at,
        }),
        None => Ok(names),
    }
}

// Adds all declared names; gives the place of the first that is declared before.
fn declare_all<'a>(
    names: &mut Names<'a>,
    occurrences: &[Occurrence<'a>],
) -> Result<Option<usize>, NameError>
    requires { names.old ≡ [] }
    ensures { Counts (marks_of occurrences.now) (length (marks_of occurrences.now)) names.new result }
{
    let mut double = None;
    for (place, occurrence) in occurrences.iter().enumerate() {
        let again = note(names, occurrence)?;
        double = earlier(double, again, place);
    }
    Ok(double)
}

// Adds the name where it is declared; true where it is there already.
fn note<'a>(names: &mut Names<'a>, occurrence: &Occurrence<'a>) -> Result<bool, NameError>
    ensures { IsNoted occurrence.now.role names.old occurrence.now.name.now names.new result }
{
    match occurrence.role {
        Role::Declares => names.add(occurrence.name),
        Role::Uses => Ok(false),
    }
}

fn earlier(double: Option<usize>, again: bool, place: usize) -> Option<usize>
    ensures { result ≡ earlier_of double again place }
{
    match double {
        Some(before) => Some(before),
        None => { if again { Some(place) } else { None } }
    }
}

// How many occurrences stand before the first double.
fn fine_of(double: Option<usize>, len: usize) -> usize
    ensures { result ≡ fine_of double len }
{
    double.unwrap_or(len)
}

fn is_unknown<'a>(names: &Names<'a>, occurrence: &Occurrence<'a>) -> bool
    ensures { IsTrue result ↔ ((occurrence.now.role ≡ Role.Uses) × IsUnlisted names.now occurrence.now.name.now) }
{
    occurrence.role == Role::Uses && names.find(occurrence.name).is_none()
}

// The first byte of the first name that is used and not listed.
fn first_unknown<'a>(names: &Names<'a>, occurrences: &[Occurrence<'a>]) -> Option<u64>
    ensures { MatchOption result (IsNowhere names.now (marks_of occurrences.now)) (IsFirstUnknown names.now (marks_of occurrences.now)) }
{
    for occurrence in occurrences {
        if is_unknown(names, occurrence) {
            return Some(occurrence.at);
        }
    }
    None
}
