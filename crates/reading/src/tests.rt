ghost use Rattle.std.specs.Prelude.{◌≡◌, ℕ, List, []};

use super::*;
use std::alloc::{AllocError, Global};
use std::test::*;

// A number of the list, where there is one.
fn first_of(numbers: &[u32]) -> Result<u32, ParseError> {
    match numbers {
        [first, ..] => Ok(*first),
        [] => Err(ParseError::Stuck(0)),
    }
}

fn refused(given: bool) -> Result<u32, AllocError> {
    if given { Ok(7) } else { Err(AllocError) }
}

fn read(numbers: &[u32], given: bool) -> Result<u32, ParseError> {
    let first = first_of(numbers)?;
    let more = refused(given)?;
    Ok(first.min(more))
}

#[test]
fn want_of_memory_is_told_apart(rt: HostRuntime) {
    assert!(rt; read(&[3], true) == Ok(3));
    assert!(rt; read(&[3], false) == Err(ParseError::Memory));
    assert!(rt; read(&[], false) == Err(ParseError::Stuck(0)));
}

#[test]
fn a_value_that_found_no_room_is_dropped(rt: HostRuntime) -> Result<(), Fail> {
    let mut numbers: Vec<u32> = Vec::new(rt.alloc());
    numbers.push(1)?;
    assert_eq!(rt; numbers.len(), 1);
    Ok(())
}

// It is spelled by no symbol at all.
struct Blank;

impl Spelled for Blank {
    type Symbol = u8;

    ghost spells = { λ _ symbols. symbols ≡ [] };
}

#[test]
fn laws_are_called() {
    fails_once::<Blank>();
    spells_or_fails::<Blank>();
}
