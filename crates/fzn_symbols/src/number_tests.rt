//! Short texts of names.
use crate::error::NameError;
use crate::numbering::number_names;
use crate::occurrence::{Occurrence, Role};

fn shared<T: Send + Sync>(_: &T) {}

const fn declares(name: &'static [u8], at: u64) -> Occurrence<'static> {
    Occurrence {
        name,
        at,
        role: Role::Declares,
    }
}

const fn uses(name: &'static [u8], at: u64) -> Occurrence<'static> {
    Occurrence {
        name,
        at,
        role: Role::Uses,
    }
}

#[test]
fn names_are_numbered_in_order_of_declaration(rt: HostRuntime) {
    let text = [
        uses(b"b", 1),
        declares(b"a", 3),
        declares(b"b", 5),
        uses(b"a", 7),
        declares(b"ab", 9),
    ];
    let names = number_names(rt.alloc(), &text).expect(&rt, "names");
    shared(&names);
    assert_eq!(rt; names.len(), 3);
    assert_eq!(rt; names.find(b"a"), Some(0));
    assert_eq!(rt; names.find(b"b"), Some(1));
    assert_eq!(rt; names.find(b"ab"), Some(2));
    assert_eq!(rt; names.find(b"c"), None);
}

#[test]
fn the_first_fault_is_told(rt: HostRuntime) {
    let twice = [
        declares(b"a", 1),
        declares(b"b", 3),
        declares(b"a", 5),
        declares(b"b", 7),
    ];
    assert!(rt;
        number_names(rt.alloc(), &twice).err() == Some(NameError::NameTwice { at: 5 }),
        "the second a"
    );
    let nowhere = [declares(b"a", 1), uses(b"c", 3), declares(b"a", 5)];
    assert!(rt;
        number_names(rt.alloc(), &nowhere).err() == Some(NameError::UnknownName { at: 3 }),
        "no c"
    );
    let behind = [declares(b"a", 1), declares(b"a", 3), uses(b"c", 5)];
    assert!(rt;
        number_names(rt.alloc(), &behind).err() == Some(NameError::NameTwice { at: 3 }),
        "before c"
    );
}

#[test]
fn no_names_are_fine(rt: HostRuntime) {
    let names = number_names(rt.alloc(), &[]).expect(&rt, "names");
    assert_eq!(rt; names.len(), 0);
}

#[test]
fn errors_are_told_in_words(rt: HostRuntime) {
    let twice = format!(in rt.alloc(); "{}", NameError::NameTwice { at: 12 }).expect(&rt, "a text");
    assert!(rt; twice.as_str() == "name declared twice at byte 12", "twice");
    let unknown = format!(in rt.alloc(); "{}", NameError::UnknownName { at: 0 }).expect(
        &rt, "a text",
    );
    assert!(rt; unknown.as_str() == "unknown name at byte 0", "unknown");
}
