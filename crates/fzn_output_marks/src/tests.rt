//! Annotations at declarations.
use crate::{index_sets, is_output_array, is_output_var, right_sets};
use dom_index_sets::IndexSet;
use fzn_lex::lex;
use fzn_syntax::{Annotation, Declaration, Items, parse};
use std::alloc::Global;

fn shared<T: Send + Sync>(_: &T) {}

// The items of a text that declares one variable.
fn items_of(alloc: Global, text: &str) -> Option<Items> {
    let tokens = lex(alloc, text.as_bytes()).ok()?;
    parse(alloc, text.as_bytes(), &tokens).ok()
}

// The first annotation at the first declaration.
fn annotation_of(items: &Items) -> Option<&Annotation> {
    match items.declarations.as_slice().first()? {
        Declaration::Variable(variable) => variable.annotations.as_slice().first(),
        _ => None,
    }
}

const fn ends(lo: i64, hi: i64) -> IndexSet {
    IndexSet { lo, hi }
}

#[test]
fn marks_are_told_by_their_names(rt: HostRuntime) {
    let cases = [
        ("var int: x :: output_var; solve satisfy;", true, false),
        ("var int: x :: output_var(1); solve satisfy;", true, false),
        ("var int: x :: output_array; solve satisfy;", false, true),
        (
            "var int: x :: output_array([1..2]); solve satisfy;",
            false,
            true,
        ),
        ("var int: x :: output_vars; solve satisfy;", false, false),
        ("var int: x :: output; solve satisfy;", false, false),
        ("var int: x :: a(output_var); solve satisfy;", false, false),
    ];
    for (text, scalar, array) in cases {
        let items = items_of(rt.alloc(), text).expect(&rt, "items");
        let annotation = annotation_of(&items).expect(&rt, "an annotation");
        assert!(rt; is_output_var(annotation) == scalar, "{text}");
        assert!(rt; is_output_array(annotation) == array, "{text}");
    }
}

#[test]
fn index_sets_are_read(rt: HostRuntime) {
    let cases: [(&str, &[IndexSet]); 7] = [
        ("var int: x :: a([1..3]); solve satisfy;", &[ends(1, 3)]),
        (
            "var int: x :: a([1..3,0..-1]); solve satisfy;",
            &[ends(1, 3), ends(0, -1)],
        ),
        ("var int: x :: a([5..2]); solve satisfy;", &[ends(5, 2)]),
        ("var int: x :: a([{2,1,2}]); solve satisfy;", &[ends(1, 2)]),
        (
            "var int: x :: a([{-3},{3,1,2}]); solve satisfy;",
            &[ends(-3, -3), ends(1, 3)],
        ),
        (
            "var int: x :: a([-4611686018427387904..4611686018427387904]); solve satisfy;",
            &[ends(-4611686018427387904, 4611686018427387904)],
        ),
        (
            "var int: x :: a([1..1,2..2,3..3,4..4,5..5,{6}]); solve satisfy;",
            &[
                ends(1, 1),
                ends(2, 2),
                ends(3, 3),
                ends(4, 4),
                ends(5, 5),
                ends(6, 6),
            ],
        ),
    ];
    for (text, wanted) in cases {
        let items = items_of(rt.alloc(), text).expect(&rt, "items");
        let annotation = annotation_of(&items).expect(&rt, "an annotation");
        let found = index_sets(rt.alloc(), annotation).expect(&rt, "memory");
        let sets = found.expect(&rt, "index sets");
        shared(&sets);
        assert!(rt; sets.as_slice() == wanted, "{text}");
    }
}

#[test]
fn other_arguments_are_no_index_sets(rt: HostRuntime) {
    let cases = [
        "var int: x :: a; solve satisfy;",
        "var int: x :: a([]); solve satisfy;",
        "var int: x :: a(1..3); solve satisfy;",
        "var int: x :: a([1..3],[1..3]); solve satisfy;",
        "var int: x :: a([1..3,4]); solve satisfy;",
        "var int: x :: a([{}]); solve satisfy;",
        "var int: x :: a([{1,3}]); solve satisfy;",
        "var int: x :: a([{-4611686018427387904,4611686018427387904}]); solve satisfy;",
        "var int: x :: a([1.0..3.0]); solve satisfy;",
        "var int: x :: a([[1..3]]); solve satisfy;",
        "var int: x :: a([n]); solve satisfy;",
        "var int: x :: a([1..1,2..2,3..3,4..4,5..5,6..6,7..7]); solve satisfy;",
    ];
    for text in cases {
        let items = items_of(rt.alloc(), text).expect(&rt, "items");
        let annotation = annotation_of(&items).expect(&rt, "an annotation");
        let found = index_sets(rt.alloc(), annotation).expect(&rt, "memory");
        assert!(rt; found.is_none(), "{text}");
    }
}

#[test]
fn sizes_multiplied_are_the_length(rt: HostRuntime) {
    let cases = [
        ("var int: x :: a([1..3]); solve satisfy;", 3, true),
        ("var int: x :: a([1..3]); solve satisfy;", 4, false),
        ("var int: x :: a([1..3,0..1]); solve satisfy;", 6, true),
        ("var int: x :: a([1..3,1..0]); solve satisfy;", 0, true),
        ("var int: x :: a([1..3,1..0]); solve satisfy;", 3, false),
        ("var int: x :: a([3..1]); solve satisfy;", 0, true),
        (
            "var int: x :: a([-4611686018427387904..4611686018427387904]); solve satisfy;",
            9223372036854775809,
            true,
        ),
        // the product is 0 though the first sizes pass every length
        (
            "var int: x :: a([0..4611686018427387903,0..4611686018427387903,0..7,1..0]); solve satisfy;",
            0,
            true,
        ),
        // the product is 2 to the 128, which has no place in 128 bits
        (
            "var int: x :: a([0..4611686018427387903,0..4611686018427387903,0..15]); solve satisfy;",
            0,
            false,
        ),
    ];
    for (text, length, is) in cases {
        let items = items_of(rt.alloc(), text).expect(&rt, "items");
        let annotation = annotation_of(&items).expect(&rt, "an annotation");
        let found = index_sets(rt.alloc(), annotation).expect(&rt, "memory");
        let sets = found.expect(&rt, "index sets");
        assert!(rt; sets.count_is(length) == is, "{text} {length}");
        let right = right_sets(rt.alloc(), annotation, length).expect(&rt, "memory");
        assert!(rt; right == is, "{text} {length}");
    }
}
