//! The table, tried on names.
use crate::{ArgumentType, Comparison, Row, Shape, row_of};
use dom_core::Relation;

fn shared<T: Send + Sync>(_: &T) {}

#[test]
fn a_row_is_found_by_its_name(rt: HostRuntime) {
    let known: [(&[u8], Shape, usize); 8] = [
        (b"array_bool_and", Shape::Conjunction, 2),
        (b"bool2int", Shape::Conversion, 2),
        (b"bool_clause", Shape::Clause, 2),
        (b"fzn_count_eq", Shape::Count, 3),
        (b"int_lin_le", Shape::Linear(Relation::AtMost), 3),
        (
            b"int_lin_le_reif",
            Shape::LinearReified(Relation::AtMost),
            4,
        ),
        (b"int_lt", Shape::Compared(Comparison::Below), 2),
        (b"set_in_reif", Shape::MembershipReified, 3),
    ];
    for (name, shape, count) in known {
        let row = row_of(name).expect(&rt, "a row");
        assert!(rt; row.name == name, "its own name");
        assert!(rt; row.shape == shape, "its shape");
        assert!(rt; row.arguments.len() == count, "its arguments");
    }
}

#[test]
fn no_row_has_another_name(rt: HostRuntime) {
    let others: [&[u8]; 8] = [
        b"",
        b"a",
        b"int_l",
        b"int_lin_le_",
        b"int_lin_le_imp",
        b"INT_EQ",
        b"int_div",
        b"zzz",
    ];
    for name in others {
        assert!(rt; row_of(name).is_none(), "no row");
    }
}

#[test]
fn the_arguments_stand_in_their_order(rt: HostRuntime) {
    let row = row_of(b"fzn_among").expect(&rt, "a row");
    let arguments = [
        ArgumentType::Integer,
        ArgumentType::IntegerArray,
        ArgumentType::Set,
    ];
    assert!(rt;
        row.arguments == arguments.as_slice(),
        "a number, an array and a set"
    );
}

#[test]
fn a_row_is_shared(rt: HostRuntime) {
    let row: &Row = row_of(b"int_eq").expect(&rt, "a row");
    shared(row);
    assert!(rt; row.arguments.len() == 2, "two arguments");
}
