ghost use Rattle.std.specs.Prelude.{◌≡◌, IfOk, length};

use super::*;
use std::test::Fail;

fn shared<T: Send + Sync>(_: &T) {}

const X: VarId = VarId(0);

const Y: VarId = VarId(1);

fn literal(var: VarId, rel: Rel, value: i64) -> Literal {
    Literal { var, rel, value }
}

#[test]
fn lists_keep_their_entries(rt: HostRuntime) -> Result<(), Fail> {
    let values = Values::from_slice(rt.alloc(), [3, 1, 2].as_slice())?;
    assert_eq!(rt; values.as_slice(), [3, 1, 2].as_slice());
    assert_eq!(rt; values.len(), 3);
    assert_eq!(rt; values, Values::from_vec(vec![in rt.alloc(); 3, 1, 2]?));
    let vars = Vars::from_slice(rt.alloc(), [Y, X].as_slice())?;
    assert_eq!(rt; vars.as_slice(), [Y, X].as_slice());
    assert_eq!(rt; vars.len(), 2);
    assert_eq!(rt; vars, Vars::from_vec(vec![in rt.alloc(); Y, X]?));
    let name = Name::from_slice(rt.alloc(), b"cost".as_slice())?;
    assert_eq!(rt; name.as_bytes(), b"cost".as_slice());
    assert_eq!(rt; name.len(), 4);
    assert_ne!(rt; name, Name::from_vec(vec![in rt.alloc()]?));
    shared(&values);
    shared(&vars);
    shared(&name);
    Ok(())
}

#[test]
fn a_range_is_a_domain_of_its_integers(rt: HostRuntime) -> Result<(), Fail> {
    let domain = Domain::from_range(-2, 3).ok().ok_or("no domain")?;
    assert_eq!(rt; domain.size(), 6);
    assert_eq!(rt; domain.min(), -2);
    assert_eq!(rt; domain.max(), 3);
    for (value, among) in [(-3, false), (-2, true), (0, true), (3, true), (4, false)] {
        assert_eq!(rt; domain.contains(value), among, "at {value}");
    }
    let copy = domain.duplicate(rt.alloc())?;
    assert_eq!(rt; copy.size(), 6);
    shared(&domain);
    Ok(())
}

#[test]
fn a_range_without_values_or_with_too_many_is_refused(rt: HostRuntime) {
    for (lo, hi, error) in [
        (1, 0, Some(DomainError::Empty)),
        (0, 4095, None),
        (0, 4096, Some(DomainError::TooLarge { count: 4097 })),
        (-5_000, 5_000, Some(DomainError::TooLarge { count: 10_001 })),
    ] {
        assert_eq!(rt;
            Domain::from_range(lo, hi).err(),
            error,
            "from {lo} to {hi}"
        );
    }
}

#[test]
fn listed_values_are_a_domain_in_rising_order(rt: HostRuntime) -> Result<(), Fail> {
    let domain = Domain::from_values(rt.alloc(), [3, 1, 3].as_slice())
        .ok()
        .ok_or("no domain")?;
    assert_eq!(rt; (domain.size(), domain.min(), domain.max()), (2, 1, 3));
    for (value, among) in [(0, false), (1, true), (2, false), (3, true), (4, false)] {
        assert_eq!(rt; domain.contains(value), among, "at {value}");
    }
    assert_eq!(rt; domain.rank(3), 1);
    let none = Domain::from_values(rt.alloc(), [].as_slice());
    assert_eq!(rt; none.err(), Some(DomainError::Empty));
    Ok(())
}

#[test]
fn an_assignment_is_written_value_by_value(rt: HostRuntime) -> Result<(), Fail> {
    let mut a = Assignment::zeros(rt.alloc(), 2)?;
    assert_eq!(rt; a.len(), 2);
    assert_eq!(rt; a.as_slice(), [0, 0].as_slice());
    shared(&a);
    let b = Assignment::zeros(rt.alloc(), 2)?;
    if a.len() == 2 && b.len() == a.len() {
        a.set(Y, 7);
        assert_eq!(rt; a.value(Y), 7);
        assert_eq!(rt; a.to_values(rt.alloc())?.as_slice(), [0, 7].as_slice());
        a.copy_from(&b);
    }
    assert_eq!(rt; a, b);
    Ok(())
}

#[test]
fn a_literal_and_its_negation_share_no_value(rt: HostRuntime) {
    let most = literal(X, Rel::Le, 5);
    assert!(rt; most.at(5) && !most.at(6));
    assert!(rt; literal(X, Rel::Ge, 5).at(5) && !literal(X, Rel::Ge, 5).at(4));
    assert!(rt; literal(X, Rel::Eq, 5).at(5) && !literal(X, Rel::Eq, 5).at(6));
    assert!(rt; literal(X, Rel::Ne, 5).at(4) && !literal(X, Rel::Ne, 5).at(5));
    let five = Literal {
        var: X,
        rel: Rel::Le,
        value: 5,
    };
    assert_eq!(rt; five.negated(), literal(X, Rel::Ge, 6));
}

#[test]
fn intervals_add_scale_and_meet(rt: HostRuntime) {
    let a = Interval::new(-1, 2);
    let b = Interval::new(4, 6);
    assert_eq!(rt; a.add(b), Interval::new(3, 8));
    assert_eq!(rt; a.scale(-3), Interval::new(-6, 3));
    assert_eq!(rt; a.mul(b), Interval::new(-6, 12));
    assert_eq!(rt; a.hull(b), Interval::new(-1, 6));
    assert_eq!(rt; a.meet(b), None);
    assert_eq!(rt; a.meet(Interval::new(2, 9)), Some(Interval::new(2, 2)));
    assert_eq!(rt; Interval::new(2, 2).single(), Some(2));
    assert_eq!(rt; a.single(), None);
    assert!(rt; a.has(0) && !a.has(3));
    assert_eq!(rt; (a.lo(), a.hi()), (-1, 2));
}

#[test]
fn a_clause_grows_and_is_cleared(rt: HostRuntime) -> Result<(), Fail> {
    let mut clause = Clause::new(rt.alloc());
    clause.push(literal(X, Rel::Ge, 3))?;
    assert_eq!(rt; clause.literals(), [literal(X, Rel::Ge, 3)].as_slice());
    assert_eq!(rt; clause.len(), 1);
    clause.clear();
    assert_eq!(rt; clause.len(), 0);
    shared(&clause);
    Ok(())
}

#[test]
fn a_view_is_written_variable_by_variable(rt: HostRuntime) -> Result<(), Fail> {
    let mut view = View::for_vars(rt.alloc(), 2)?;
    let (zero, one, two) = (
        Interval::new(0, 0),
        Interval::new(1, 1),
        Interval::new(2, 2),
    );
    if view.len() == 2 {
        view.set(Y, one, two, one);
        assert_eq!(rt;
            (view.before(Y), view.after(Y), view.change(Y)),
            (one, two, one)
        );
        assert_eq!(rt; Before(&view).interval(X), zero);
        assert_eq!(rt; After(&view).interval(Y), two);
    }
    shared(&view);
    Ok(())
}
