ghost use Rattle.std.specs.Prelude.{IfOk};
ghost use Rattle.dom_core.specs.Rises.{Rises};
ghost use Rattle.kind_parts.specs.Set.{IsSorted};

use super::*;
use dom_cells::{Cells, Start};
use dom_core::{Arg, Domain, Interval, Relation, Set, Values, VarId};
use std::test::Fail;

const X: VarId = VarId(3);

const Y: VarId = VarId(1);

#[test]
fn variables_stand_once_in_the_order_of_their_arguments(rt: HostRuntime) -> Result<(), Fail> {
    let args = [Arg::Var(X), Arg::Const(7), Arg::Var(Y), Arg::Var(X)];
    let all = distinct_vars(rt.alloc(), args.as_slice())?;
    assert!(rt; !all.is_single());
    assert_eq!(rt; all.into_vars().as_slice(), [X, Y].as_slice());
    let some = distinct_vars(rt.alloc(), &args[..3])?;
    assert!(rt; some.is_single());
    assert_eq!(rt; some.into_vars().as_slice(), [X, Y].as_slice());
    Ok(())
}

#[test]
fn an_output_stands_last_unless_it_is_listed(rt: HostRuntime) -> Result<(), Fail> {
    let x = arg_vars(rt.alloc(), Arg::Var(X))?;
    assert!(rt; is_new(x.as_slice(), Arg::Var(Y)));
    assert!(rt; !is_new(x.as_slice(), Arg::Var(X)));
    assert!(rt; is_among(x.as_slice(), X));
    assert!(rt; is_on(Arg::Var(Y), Y));
    let both = with_output(rt.alloc(), x.as_slice(), Arg::Var(Y))?;
    assert_eq!(rt; both.as_slice(), [X, Y].as_slice());
    let same = with_output(rt.alloc(), x.as_slice(), Arg::Var(X))?;
    assert_eq!(rt; same.as_slice(), [X].as_slice());
    Ok(())
}

#[test]
fn relations_over_an_interval_are_certain_refuted_or_open(rt: HostRuntime) -> Result<(), Fail> {
    for (relation, bound, lo, hi) in [
        (Relation::AtMost, 5, 1, 1),
        (Relation::AtMost, 4, 0, 1),
        (Relation::AtMost, 1, 0, 0),
        (Relation::Equal, 4, 0, 1),
        (Relation::Equal, 6, 0, 0),
        (Relation::Differ, 6, 1, 1),
        (Relation::Differ, 3, 0, 1),
    ] {
        let truths = truth_over(relation, Interval::new(2, 5), bound);
        assert_eq!(rt; truths, Interval::new(lo, hi), "{relation:?} {bound}");
    }
    assert!(rt; is_met(Relation::Differ, 4, 5));
    assert!(rt; is_certain(Relation::Equal, Interval::new(4, 4), 4));
    assert!(rt; is_refuted(Relation::Differ, Interval::new(4, 4), 4));
    assert!(rt; is_only(Interval::new(4, 4), 4));
    assert!(rt; is_equality(Relation::Equal));
    assert!(rt; is_difference(Relation::Differ));
    Ok(())
}

#[test]
fn a_relation_stays_where_its_number_moves_the_right_way(rt: HostRuntime) -> Result<(), Fail> {
    let (falls, after) = (Interval::new(-3, 0), Interval::new(1, 9));
    assert!(rt; is_kept(Relation::AtMost, falls, after, 5));
    assert!(rt; !is_kept(Relation::Equal, falls, after, 5));
    assert!(rt; is_kept(Relation::Differ, falls, after, 10));
    assert_eq!(rt; bound_row(falls), Interval::new(0, 1));
    Ok(())
}

/// The set of these values, which rise.
fn listed(rt: &HostRuntime, values: &[i64]) -> Result<Set, Fail>
    requires { Rises values.now }
    ensures { IfOk result IsSorted }
{
    Ok(Set::Values(Values::from_slice(rt.alloc(), values)?))
}

#[test]
#[tactic(auto, using(crate::proofs::SetLaws::rises_by_steps))]
fn a_list_without_a_gap_is_a_range(rt: HostRuntime) -> Result<(), Fail> {
    let row = listed(&rt, &[4, 5, 6])?;
    let plain = plain_of(rt.alloc(), &row)?;
    assert!(rt; matches!(plain, Set::Range { lo: 4, hi: 6 }));
    assert!(rt; set_has(&plain, 5));
    assert!(rt; set_keeps(&row, Interval::new(-2, 2), Interval::new(4, 6)));
    assert!(rt; !set_keeps(&row, Interval::new(-2, 2), Interval::new(4, 7)));
    let domain = Domain::from_values(rt.alloc(), [1, 4, 9].as_slice())
        .ok()
        .ok_or("no domain")?;
    let cells = Cells::new(rt.alloc(), &[Start::Values(domain)])?;
    assert!(rt; set_meets(&plain, &cells, VarId(0)));
    let hole = Set::Range { lo: 5, hi: 8 };
    assert!(rt; !set_meets(&hole, &cells, VarId(0)));
    Ok(())
}
