//! Small tables, and a long chain.
ghost use Rattle.std.specs.Prelude.{◌≡◌, length};

use crate::lists::add_row;
use crate::{dependents_of, holders_of};
use digraph::Digraph;
use std::alloc::{AllocError, Global};
use std::process::Abort;
use std::test::Fail;

fn rows_of(alloc: Global, rows: &[&[usize]]) -> Result<Digraph, AllocError> {
    let mut table = Digraph::new(alloc);
    for row in rows {
        add_row(&mut table, *row)?;
    }
    Ok(table)
}

// A chain of so many nodes, each of which leads to the next.
fn chain(alloc: Global, len: usize) -> Result<Digraph, AllocError> {
    let mut table = Digraph::new(alloc);
    for node in 0..len {
        add_row(&mut table, &[node + 1])?;
    }
    Ok(table)
}

fn is_table(found: &Digraph, rows: &[&[usize]]) -> bool {
    if found.len() != rows.len() {
        return false;
    }
    for (number, row) in rows.iter().enumerate() {
        if found.len() <= number || found.successors(number) != *row {
            return false;
        }
    }
    true
}

// The dependents along the order that the graph itself gives.
fn dependents(
    rt: &impl Abort,
    alloc: Global,
    graph: &Digraph,
    among: &[bool],
) -> Result<Digraph, AllocError>
    requires { length among.now ≡ length graph.now }
{
    let Some(order) = graph.order(alloc)? else {
        panic!(rt; "a cycle");
    };
    dependents_of(alloc, graph, order.as_slice(), among)
}

#[test]
fn holders_rise_and_dependents_follow_the_order(rt: HostRuntime) -> Result<(), Fail> {
    let alloc = rt.alloc();
    let rows = rows_of(alloc, &[&[2, 0, 2], &[], &[0, 9], &[2, 0]])?;
    let found = holders_of(alloc, &rows, 3)?;
    assert!(rt; is_table(&found, &[&[0, 2, 3], &[], &[0, 3]]));
    // 3 leads to 0 twice, 1 to 3 and 4, 2 to 3 and to what is no node
    let graph = rows_of(alloc, &[&[], &[3, 4], &[3, 9], &[0, 0], &[]])?;
    let among = [true, false, false, false, true];
    assert_eq!(rt; among.len(), graph.len());
    let found = dependents(&rt, alloc, &graph, &among)?;
    assert!(rt; is_table(&found, &[&[3, 1, 2], &[], &[], &[], &[1]]));
    Ok(())
}

#[test]
fn a_long_chain_has_one_list(rt: HostRuntime) -> Result<(), Fail> {
    let alloc = rt.alloc();
    let graph = chain(alloc, 100_000)?;
    let mut among = vec![in alloc; false; 100_000]?;
    among[99_999] = true;
    assert_eq!(rt; among.len(), graph.len());
    let found = dependents(&rt, alloc, &graph, &among)?;
    assert_eq!(rt; found.len(), 100_000);
    assert_eq!(rt; found.successors(99_999).len(), 99_999);
    assert!(rt; found.successors(99_998).is_empty());
    Ok(())
}
