//! Small graphs, and long ones.
use crate::{Digraph, ordered_is_acyclic};
use std::alloc::{AllocError, Global};

fn shared<T: Send + Sync>(_: &T) {}

// Adds a node with these successors.
fn add(graph: &mut Digraph, row: &[usize]) -> Result<(), AllocError> {
    graph.node()?;
    for to in row {
        graph.edge(*to)?;
    }
    Ok(())
}

fn graph_of(alloc: Global, rows: &[&[usize]]) -> Result<Digraph, AllocError> {
    let mut graph = Digraph::new(alloc);
    for row in rows {
        add(&mut graph, *row)?;
    }
    Ok(graph)
}

// A chain of so many nodes, which leads to a cycle, and behind it a cycle that leads to the chain.
fn chain_between_cycles(alloc: Global, len: usize) -> Result<Digraph, AllocError> {
    let mut graph = Digraph::new(alloc);
    for node in 0..len {
        add(&mut graph, &[node + 1])?;
    }
    add(&mut graph, &[len])?;
    add(&mut graph, &[0, len.saturating_add(1)])?;
    Ok(graph)
}

#[test]
fn no_nodes_have_no_cycle(rt: HostRuntime) {
    let graph = Digraph::new(rt.alloc());
    shared(&graph);
    assert_eq!(rt; graph.len(), 0);
    assert_eq!(rt;
        graph
            .first_on_cycle(rt.alloc(), &[])
            .expect(&rt, "an answer"),
        None
    );
}

#[test]
fn successors_stand_in_order(rt: HostRuntime) {
    let rows: [&[usize]; 3] = [&[1, 7, 1], &[], &[0]];
    let graph = graph_of(rt.alloc(), &rows).expect(&rt, "a graph");
    assert_eq!(rt; graph.len(), 3);
    for node in 0..3 {
        assert!(rt; graph.successors(node) == rows[node], "row {node}");
    }
}

#[test]
fn the_first_on_a_cycle_is_found(rt: HostRuntime) {
    let cases: [(&[&[usize]], &[bool], Option<usize>); 9] = [
        // one node, without and with an edge to itself
        (&[&[]], &[true], None),
        (&[&[0]], &[true], Some(0)),
        (&[&[0]], &[false], None),
        // the first node only leads to a cycle
        (&[&[1], &[2], &[1]], &[true, false, false], None),
        (&[&[1], &[2], &[1]], &[true, true, true], Some(1)),
        // the first of two cycles that is asked for
        (
            &[&[1], &[0], &[3], &[2]],
            &[false, false, true, true],
            Some(2),
        ),
        (
            &[&[1], &[0], &[3], &[2]],
            &[false, true, true, true],
            Some(1),
        ),
        // a node between two cycles
        (&[&[0, 1], &[2], &[2]], &[false, true, false], None),
        // successors that are no nodes
        (&[&[9], &[2], &[4_000_000_000]], &[true, true, true], None),
    ];
    for (case, (rows, among, first)) in cases.iter().enumerate() {
        let graph = graph_of(rt.alloc(), *rows).expect(&rt, "a graph");
        assert_eq!(rt; among.len(), graph.len());
        let found = graph
            .first_on_cycle(rt.alloc(), *among)
            .expect(&rt, "an answer");
        assert!(rt; found == *first, "case {case}");
    }
}

#[test]
fn a_long_chain_between_cycles_is_passed(rt: HostRuntime) {
    let graph = chain_between_cycles(rt.alloc(), 100_000).expect(&rt, "a graph");
    assert_eq!(rt; graph.len(), 100_002);
    let mut among = vec![in rt.alloc(); true; 100_002].expect(&rt, "flags");
    let found = graph
        .first_on_cycle(rt.alloc(), &among)
        .expect(&rt, "an answer");
    assert!(rt; found == Some(100_000), "the cycle at the chain's end");
    among[100_000] = false;
    let found = graph
        .first_on_cycle(rt.alloc(), &among)
        .expect(&rt, "an answer");
    assert!(rt; found == Some(100_001), "the cycle before the chain");
    among[100_001] = false;
    let found = graph
        .first_on_cycle(rt.alloc(), &among)
        .expect(&rt, "an answer");
    assert!(rt; found == None, "the chain alone");
}

#[test]
fn a_long_cycle_is_found(rt: HostRuntime) {
    let mut graph = Digraph::new(rt.alloc());
    for node in 0..1_000_000 {
        add(&mut graph, &[node + 1]).expect(&rt, "a node");
    }
    add(&mut graph, &[0]).expect(&rt, "a node");
    assert_eq!(rt; graph.len(), 1_000_001);
    let among = vec![in rt.alloc(); true; 1_000_001].expect(&rt, "flags");
    let found = graph
        .first_on_cycle(rt.alloc(), &among)
        .expect(&rt, "an answer");
    assert!(rt; found == Some(0), "the whole graph is one cycle");
}

#[test]
fn each_node_stands_behind_its_successors(rt: HostRuntime) {
    ordered_is_acyclic();
    let cases: [(&[&[usize]], Option<&[usize]>); 11] = [
        // no node, one node, one that leads to itself
        (&[], Some(&[])),
        (&[&[]], Some(&[0])),
        (&[&[0]], None),
        // chains both ways
        (&[&[1], &[2], &[]], Some(&[2, 1, 0])),
        (&[&[], &[0], &[1]], Some(&[0, 1, 2])),
        // a diamond: what two nodes lead to stands once, before both
        (&[&[1, 2], &[3], &[3], &[]], Some(&[3, 1, 2, 0])),
        // a successor that is named twice, and one that is done before
        (&[&[2, 2], &[2], &[]], Some(&[2, 0, 1])),
        // successors that are no nodes
        (&[&[9, 1], &[4_000_000_000]], Some(&[1, 0])),
        // a cycle of two, a cycle that other nodes lead to, and one behind nodes that are done
        (&[&[1], &[0]], None),
        (&[&[1], &[2], &[3], &[1]], None),
        (&[&[], &[0], &[3], &[1, 2]], None),
    ];
    for (case, (rows, order)) in cases.iter().enumerate() {
        let graph = graph_of(rt.alloc(), *rows).expect(&rt, "a graph");
        match (graph.order(rt.alloc()).expect(&rt, "an answer"), *order) {
            (Some(found), Some(wanted)) => {
                assert!(rt; found.as_slice() == wanted, "case {case}");
            }
            (None, None) => {}
            _ => panic!(rt; "case {case}"),
        }
    }
}

#[test]
fn a_long_chain_is_ordered(rt: HostRuntime) {
    let mut graph = Digraph::new(rt.alloc());
    for node in 0..100_000 {
        add(&mut graph, &[node + 1]).expect(&rt, "a node");
    }
    assert_eq!(rt; graph.len(), 100_000);
    let order = graph
        .order(rt.alloc())
        .expect(&rt, "an answer")
        .expect(&rt, "an order");
    assert_eq!(rt; order.len(), 100_000);
    for (place, node) in order.iter().enumerate() {
        assert!(rt; place.saturating_add(*node) == 99_999, "place {place}");
    }
}
