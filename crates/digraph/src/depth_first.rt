//! A walk in depth through a graph, which puts each node behind its successors.
ghost use Rattle.std.specs.Prelude.{◌≡◌, ◌+◌, ◌-◌, ◌<◌, ◌^◌, [], length, slice_get, slice_index_or, IfOk, OnOk, OnSome, MatchBool};
ghost use Rattle.digraph.specs.Cycle.{HasCycle};
ghost use Rattle.digraph.specs.Descent.{IsTop, LooksAt, IsDescent, IsStep, IsBack, IsRested, state_at, edge_of, put, fresh_of, entered, left};

use crate::graph::Digraph;
use std::alloc::{AllocError, Global};
use std::marker::Model;

/// How a node stands: not come to yet, on the path with the edge that comes next, or done with all that it leads to.
#[derive(Clone, Copy)]
pub(crate) enum State {
    Fresh,
    Open { edge: usize },
    Done,
}

/// A walk in depth: how each node stands, the path to where the walk is, and the nodes that are done, in order.
#[derive(Drop)]
pub(crate) struct DepthFirst {
    states: Vec<State>,
    path: Vec<usize>,
    order: Vec<usize>,
}

impl Model for DepthFirst {
    ghost use Rattle.digraph.specs.Descent.{Descent};

    ghost Value = { Descent };

    ghost view = { λ d. record { states = d.states.items; path = d.path.items; order = d.order.items } };
}

impl DepthFirst {
    /// Nothing is begun of so many nodes.
    pub(crate) fn new(alloc: Global, count: usize) -> Result<DepthFirst, AllocError>
        ensures { IfOk result (λ d. d ≡ fresh_of count) }
    {
        Ok(DepthFirst {
            states: vec![in alloc; State::Fresh; count]?,
            path: Vec::new(alloc),
            order: Vec::new(alloc),
        })
    }

    /// The nodes that are done.
    pub(crate) fn into_order(self) -> Vec<usize>
        ensures { result.items ≡ self.order }
    {
        self.order
    }

    // What is no node is done.
    fn at(&self, node: usize) -> State
        ensures { result ≡ state_at self.now node }
    {
        match self.states.get(node) {
            Some(state) => *state,
            None => State::Done,
        }
    }

    fn edge(&self, node: usize) -> usize
        ensures { result ≡ edge_of (state_at self.now node) }
    {
        match self.at(node) {
            State::Fresh => 0,
            State::Open { edge } => edge,
            State::Done => 0,
        }
    }

    fn top(&self) -> Option<usize>
        ensures { result ≡ slice_get self.now.path (length self.now.path - 1) }
    {
        self.path.last().copied()
    }

    fn put(&mut self, node: usize, state: State)
        requires { node < length self.old.states }
        ensures { self.new ≡ put self.old node state }
    {
        self.states[node] = state;
    }

    fn enter(&mut self, node: usize) -> Result<(), AllocError>
        requires { node < length self.old.states }
        ensures { OnOk result (self.new ≡ entered self.old node) }
    {
        self.path.push(node)?;
        self.put(node, State::Open { edge: 0 });
        Ok(())
    }

    fn leave(&mut self, node: usize) -> Result<(), AllocError>
        requires { node < length self.old.states }
        ensures { OnOk result (self.new ≡ left self.old node) }
    {
        self.order.push(node)?;
        self.path.pop();
        self.put(node, State::Done);
        Ok(())
    }

    // Looks at a successor of the node, whose next edge is then this one; false where it stands on the path.
    fn look_at(&mut self, node: usize, next: usize, to: usize) -> Result<bool, AllocError>
        requires { node < length self.old.states }
        ensures { IfOk result (λ b. LooksAt (state_at self.old to) self.old node next to b self.new) }
    {
        match self.at(to) {
            State::Fresh => self.enter(to)?,
            State::Open { edge: _ } => return Ok(false),
            State::Done => self.put(node, State::Open { edge: next }),
        }
        Ok(true)
    }

    // One step from where the path ends; false where it closes a cycle.
    fn step(&mut self, graph: &Digraph, node: usize) -> Result<bool, AllocError>
        requires known { IsDescent graph.now self.old }
        requires top { IsTop self.old.path node }
        ensures { IfOk result (λ b. MatchBool b (IsStep graph.now self.old self.new) (HasCycle graph.now)) }
    {
        let edge = self.edge(node);
        match successor_at(graph, node, edge) {
            Some(to) => self.look_at(node, edge + 1, to),
            None => {
                self.leave(node)?;
                Ok(true)
            }
        }
    }

    // Walks on until the path is empty; false where a step closes a cycle.
    fn finish(&mut self, graph: &Digraph) -> Result<bool, AllocError>
        requires { IsDescent graph.now self.old }
        ensures { IfOk result (λ b. MatchBool b (IsBack graph.now self.old self.new) (HasCycle graph.now)) }
    {
        while let Some(node) = self.top() {
            if !self.step(graph, node)? {
                return Ok(false);
            }
        }
        Ok(true)
    }

    /// Walks from this node, unless it is done; false where a cycle is found.
    pub(crate) fn explore(&mut self, graph: &Digraph, root: usize) -> Result<bool, AllocError>
        requires rested { IsRested graph.now root self.old }
        requires node { root < length graph.now }
        ensures { IfOk result
            (λ b. MatchBool b (IsRested graph.now (root + 1) self.new) (HasCycle graph.now)) }
    {
        if let State::Fresh = self.at(root) {
            self.enter(root)?;
            return self.finish(graph);
        }
        Ok(true)
    }
}

fn successor_at(graph: &Digraph, node: usize, edge: usize) -> Option<usize>
    requires { node < length graph.now }
    ensures value { result ≡ slice_get (slice_index_or graph.now node []) edge }
    ensures more { OnSome result (edge + 1 < 2 ^ 64) }
{
    graph.successors(node).get(edge).copied()
}
