//! A directed graph.
ghost use Rattle.std.specs.Prelude.{◌≡◌, ◌<◌, ◌≤◌, ◌+◌, ◌-◌, [], length, take, drop, slice_index_or, IfOk, OnOk, OnErr, Bool, MatchOption};
ghost use Rattle.digraph.specs.Cycle.{HasNoneOnCycle, IsFirstOnCycle};
ghost use Rattle.digraph.specs.Grown.{GainsNode, GainsEdge};

use crate::{cycle, ranking};
use std::alloc::{AllocError, Global};
use std::marker::Model;

/// A directed graph: for each node its successors. Nodes are numbered from 0 in the order in which they are added.
#[derive(Debug, Drop)]
pub struct Digraph {
    starts: Vec<usize>,
    targets: Vec<usize>,
}

impl Model for Digraph {
    ghost use Rattle.std.specs.Prelude.{List, ℕ, length};
    ghost use Rattle.digraph.specs.Rows.{rows_of, Rises};

    ghost Value = { List (List ℕ) };

    ghost view = { λ g. rows_of g.starts.items g.targets.items };

    ghost invariant = { λ g. Rises g.starts.items (length g.targets.items) };
}

impl Digraph {
    /// A graph without nodes.
    pub fn new(alloc: Global) -> Digraph
        ensures { result ≡ [] }
    {
        Digraph {
            starts: Vec::new(alloc),
            targets: Vec::new(alloc),
        }
    }

    /// How many nodes there are.
    pub fn len(&self) -> usize
        ensures { result ≡ length self.now }
    {
        self.starts.len()
    }

    /// How many successors all nodes have together.
    pub(crate) fn edges(&self) -> usize {
        self.targets.len()
    }

    /// Adds a node, which has no successors yet.
    pub fn node(&mut self) -> Result<(), AllocError>
        ensures ok { OnOk result (GainsNode self.old self.new) }
        ensures err { OnErr result (self.new ≡ self.old) }
    {
        let start = self.targets.len();
        self.starts.push(start)?;
        Ok(())
    }

    /// Adds a successor to the last node. It may be a node that is added later, or none, and then leads nowhere.
    pub fn edge(&mut self, to: usize) -> Result<(), AllocError>
        requires { 0 < length self.old }
        ensures ok { OnOk result (GainsEdge self.old to self.new) }
        ensures err { OnErr result (self.new ≡ self.old) }
    {
        self.targets.push(to)?;
        Ok(())
    }

    /// The node's successors in the order in which they were added.
    pub fn successors(&self, node: usize) -> &[usize]
        requires { node < length self.now }
        ensures { result.now ≡ slice_index_or self.now node [] }
    {
        let start = self.starts[node];
        let end = next_of(&self.starts, node, self.targets.len());
        part(&self.targets, start, end)
    }

    /// The first node among these that reaches itself by one edge or more.
    pub fn first_on_cycle(&self, alloc: Global, among: &[bool]) -> Result<Option<usize>, AllocError>
        requires { length among.now ≡ length self.now }
        ensures { IfOk result (λ first. MatchOption first (HasNoneOnCycle self.now among.now) (IsFirstOnCycle self.now among.now)) }
    {
        let ranks = ranking::ranks_of(alloc, self)?;
        for (node, asked) in among.iter().enumerate() {
            if *asked && cycle::lies_on_cycle(alloc, self, &ranks, node)? {
                return Ok(Some(node));
            }
        }
        Ok(None)
    }
}

// What stands behind this place, or `end` where nothing does.
fn next_of(starts: &[usize], place: usize, end: usize) -> usize
    requires { place < length starts.now }
    ensures { result ≡ slice_index_or starts.now (place + 1) end }
{
    match starts.get(place + 1) {
        Some(next) => *next,
        None => end,
    }
}

fn part(targets: &[usize], start: usize, end: usize) -> &[usize]
    requires order { start ≤ end }
    requires within { end ≤ length targets.now }
    ensures { result.now ≡ take (end - start) (drop start targets.now) }
{
    &targets[start..end]
}
