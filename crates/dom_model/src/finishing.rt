//! From what was put together to its model, or to its first fault.
ghost use Rattle.std.specs.Prelude.{◌≡◌, ◌≤◌, ◌<◌, length, map, replicate, true, IfOk, MatchOption};
ghost use Rattle.digraph.specs.Cycle.{HasCycle};
ghost use Rattle.digraph.specs.Order.{IsOrder};
ghost use Rattle.dom_domains.specs.FreeDomains.{AreFreeDomains, free_domains};
ghost use Rattle.dom_model.specs.Finished.{AreDefined, Finishes, HasNoFault, IsFinished, IsFirstOfCycle, error_of, graph_of, kept};

use crate::builder::ModelBuilder;
use crate::error::BuildError;
use crate::model::Model;
use any_kind::AnyKind;
use digraph::{Digraph, ordered_is_acyclic};
use dom_core::{Domain, NoMemory, VarId};
use dom_definers::{Hulls, Posted, every_hull_is_known};
use dom_domains::{DomainFault, restrictions_of};
use dom_limits::Counted;
use dom_network::Network;
use std::alloc::Global;

impl ModelBuilder {
    /// The model of what was put together, or its first fault.
    pub fn finish(self) -> Result<Model, BuildError>
        ensures { Finishes self result }
    {
        let first = self.first_definers()?;
        let graph = self.graph(first.as_slice())?;
        match graph.order(self.alloc)? {
            None => Err(first_of_cycle(self.alloc, &graph)),
            Some(order) => {
                let hulls = self.hulls(first.as_slice(), order.as_slice())?;
                self.finish_over(first.as_slice(), order, hulls)
            }
        }
    }

    /// The model, where the hulls are known.
    fn finish_over(
        self,
        first: &[Option<usize>],
        order: Vec<usize>,
        hulls: Hulls,
    ) -> Result<Model, BuildError>
        requires defined { AreDefined self first.now hulls }
        requires order { IsOrder (graph_of self first.now) order.items }
        ensures { Finishes self result }
    {
        let definers = self.kept_definers(first, &hulls)?;
        match self.domains(definers.as_slice()) {
            Ok(domains) => self.finish_with(first, order, hulls, definers, domains),
            Err(fault) => Err(error_of(fault)),
        }
    }

    /// The model, where every variable has a domain or a definition.
    fn finish_with(
        self,
        first: &[Option<usize>],
        order: Vec<usize>,
        hulls: Hulls,
        definers: Vec<Option<usize>>,
        domains: Vec<Domain>,
    ) -> Result<Model, BuildError>
        requires defined { AreDefined self first.now hulls }
        requires order { IsOrder (graph_of self first.now) order.items }
        requires definers { definers.items ≡ kept self first.now hulls }
        requires domains { AreFreeDomains self.variables definers.items domains.items }
        ensures { Finishes self result }
    {
        match too_many(domains.as_slice()) {
            Some(count) => Err(BuildError::TooMany {
                what: Counted::Free,
                count,
            }),
            None => self.finish_few(first, order, hulls, definers, domains),
        }
    }

    /// The model, where few variables are free.
    fn finish_few(
        self,
        first: &[Option<usize>],
        order: Vec<usize>,
        hulls: Hulls,
        definers: Vec<Option<usize>>,
        domains: Vec<Domain>,
    ) -> Result<Model, BuildError>
        requires defined { AreDefined self first.now hulls }
        requires order { IsOrder (graph_of self first.now) order.items }
        requires definers { definers.items ≡ kept self first.now hulls }
        requires domains { AreFreeDomains self.variables definers.items domains.items }
        requires few { length domains.items ≤ 4096 }
        ensures { Finishes self result }
    {
        match self.too_wide(first, definers.as_slice(), &hulls) {
            Some(constraint) => Err(BuildError::TooWide { constraint }),
            None => Ok(self.assemble(first, order, hulls, definers, domains)?),
        }
    }

    /// The model of these parts.
    fn assemble(
        self,
        first: &[Option<usize>],
        order: Vec<usize>,
        hulls: Hulls,
        definers: Vec<Option<usize>>,
        domains: Vec<Domain>,
    ) -> Result<Model, NoMemory>
        requires faultless { HasNoFault self first.now hulls }
        requires order { IsOrder (graph_of self first.now) order.items }
        requires definers { definers.items ≡ kept self first.now hulls }
        requires domains { domains.items ≡ free_domains self.variables definers.items }
        ensures { IfOk result (IsFinished self) }
    {
        ordered_is_acyclic();
        every_hull_is_known();
        let ModelBuilder {
            alloc,
            variables,
            constraints,
            goal,
            outputs,
        } = self;
        let mut kinds = kinds_of(alloc, constraints)?;
        restrictions_of(alloc, variables.as_slice(), definers.as_slice(), &mut kinds)?;
        let network = Network::new(alloc, kinds, definers, order, hulls, domains)?;
        Ok(Model {
            variables,
            network,
            goal,
            outputs,
        })
    }
}

/// How many domains there are, where they are too many.
fn too_many(domains: &[Domain]) -> Option<u64>
    ensures { MatchOption result (length domains.now ≤ 4096) (λ n. (n ≡ length domains.now) × (4096 < n)) }
{
    let count = domains.len() as u64;
    if Counted::Free.limit() < count {
        Some(count)
    } else {
        None
    }
}

/// The first node on a cycle.
fn first_of_cycle(alloc: Global, graph: &Digraph) -> BuildError
    requires cycle { HasCycle graph.now }
    requires few { length graph.now ≤ 100000 }
    ensures { IsFirstOfCycle graph.now result }
{
    let Ok(among) = all_of(alloc, graph.len()) else {
        return BuildError::Memory;
    };
    match graph.first_on_cycle(alloc, among.as_slice()) {
        Ok(Some(node)) => BuildError::CyclicDefinition {
            var: VarId(node as u32),
        },
        Ok(None) => unreachable!(),
        Err(_) => BuildError::Memory,
    }
}

/// So many nodes, each asked for.
fn all_of(alloc: Global, count: usize) -> Result<Vec<bool>, NoMemory>
    ensures { IfOk result (λ v. v.items ≡ replicate count true) }
{
    Ok(vec![in alloc; true; count]?)
}

fn error_of(fault: DomainFault) -> BuildError
    ensures { result ≡ error_of fault }
{
    match fault {
        DomainFault::Empty { var } => BuildError::EmptyDomain { var },
        DomainFault::Unbounded { var } => BuildError::Unbounded { var },
        DomainFault::TooLarge { var, count } => BuildError::DomainTooLarge { var, count },
        DomainFault::Memory => BuildError::Memory,
    }
}

/// The kinds of the constraints, in order.
fn kinds_of(alloc: Global, constraints: Vec<Posted>) -> Result<Vec<AnyKind>, NoMemory>
    ensures { IfOk result (λ v. v.items ≡ map (λ c. c.kind) constraints.items) }
{
    let mut kinds = Vec::new(alloc);
    for posted in constraints {
        kinds.push(posted.kind)?;
    }
    Ok(kinds)
}
