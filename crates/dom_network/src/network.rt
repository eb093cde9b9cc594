//! Constraint networks.
ghost use Rattle.std.specs.Prelude.{◌≡◌, ◌<◌, ◌≤◌, length, slice_get, Some, None, IfOk};
ghost use Rattle.dom_definers.specs.Definers.{definer_at};
ghost use Rattle.dom_definers.specs.Hulls.{IsSmallHull, hull_at};
ghost use Rattle.dom_network.specs.Free.{free_of};
ghost use Rattle.dom_network.specs.Network.{IsNetwork, network_of};
ghost use Rattle.dom_network.specs.Place.{IsPlace};
ghost use Rattle.dom_network.specs.Tables.{AreDependentsIn, AreReadersIn};

use crate::places::free_and_places;
use crate::tables::{dependents_of, readers_of};
use any_kind::AnyKind;
use digraph::Digraph;
use dom_core::{Domain, Interval, VarId};
use dom_definers::Hulls;
use std::alloc::{AllocError, Global};
use std::marker::Model;

/// Constraints over variables, some of which are defined by a constraint; each other, free variable has a domain.
#[derive(Drop)]
pub struct Network {
    pub(crate) constraints: Vec<AnyKind>,
    pub(crate) definers: Vec<Option<usize>>,
    pub(crate) order: Vec<usize>,
    hulls: Hulls,
    pub(crate) free: Vec<VarId>,
    places: Vec<Option<usize>>,
    pub(crate) domains: Vec<Domain>,
    readers: Digraph,
    dependents: Digraph,
}

impl Model for Network {
    ghost use Rattle.dom_network.specs.Network.{Network, network_of};
    ghost use Rattle.dom_network.specs.Tables.{IsKept};

    ghost Value = { Network };

    ghost view = { λ n. network_of n.constraints.items n.definers.items n.hulls n.domains.items };

    ghost invariant = { λ n. IsKept
        (network_of n.constraints.items n.definers.items n.hulls n.domains.items)
        n.order.items n.free.items n.places.items n.readers n.dependents };
}

impl Network {
    /// A network of these parts.
    pub fn new(
        alloc: Global,
        constraints: Vec<AnyKind>,
        definers: Vec<Option<usize>>,
        order: Vec<usize>,
        hulls: Hulls,
        domains: Vec<Domain>,
    ) -> Result<Network, AllocError>
        requires { IsNetwork (network_of constraints.items definers.items hulls domains.items) order.items }
        ensures { IfOk result (λ n. n ≡ network_of constraints.items definers.items hulls domains.items) }
    {
        let (free, places) = free_and_places(alloc, definers.as_slice())?;
        let readers = readers_of(alloc, constraints.as_slice(), definers.len())?;
        let dependents = dependents_of(
            alloc,
            constraints.as_slice(),
            definers.as_slice(),
            order.as_slice(),
        )?;
        Ok(Network {
            constraints,
            definers,
            order,
            hulls,
            free,
            places,
            domains,
            readers,
            dependents,
        })
    }

    /// How many variables there are.
    pub fn vars(&self) -> usize
        ensures count { result ≡ length self.now.hulls }
        ensures whole { length self.now.definers ≡ length self.now.hulls }
        ensures few { result ≤ 100000 }
    {
        self.hulls.len()
    }

    pub fn constraints(&self) -> &[AnyKind]
        ensures { result.now ≡ self.now.constraints }
    {
        self.constraints.as_slice()
    }

    /// The variables that nothing defines, in order of declaration.
    pub fn free(&self) -> &[VarId]
        ensures { result.now ≡ free_of self.now.definers }
    {
        self.free.as_slice()
    }

    /// The place of the constraint that defines the variable, where there is one.
    pub fn definer(&self, var: VarId) -> Option<usize>
        requires { var.0 < length self.now.definers }
        ensures { result ≡ definer_at self.now.definers var.0 }
    {
        self.definers[var.0 as usize]
    }

    /// The least interval that is known to hold all values of the variable.
    pub fn hull(&self, var: VarId) -> Interval
        requires { var.0 < length self.now.hulls }
        ensures hull { hull_at self.now.hulls var.0 ≡ Some result }
        ensures small { IsSmallHull (Some result) }
    {
        match self.hulls.hull(var) {
            Some(hull) => hull,
            None => Interval::new(0, 0),
        }
    }

    /// The variable's place in the list of free ones, and none exactly where it is defined.
    pub fn place(&self, var: VarId) -> Option<usize>
        requires { var.0 < length self.now.definers }
        ensures { IsPlace self.now.definers var.0 result }
    {
        self.places[var.0 as usize]
    }

    /// The domain of the free variable at this place.
    pub fn domain(&self, place: usize) -> &Domain
        requires { place < length (free_of self.now.definers) }
        ensures { slice_get self.now.domains place ≡ Some result.now }
    {
        &self.domains[place]
    }

    /// The places of the constraints that read the variable, in order.
    pub fn readers(&self, var: VarId) -> &[usize]
        requires { var.0 < length self.now.definers }
        ensures { AreReadersIn self.now.constraints var.0 result.now }
    {
        self.readers.successors(var.0 as usize)
    }

    /// The numbers of the variables that depend on the free one, each behind those that its definition reads.
    pub fn dependents(&self, var: VarId) -> &[usize]
        requires below { var.0 < length self.now.definers }
        requires free { definer_at self.now.definers var.0 ≡ None }
        ensures { AreDependentsIn self.now var.0 result.now }
    {
        self.dependents.successors(var.0 as usize)
    }
}
