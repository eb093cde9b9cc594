//! What is found out of what was put together: definers, hulls, domains, and what is too wide.
ghost use Rattle.std.specs.Prelude.{◌≡◌, length, IfOk};
ghost use Rattle.digraph.specs.Order.{IsOrder};
ghost use Rattle.dom_definers.specs.Definers.{AreDefiners};
ghost use Rattle.dom_definers.specs.Width.{wide_from};
ghost use Rattle.dom_domains.specs.FreeDomains.{GivesFreeDomains};
ghost use Rattle.dom_model.specs.Finished.{AreDefined, IsWide, graph_of, kept};

use crate::builder::ModelBuilder;
use digraph::{Digraph, ordered_is_acyclic};
use dom_core::{Domain, NoMemory};
use dom_definers::{Hulls, definers_of, dependence_of, first_too_wide, hulls_of, kept_definers};
use dom_domains::{DomainFault, free_domains};

impl ModelBuilder {
    /// For each variable the place of the first constraint that is to define it.
    #[tactic(auto, using(crate::proofs::FinishLaws::fit_below))]
    pub(crate) fn first_definers(&self) -> Result<Vec<Option<usize>>, NoMemory>
        ensures { IfOk result (λ d. AreDefiners self.now.constraints (length self.now.variables) d.items) }
    {
        let variables = self.variables.as_slice();
        definers_of(self.alloc, variables.len(), self.constraints.as_slice())
    }

    /// The graph in which each variable leads to those that its definition reads.
    pub(crate) fn graph(&self, first: &[Option<usize>]) -> Result<Digraph, NoMemory>
        ensures { IfOk result (λ g. g ≡ graph_of self.now first.now) }
    {
        dependence_of(self.alloc, first, self.constraints.as_slice())
    }

    /// The hulls, where variables stand in such an order behind what their definitions read.
    pub(crate) fn hulls(&self, first: &[Option<usize>], order: &[usize]) -> Result<Hulls, NoMemory>
        requires first { AreDefiners self.now.constraints (length self.now.variables) first.now }
        requires order { IsOrder (graph_of self.now first.now) order.now }
        ensures { IfOk result (λ h. AreDefined self.now first.now h) }
    {
        ordered_is_acyclic();
        hulls_of(
            self.alloc,
            self.variables.as_slice(),
            self.constraints.as_slice(),
            first,
            order,
        )
    }

    /// The definers that stay.
    pub(crate) fn kept_definers(
        &self,
        first: &[Option<usize>],
        hulls: &Hulls,
    ) -> Result<Vec<Option<usize>>, NoMemory>
        requires { AreDefined self.now first.now hulls.now }
        ensures { IfOk result (λ d. d.items ≡ kept self.now first.now hulls.now) }
    {
        ordered_is_acyclic();
        kept_definers(self.alloc, self.constraints.as_slice(), first, hulls)
    }

    /// The domains of the free variables, or the first variable at fault.
    #[tactic(auto, using(crate::proofs::FinishLaws::small_ends_of))]
    pub(crate) fn domains(&self, definers: &[Option<usize>]) -> Result<Vec<Domain>, DomainFault>
        requires { length definers.now ≡ length self.now.variables }
        ensures { GivesFreeDomains self.now.variables definers.now result }
    {
        free_domains(self.alloc, self.variables.as_slice(), definers)
    }

    /// The number of the first constraint that is too wide, from 1.
    pub(crate) fn too_wide(
        &self,
        first: &[Option<usize>],
        definers: &[Option<usize>],
        hulls: &Hulls,
    ) -> Option<u32>
        requires defined { AreDefined self.now first.now hulls.now }
        requires definers { definers.now ≡ kept self.now first.now hulls.now }
        ensures { IsWide (wide_from 0 self.now.constraints definers.now hulls.now) result }
    {
        ordered_is_acyclic();
        match first_too_wide(self.constraints.as_slice(), definers, hulls) {
            None => None,
            Some(place) => {
                let _constraints = self.constraints.len();
                Some(place as u32 + 1)
            }
        }
    }
}
