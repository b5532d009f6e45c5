//! A plan in a box, so that what carries it is small. Contracts see it by its content.

ghost use Rattle.std.specs.Prelude.{◌≡◌, IfOk};

use pulsar_searches::plan::SearchPlan;
use pulsar_wire::error::NoMemory;
use std::alloc::Global;
use std::marker::Model;

/// Where a plan stands.
#[derive(Drop)]
pub struct Kept {
    plan: Box<SearchPlan>,
}

impl Model for Kept {
    ghost use Rattle.pulsar_searches.specs.declared.plan.SearchPlan.{SearchPlan};

    ghost Value = { SearchPlan };

    ghost view = { λ k. k.plan.value };
}

impl Kept {
    /// This plan.
    pub fn new(alloc: Global, plan: SearchPlan) -> Result<Kept, NoMemory>
        ensures { IfOk result (λ k. k ≡ plan) }
    {
        let plan = Box::new(alloc, plan)?;
        Ok(Kept { plan })
    }

    /// The plan without its box.
    pub fn into_inner(self) -> SearchPlan
        ensures { result ≡ self }
    {
        let Kept { plan } = self;
        Box::into_inner(plan)
    }
}
