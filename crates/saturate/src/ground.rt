//! What facts are drawn from.
ghost use Rattle.inference.specs.PropertyClosures.{IsClosureOf};
ghost use Rattle.inference.specs.Sameness.{AreGroupsOf};
ghost use Rattle.inference.specs.Joins.{AreJoins};
ghost use Rattle.normal_forms.specs.Apart.{no_lists};
ghost use Rattle.std.specs.Prelude.{◌≡◌, ◌++◌, [], IfOk, length, take};

use crate::summary::Summary;
use axioms::Memory;
use facts::Context;
use indexes::{Groups, IndexedProblem};
use inference::Joins;
use normal_forms::{ApartLists, FormList};
use property_closure::PropertyClosure;
use std::alloc::Global;
use std::marker::Model;

/// Normal forms, lists of what is apart and the contexts that are there from the start, with what the forms say of properties, which
/// individuals they make one, and which edges their chains join. Of these three grounds have in the same memory what is the same.
#[derive(Drop)]
pub struct Ground {
    problem: IndexedProblem,
    summary: Summary,
}

impl Model for Ground {
    ghost use Rattle.facts.specs.Closure.{Problem};
    ghost use Rattle.saturate.specs.Summaries.{IsSummaryOf};

    ghost Value = { Problem };

    ghost view = { λ g. g.problem };

    ghost invariant = { λ g. IsSummaryOf g.problem.forms g.summary };
}

impl Ground {
    /// No forms, no lists and no contexts.
    pub(crate) fn empty(alloc: Global) -> Result<Ground, Memory>
        ensures forms { IfOk result (λ g. g.forms ≡ []) }
        ensures apart { IfOk result (λ g. g.apart ≡ no_lists) }
        ensures roots { IfOk result (λ g. g.roots ≡ []) }
    {
        let problem = IndexedProblem::new(
            alloc,
            FormList::new(alloc),
            ApartLists::new(alloc),
            Vec::new(alloc),
        )?;
        let summary = Summary::of(alloc, &problem)?;
        Ok(Ground { problem, summary })
    }

    /// These forms, which begin with its own, and lists, and the same contexts with those that are added. What the added forms say
    /// nothing new of is in the same memory.
    pub(crate) fn continued(
        &self,
        alloc: Global,
        forms: &FormList,
        apart: &ApartLists,
        roots: &[Context],
    ) -> Result<Ground, Memory>
        requires { take (length self.now.forms) forms.now ≡ self.now.forms }
        ensures forms { IfOk result (λ g. g.forms ≡ forms.now) }
        ensures apart { IfOk result (λ g. g.apart ≡ apart.now) }
        ensures roots { IfOk result (λ g. g.roots ≡ self.now.roots ++ roots.now) }
    {
        let from = self.problem.forms().len();
        let problem = self.problem.continued(forms, apart, roots)?;
        let summary = self.summary.continued(alloc, &problem, from)?;
        Ok(Ground { problem, summary })
    }

    /// The forms, lists and contexts.
    pub fn problem(&self) -> &IndexedProblem
        ensures { result.now ≡ self.now }
    {
        &self.problem
    }

    /// What the forms say of properties.
    pub fn closure(&self) -> &PropertyClosure
        ensures { IsClosureOf self.now.forms result.now }
    {
        self.summary.closure.as_ref()
    }

    /// Which individuals the forms make one.
    pub fn groups(&self) -> &Groups
        ensures { AreGroupsOf self.now.forms result.now }
    {
        self.summary.groups.as_ref()
    }

    /// Which edges the chains join.
    pub(crate) fn joins(&self) -> &Joins
        ensures { AreJoins self.now.forms result.now }
    {
        self.summary.joins.as_ref()
    }
}
