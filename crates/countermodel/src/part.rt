//! The members of what edges lead to.
ghost use Rattle.certificate.specs.View.{class_row_of, listed_of};
ghost use Rattle.certificate.specs.Writability.{IsListedOf};
ghost use Rattle.closure.specs.Denotations.{context_of};
ghost use Rattle.countermodel.specs.ContextLists.{AreAll};
ghost use Rattle.countermodel.specs.FactsOf.{AreFactsOf};
ghost use Rattle.countermodel.specs.Leading.{AreGroupsOf};
ghost use Rattle.countermodel.specs.MemberRows.{AreClassRows};
ghost use Rattle.countermodel.specs.Reached.{IsListedPart, IsReachedFrom};
ghost use Rattle.exactness.specs.ListedInterpretation.{IsBefore, IsConsistent, IsSatisfiable, Leads};
ghost use Rattle.std.specs.Prelude.{AllPairs, IfOk, map};

use crate::class_rows::add_class_rows;
use crate::elements::Elements;
use crate::expressions::expressions_among;
use crate::facts_of::facts_of;
use crate::groups::groups_of;
use crate::individuals::individual_elements;
use crate::member_keys::rows_by_keys;
use crate::rows::add_pair_rows;
use crate::satisfiable::Satisfiable;
use crate::search::{ContextSearch, leader_of, reached_from};
use axioms::Memory;
use certificate::{ClassRow, Listed};
use engine::{Closed, Indexed};
use facts::{Context, StoredFact};
use indexes::Groups;

/// The elements that are reached from the context, which is the least of its group.
fn reached_elements(
    indexed: &Indexed<'_>,
    groups: &Groups,
    from: Context,
) -> Result<Elements, Memory>
    requires groups { AreGroupsOf indexed.now.ontology indexed.now.saturation.normal.asked groups.now }
    requires consistent { IsConsistent indexed.now.ontology indexed.now.saturation.normal.asked }
    requires satisfiable { IsSatisfiable indexed.now.ontology indexed.now.saturation.normal.asked (context_of from) }
    requires leads { Leads indexed.now.ontology indexed.now.saturation.normal.asked (context_of from) }
    ensures { IfOk result (AreAll (IsReachedFrom indexed.now.ontology indexed.now.saturation.normal.asked (context_of from))) }
{
    let closed = indexed.closed();
    let ontology = closed.ontology();
    let alloc = closed.allocator();
    closed.well_formed();
    let ContextSearch { found, seen } = reached_from(indexed, groups, from)?;
    let expressions = expressions_among(alloc, &found)?;
    let satisfiable = Satisfiable::only(alloc, seen)?;
    Elements::of_expressions(alloc, ontology, &expressions, &satisfiable, groups)
}

/// A row for each class that has elements, but for `owl:Thing` and `owl:Nothing`, in order. Where the facts, which are those of the
/// elements' contexts, are few beside the expressions, no list of all expressions is made.
fn class_rows_of(
    closed: &Closed<'_>,
    elements: &Elements,
    facts: &[StoredFact],
) -> Result<Vec<ClassRow>, Memory>
    requires ascend { AllPairs IsBefore elements.now }
    requires facts { AreFactsOf elements.now closed.now.saturation.state.facts facts.now }
    ensures { IfOk result (λ v. AreClassRows closed.now.ontology closed.now.saturation.normal.asked elements.now (map class_row_of v.items)) }
{
    let ontology = closed.ontology();
    let alloc = closed.allocator();
    closed.well_formed();
    if facts.len() < ontology.expression_count() / 8 {
        return rows_by_keys(alloc, ontology, elements, facts);
    }
    let mut rows = Vec::new(alloc);
    add_class_rows(closed, elements, facts, &mut rows)?;
    Ok(rows)
}

/// The members of the part of the interpretation that the closure of a consistent ontology lists that is reached from the context and
/// from the individuals, with no claims, and the number in it of the context's element. What it costs goes by what is reached, but for
/// a look at each individual, and for two tables of the expressions, which are zeroed.
///
/// # Errors
///
/// `Memory` where memory was refused.
pub fn reached_part(indexed: &Indexed<'_>, context: Context) -> Result<(Listed, u32), Memory>
    requires consistent { IsConsistent indexed.now.ontology indexed.now.saturation.normal.asked }
    requires satisfiable { IsSatisfiable indexed.now.ontology indexed.now.saturation.normal.asked (context_of context) }
    ensures part { IfOk result
        (λ part. IsListedPart indexed.now.ontology indexed.now.saturation.normal.asked (context_of context) (listed_of part.0) part.1) }
    // A value can be made of it.
    ensures fits { IfOk result (λ part. IsListedOf indexed.now.ontology (listed_of part.0)) }
{
    let closed = indexed.closed();
    let ontology = closed.ontology();
    let alloc = closed.allocator();
    closed.well_formed();
    let groups = groups_of(closed);
    let from = leader_of(groups, context);
    let elements = reached_elements(indexed, groups, from)?;
    let Some(number) = elements.element(from) else {
        // It is reached from itself.
        unreachable!()
    };
    let facts = facts_of(indexed, elements.contexts())?;
    let classes = class_rows_of(closed, &elements, &facts)?;
    let mut pairs = Vec::new(alloc);
    add_pair_rows(closed, &elements, &facts, &mut pairs)?;
    let individuals = individual_elements(alloc, ontology, groups, &elements)?;
    let listed = Listed {
        domain: elements.len(),
        classes,
        pairs,
        individuals,
        claims: Vec::new(alloc),
    };
    Ok((listed, number))
}
