//! Which elements are of an expression, at a cost that goes by them and by what properties lead to from them.
ghost use Rattle.certificate.specs.View.{listed_of, pair_row_of};
ghost use Rattle.listed_model.specs.Extensions.{AreAscending, AreThose};
ghost use Rattle.listed_model.specs.Interpretations.{class_members};
ghost use Rattle.listed_model.specs.Listing.{targets_of};
ghost use Rattle.listed_model.specs.Members.{holds};
ghost use Rattle.listed_model.specs.Rows.{AreClassRows, ArePairRows, Joined};
ghost use Rattle.listed_model.specs.Testers.{IsReady};
ghost use Rattle.std.specs.List.Sorted.{IsStrictlyIncreasing};
ghost use Rattle.std.specs.Prelude.{◌<◌, ◌≡◌, ◌↔◌, IfOk, length, map, true, ℕ};

use crate::ascending::{common, put_in_order};
use crate::meeting::have_common;
use crate::rows::{elements_at, rows_of, targets_at};
use crate::tester::Tester;
use axioms::{Expr, ExprId, Memory, PropId};
use certificate::{Listed, PairRow};
use std::alloc::Global;

// Those of the elements that are of the class.
fn class_among(
    alloc: Global,
    listed: &Listed,
    class: ExprId,
    elements: &[u32],
) -> Result<Vec<u32>, Memory>
    requires rows { AreClassRows listed.now.classes.items }
    requires elements { AreAscending listed.now.domain elements.now }
    ensures ascending { IfOk result (λ those. IsStrictlyIncreasing those.items) }
    ensures members { IfOk result (λ those. (x : ℕ) → (holds those.items x ≡ true)
        ↔ ((holds elements.now x ≡ true) × (holds (class_members (listed_of listed.now) class.0) x ≡ true))) }
{
    if class == ExprId::THING {
        return Ok(Vec::from_slice(alloc, elements)?);
    }
    if class == ExprId::NOTHING {
        return Ok(Vec::new(alloc));
    }
    common(alloc, elements, elements_at(&listed.classes, class))
}

// What the property leads to from the sources, ascending.
fn targets_from(
    alloc: Global,
    rows: &[PairRow],
    property: PropId,
    sources: &[u32],
) -> Result<Vec<u32>, Memory>
    requires { ArePairRows rows.now }
    ensures ascending { IfOk result (λ targets. IsStrictlyIncreasing targets.items) }
    ensures members { IfOk result (λ targets. (y : ℕ) → (holds targets.items y ≡ true)
        ↔ ((x : ℕ) × (holds sources.now x ≡ true) × (holds (targets_of (map pair_row_of rows.now) property.0 x) y ≡ true))) }
{
    let mut targets = Vec::new(alloc);
    for source in sources {
        targets.extend_from_slice(targets_at(rows, property, *source))?;
    }
    put_in_order(&mut targets);
    Ok(targets)
}

/// What the property leads to others from, ascending.
pub(crate) fn sources_of(
    alloc: Global,
    rows: &[PairRow],
    property: PropId,
) -> Result<Vec<u32>, Memory>
    requires { ArePairRows rows.now }
    ensures ascending { IfOk result (λ sources. IsStrictlyIncreasing sources.items) }
    ensures members { IfOk result (λ sources. (x : ℕ) → (holds sources.items x ≡ true)
        ↔ ((y : ℕ) × (holds (targets_of (map pair_row_of rows.now) property.0 x) y ≡ true))) }
{
    let mut sources = Vec::new(alloc);
    for row in rows_of(rows, property) {
        sources.push(row.source)?;
    }
    put_in_order(&mut sources);
    Ok(sources)
}

// Those of the sources that the property joins to one of the fillers.
fn joined_among(
    alloc: Global,
    rows: &[PairRow],
    property: PropId,
    sources: &[u32],
    fillers: &[u32],
) -> Result<Vec<u32>, Memory>
    requires rows { ArePairRows rows.now }
    requires sources { IsStrictlyIncreasing sources.now }
    requires fillers { IsStrictlyIncreasing fillers.now }
    ensures ascending { IfOk result (λ joined. IsStrictlyIncreasing joined.items) }
    ensures members { IfOk result (λ joined. (x : ℕ) → (holds joined.items x ≡ true)
        ↔ ((holds sources.now x ≡ true) × Joined (map pair_row_of rows.now) property.0 fillers.now x)) }
{
    let mut joined = Vec::new(alloc);
    for source in sources {
        if have_common(targets_at(rows, property, *source), fillers) {
            joined.push(*source)?;
        }
    }
    Ok(joined)
}

impl Tester<'_> {
    /// Those of the elements that are of the expression, ascending.
    pub(crate) fn those_in(&self, expression: ExprId, elements: &[u32]) -> Result<Vec<u32>, Memory>
        requires ready { IsReady self.now }
        requires there { expression.0 < length self.now.ontology.now.nodes }
        requires elements { AreAscending self.now.listed.now.domain elements.now }
        ensures { IfOk result (λ those. AreThose self.now.ontology.now (listed_of self.now.listed.now) expression.0 elements.now those.items) }
    {
        if let Some(list) = self.kept.at(self.listed, expression) {
            return common(self.alloc, elements, list);
        }
        match self.ontology.expr(expression) {
            Some(Expr::Class(_)) => class_among(self.alloc, self.listed, expression, elements),
            Some(Expr::And(operands)) => {
                let mut those = Vec::from_slice(self.alloc, elements)?;
                for operand in operands {
                    those = self.those_in(*operand, &those)?;
                }
                Ok(those)
            }
            Some(Expr::Some(property, filler)) => {
                let targets = targets_from(self.alloc, &self.listed.pairs, *property, elements)?;
                let fillers = self.those_in(*filler, &targets)?;
                joined_among(
                    self.alloc,
                    &self.listed.pairs,
                    *property,
                    elements,
                    &fillers,
                )
            }
            // The expression is one of the ontology.
            None => unreachable!(),
        }
    }
}
