//! Claims.
ghost use Rattle.certificate.specs.View.{claim_of};
ghost use Rattle.exactness.specs.ListedInterpretation.{IsBefore};
ghost use Rattle.countermodel.specs.Members.{IsOwnElement};
ghost use Rattle.countermodel.specs.MemberRows.{AreOwnClaims};
ghost use Rattle.std.specs.Prelude.{AllPairs, IfOk, MatchOption, map, ℕ};

use crate::elements::Elements;
use axioms::{ExprId, Memory, Ontology};
use certificate::Claim;
use facts::Context;
use std::alloc::Global;

/// The element of its own that the expression has, if it is a named class.
fn own_element(ontology: &Ontology, elements: &Elements, class: ExprId) -> Option<u32>
    ensures { MatchOption result ((m : ℕ) → IsOwnElement ontology.now elements.now class.0 m → ⊥) (IsOwnElement ontology.now elements.now class.0) }
{
    if ontology.class_of(class).is_some() {
        elements.element(Context::Expr(class))
    } else {
        None
    }
}

/// A claim for each named class that has an element of its own, there, in order.
pub(crate) fn own_claims(
    alloc: Global,
    ontology: &Ontology,
    elements: &Elements,
) -> Result<Vec<Claim>, Memory>
    requires { AllPairs IsBefore elements.now }
    ensures { IfOk result (λ v. AreOwnClaims ontology.now elements.now (map claim_of v.items)) }
{
    ontology.bounded();
    let mut claims = Vec::new(alloc);
    for number in 0..ontology.expression_count() {
        let class = ExprId(number as u32);
        if let Some(element) = own_element(ontology, elements, class) {
            claims.push(Claim { class, element })?;
        }
    }
    Ok(claims)
}
