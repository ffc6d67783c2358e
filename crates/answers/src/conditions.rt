//! The conditions that axioms state for a class.
ghost use Rattle.answers.specs.Conditions.{conditions_of, numbered_conditions, others, stated_pair};
ghost use Rattle.axioms.specs.View.{axiom_of, expr_numbers};
ghost use Rattle.std.specs.Prelude.{◌≡◌, ◌++◌, IfOk, OnOk, map};

use crate::condition::Stated;
use axioms::{Axiom, ExprId, Memory, Ontology};
use std::alloc::Global;

/// Adds those of the expressions that are not the class, as conditions that the axiom of that number states.
fn push_others(
    found: &mut Vec<Stated>,
    class: ExprId,
    number: usize,
    expressions: &[ExprId],
) -> Result<(), Memory>
    ensures { OnOk result (map stated_pair found.new.items ≡ map stated_pair found.old.items ++ map (λ f. (number, f)) (others class.0 (expr_numbers expressions.now))) }
{
    for condition in expressions {
        if *condition != class {
            found.push(Stated {
                axiom: number,
                condition: *condition,
            })?;
        }
    }
    Ok(())
}

/// Adds the conditions that the axiom of that number states for the class.
fn push_conditions(
    found: &mut Vec<Stated>,
    class: ExprId,
    number: usize,
    axiom: &Axiom,
) -> Result<(), Memory>
    ensures { OnOk result (map stated_pair found.new.items ≡ map stated_pair found.old.items ++ numbered_conditions class.0 (number, axiom_of «axiom».now)) }
{
    match axiom {
        Axiom::SubClass(sub, sup) if *sup == class => push_others(found, class, number, &[*sub]),
        Axiom::EquivalentClasses(operands) if operands.contains(&class) => {
            push_others(found, class, number, operands)
        }
        _ => Ok(()),
    }
}

/// The conditions that axioms state for the class, in the order of the axioms.
pub(crate) fn conditions_for(
    alloc: Global,
    ontology: &Ontology,
    class: ExprId,
) -> Result<Vec<Stated>, Memory>
    ensures { IfOk result (λ v. map stated_pair v.items ≡ conditions_of ontology.now class.0) }
{
    let mut found = Vec::new(alloc);
    let axioms = ontology.axioms();
    for place in 0..axioms.len() {
        push_conditions(&mut found, class, place + 1, &axioms[place])?;
    }
    Ok(found)
}
