//! Names and what they name.
ghost use Rattle.answers.specs.Explanations.{IsAbout, IsClassNamed, IsKnown};
ghost use Rattle.axioms.specs.Growth.{names_of};
ghost use Rattle.axioms.specs.Ontology.{IsClassAt};
ghost use Rattle.closure.specs.Denotations.{context_of};
ghost use Rattle.std.specs.Prelude.{◌≡◌, ◌≤◌, ◌^◌, Contains, IfSome, MatchOption, Some, length, slice_get, ℕ};

use axioms::{ClassId, ExprId, IndId, Kind};
use engine::Indexed;
use facts::Context;
use program::Asked;

/// 32 bits number the classes.
pub(crate) fn few_classes(indexed: &Indexed<'_>)
    ensures { length indexed.now.ontology.names.classes ≤ 2 ^ 32 }
{
    indexed.closed().ontology().bounded();
}

/// The number of that name, of its kind.
fn number_of(indexed: &Indexed<'_>, kind: Kind, name: &str) -> Option<u32>
    ensures { MatchOption result (Contains (names_of indexed.now.ontology.names kind) name.now → ⊥)
        (λ n. slice_get (names_of indexed.now.ontology.names kind) n ≡ Some name.now) }
{
    indexed.closed().ontology().number_of(kind, name)
}

/// The class of that number, as an expression.
pub(crate) fn class_numbered(indexed: &Indexed<'_>, number: u32) -> Option<ExprId>
    ensures found { MatchOption result ((e : ℕ) → IsClassAt indexed.now.ontology number e → ⊥) (λ e. IsClassAt indexed.now.ontology number e.0) }
    ensures only { IfSome result (λ e. (f : ℕ) → IsClassAt indexed.now.ontology number f → f ≡ e.0) }
{
    let closed = indexed.closed();
    closed.well_formed();
    closed.ontology().class_expr(ClassId(number))
}

/// The class of that name, as an expression.
pub(crate) fn class_named(indexed: &Indexed<'_>, name: &str) -> Option<ExprId>
    ensures { MatchOption result (Contains indexed.now.ontology.names.classes name.now → ⊥) (λ e. IsClassNamed indexed.now.ontology name.now e.0) }
{
    indexed.closed().well_formed();
    let number = number_of(indexed, Kind::Class, name)?;
    class_numbered(indexed, number)
}

/// The individual of that name, by its number.
pub(crate) fn individual_named(indexed: &Indexed<'_>, name: &str) -> Option<IndId>
    ensures { MatchOption result (Contains indexed.now.ontology.names.individuals name.now → ⊥)
        (λ a. slice_get indexed.now.ontology.names.individuals a.0 ≡ Some name.now) }
{
    let number = number_of(indexed, Kind::Individual, name)?;
    Some(IndId(number))
}

/// The context of what is asked about.
pub(crate) fn subject_named(indexed: &Indexed<'_>, asked: Asked<'_>) -> Option<Context>
    ensures { MatchOption result (IsKnown indexed.now.ontology asked.entry → ⊥) (λ x. IsAbout indexed.now.ontology asked.entry (context_of x)) }
{
    match asked {
        Asked::Class(name) => {
            let class = class_named(indexed, name)?;
            Some(Context::Expr(class))
        }
        Asked::Individual(name) => {
            let individual = individual_named(indexed, name)?;
            Some(Context::Individual(individual))
        }
    }
}
