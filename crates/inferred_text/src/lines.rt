//! A statement as a line. Where memory was refused nothing is said of what was written.
ghost use Rattle.answer_texts.specs.Names.{line_feed};
ghost use Rattle.axioms.specs.Numbering.{States};
ghost use Rattle.axioms.specs.Ontology.{IsClassAt, axiom_tree, expression};
ghost use Rattle.axioms.specs.View.{axiom_of};
ghost use Rattle.axioms.specs.WellFormedness.{IsAxiomOf};
ghost use Rattle.inferred_text.specs.Inferred.{subclass_axiom, type_axiom};
ghost use Rattle.statements_text.specs.Texts.{declaration_text, statement_line};
ghost use Rattle.std.specs.Prelude.{◌++◌, ◌<◌, ◌≡◌, OnOk, length};
ghost use Rattle.taxonomy.specs.Following.{class_at};

use answer_texts::write_axiom;
use axioms::{Axiom, ClassId, ExprId, IndId, Memory, Ontology};

/// The expression that the class of that number is.
pub(crate) fn expression_of(ontology: &Ontology, class: usize) -> ExprId
    requires { class < length ontology.now.names.classes }
    ensures class { IsClassAt ontology.now class result.0 }
    ensures within { result.0 < length ontology.now.nodes }
    ensures meant { expression ontology.now result.0 ≡ class_at ontology.now.names class }
{
    ontology.bounded();
    match ontology.class_expr(ClassId(class as u32)) {
        Some(expression) => expression,
        None => unreachable!(),
    }
}

/// Adds the declaration of a name as one of that kind.
pub(crate) fn push_declaration(out: &mut Vec<u8>, kind: &[u8], name: &str) -> Result<(), Memory>
    ensures { OnOk result (out.new.items ≡ out.old.items ++ (declaration_text kind.now name.now ++ line_feed)) }
{
    out.extend_from_slice(b"Declaration(")?;
    out.extend_from_slice(kind)?;
    out.extend_from_slice(b"(<")?;
    out.extend_from_slice(name.as_bytes())?;
    out.extend_from_slice(b">))\n")?;
    Ok(())
}

/// Adds the axiom.
pub(crate) fn push_axiom(
    out: &mut Vec<u8>,
    ontology: &Ontology,
    stated: &Axiom,
) -> Result<(), Memory>
    requires { IsAxiomOf ontology.now (axiom_of stated.now) }
    ensures { OnOk result (out.new.items ≡ out.old.items ++ statement_line (States (axiom_tree ontology.now (axiom_of stated.now)))) }
{
    write_axiom(out, ontology, stated)?;
    out.push(b'\n')?;
    Ok(())
}

/// Adds that the class is below the other.
pub(crate) fn push_subclass(
    out: &mut Vec<u8>,
    ontology: &Ontology,
    class: usize,
    above: usize,
) -> Result<(), Memory>
    requires class { class < length ontology.now.names.classes }
    requires above { above < length ontology.now.names.classes }
    ensures { OnOk result (out.new.items ≡ out.old.items ++ statement_line (subclass_axiom ontology.now.names class above)) }
{
    let stated = Axiom::SubClass(
        expression_of(ontology, class),
        expression_of(ontology, above),
    );
    push_axiom(out, ontology, &stated)
}

/// Adds that the individual is in the class.
pub(crate) fn push_type(
    out: &mut Vec<u8>,
    ontology: &Ontology,
    individual: usize,
    class: usize,
) -> Result<(), Memory>
    requires individual { individual < length ontology.now.names.individuals }
    requires class { class < length ontology.now.names.classes }
    ensures { OnOk result (out.new.items ≡ out.old.items ++ statement_line (type_axiom ontology.now.names individual class)) }
{
    ontology.bounded();
    let class = expression_of(ontology, class);
    let stated = Axiom::ClassAssertion(class, IndId(individual as u32));
    push_axiom(out, ontology, &stated)
}
