//! The declarations of the names of an ontology.
ghost use Rattle.answer_texts.specs.Names.{line_feed};
ghost use Rattle.axioms.specs.Ontology.{name_at};
ghost use Rattle.inferred_text.specs.Inferred.{declarations};
ghost use Rattle.statements_text.specs.Texts.{declaration_text, statement_line};
ghost use Rattle.std.specs.List.{filter, flat_map};
ghost use Rattle.std.specs.Prelude.{◌++◌, ◌≡◌, OnOk, map, nat_lt, not};
ghost use Rattle.std.specs.String.{string_bytes};
ghost use Rattle.taxonomy.specs.Texts.{in_byte_order};

use crate::lines::push_declaration;
use axioms::{ClassId, Memory, Ontology};
use std::alloc::Global;
use taxonomy::in_byte_order;

/// The name of that number, or nothing where there is none.
fn name_of(names: &[String], n: usize) -> &str
    ensures { result.now ≡ name_at (map string_bytes names.now) n }
{
    match names.get(n) {
        Some(name) => name.as_str(),
        None => "",
    }
}

/// Adds the declarations of these names, but for those with numbers below `first`, in byte order.
fn push_names(
    alloc: Global,
    out: &mut Vec<u8>,
    kind: &[u8],
    names: &[String],
    first: usize,
) -> Result<(), Memory>
    ensures { OnOk result
        (out.new.items
        ≡ out.old.items
        ++ flat_map (λ n. declaration_text kind.now (name_at (map string_bytes names.now) n) ++ line_feed)
        (filter (λ n. not (nat_lt n first)) (in_byte_order (map string_bytes names.now)))) }
{
    let order = in_byte_order(alloc, names)?;
    for n in &order {
        if *n >= first {
            push_declaration(out, kind, name_of(names, *n))?;
        }
    }
    Ok(())
}

/// Adds the declarations of the names of the ontology.
pub(crate) fn push_declarations(
    alloc: Global,
    out: &mut Vec<u8>,
    ontology: &Ontology,
) -> Result<(), Memory>
    ensures { OnOk result (out.new.items ≡ out.old.items ++ flat_map statement_line (declarations ontology.now.names)) }
{
    let first = ClassId::NOTHING.0 as usize + 1;
    push_names(alloc, out, b"Class", ontology.classes(), first)?;
    push_names(alloc, out, b"ObjectProperty", ontology.properties(), 0)?;
    push_names(alloc, out, b"NamedIndividual", ontology.individuals(), 0)
}
