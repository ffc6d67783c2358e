//! Names as the texts show them.
ghost use Rattle.axioms.specs.Ontology.{name_at};
ghost use Rattle.std.specs.Prelude.{◌++◌, ◌≡◌, OnOk, map};
ghost use Rattle.std.specs.String.{string_bytes};
ghost use Rattle.taxonomy.specs.Texts.{bracketed, listed};

use axioms::Memory;

/// The name of that number, or nothing where there is none.
pub(crate) fn name_of(names: &[String], n: usize) -> &str
    ensures { result.now ≡ name_at (map string_bytes names.now) n }
{
    match names.get(n) {
        Some(name) => name.as_str(),
        None => "",
    }
}

/// Adds the name in angle brackets.
pub(crate) fn write_name(out: &mut Vec<u8>, names: &[String], n: usize) -> Result<(), Memory>
    ensures { OnOk result
        (out.new.items ≡ out.old.items ++ bracketed (name_at (map string_bytes names.now) n)) }
{
    out.push(b'<')?;
    out.extend_from_slice(name_of(names, n).as_bytes())?;
    out.push(b'>')?;
    Ok(())
}

/// Adds the names of the classes, the first behind `lead` and each other behind `between`.
pub(crate) fn write_names(
    out: &mut Vec<u8>,
    names: &[String],
    lead: &[u8],
    between: &[u8],
    classes: &[usize],
) -> Result<(), Memory>
    ensures { OnOk result
        (out.new.items ≡ out.old.items ++ listed (map string_bytes names.now) lead.now between.now classes.now) }
{
    let mut before = lead;
    for n in classes {
        out.extend_from_slice(before)?;
        write_name(out, names, *n)?;
        before = between;
    }
    Ok(())
}
