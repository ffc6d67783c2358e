//! A tree of a document as text, with full IRIs and single spaces. Where memory was refused nothing is said of what was written.

ghost use Rattle.std.specs.Prelude.{◌++◌, ◌≡◌, OnOk};
ghost use Rattle.answer_texts.specs.Names.{name_text};
ghost use Rattle.fs_parser.specs.View.{iri_of, tree_of, trees_of};
ghost use Rattle.shapes.specs.Faults.{behind_annotations, is_annotation};
ghost use Rattle.statements_text.specs.Terms.{Of, line_text, term_text};
ghost use Rattle.statements_text.specs.TreeTerms.{bare_term, term_in, terms_in};

use axioms::Memory;
use fs_parser::{Iri, Tree};

/// Whether the tree is an annotation, be it a faulty one.
fn is_annotation(tree: &Tree<'_>) -> bool
    ensures { result ≡ is_annotation (tree_of tree.now) }
{
    match tree {
        Tree::Form { keyword, .. } => *keyword == "Annotation",
        _ => false,
    }
}

/// The trees behind the annotations in front.
fn behind_annotations<'t, 'a>(trees: &'t [Tree<'a>]) -> &'t [Tree<'a>]
    ensures { trees_of result.now ≡ behind_annotations (trees_of trees.now) }
{
    for (index, tree) in trees.iter().enumerate() {
        if !is_annotation(tree) {
            return &trees[index..];
        }
    }
    &[]
}

/// Adds the name in angle brackets.
fn write_name(out: &mut Vec<u8>, name: &Iri<'_>) -> Result<(), Memory>
    ensures { OnOk result (out.new.items ≡ out.old.items ++ name_text (iri_of name.now)) }
{
    out.extend_from_slice(b"<")?;
    out.extend_from_slice(name.base.as_bytes())?;
    out.extend_from_slice(name.local.as_bytes())?;
    out.extend_from_slice(b">")?;
    Ok(())
}

/// Adds the tree, with an empty name for what is neither a name nor a form.
#[cycle(text)]
fn write_tree(out: &mut Vec<u8>, tree: &Tree<'_>) -> Result<(), Memory>
    ensures { OnOk result (out.new.items ≡ out.old.items ++ term_text (term_in (tree_of tree.now))) }
{
    match tree {
        Tree::Name { iri, .. } => write_name(out, iri),
        Tree::Form { keyword, trees, .. } => write_form(out, keyword, trees),
        _ => {
            out.extend_from_slice(b"<>")?;
            Ok(())
        }
    }
}

/// Adds the keyword, and the trees in parentheses.
#[cycle(text)]
fn write_form(out: &mut Vec<u8>, keyword: &str, trees: &[Tree<'_>]) -> Result<(), Memory>
    ensures { OnOk result (out.new.items ≡ out.old.items ++ term_text (Of keyword.now (terms_in (trees_of trees.now)))) }
{
    out.extend_from_slice(keyword.as_bytes())?;
    out.extend_from_slice(b"(")?;
    let mut lead: &[u8] = b"";
    for tree in trees {
        out.extend_from_slice(lead)?;
        write_tree(out, tree)?;
        lead = b" ";
    }
    out.extend_from_slice(b")")?;
    Ok(())
}

/// Adds the tree without the annotations in front of its operands.
fn write_bare_tree(out: &mut Vec<u8>, tree: &Tree<'_>) -> Result<(), Memory>
    ensures { OnOk result (out.new.items ≡ out.old.items ++ term_text (bare_term (tree_of tree.now))) }
{
    match tree {
        Tree::Form { keyword, trees, .. } => write_form(out, keyword, behind_annotations(trees)),
        _ => write_tree(out, tree),
    }
}

/// Adds the tree as a line: with full IRIs and single spaces, without the annotations in front of its operands, and with a line feed
/// at its end. What is neither a name nor a form, as no tree without faults is or has, is the empty name.
///
/// # Errors
///
/// `Memory` where memory was refused. Then nothing is said of `out`, and what was added is to be thrown away.
pub fn write_tree_line(out: &mut Vec<u8>, tree: &Tree<'_>) -> Result<(), Memory>
    ensures { OnOk result (out.new.items ≡ out.old.items ++ line_text (bare_term (tree_of tree.now))) }
{
    write_bare_tree(out, tree)?;
    out.push(b'\n')?;
    Ok(())
}
