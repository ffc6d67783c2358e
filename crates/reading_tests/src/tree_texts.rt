//! The trees of documents as texts.

use fs_lexer::{Token, tokens};
use fs_parser::{Iri, Tree, forms};
use std::alloc::{AllocError, Global};

/// What the text is as a document: the trees, each with a space behind it, or the fault.
fn shown(alloc: Global, text: &str) -> Result<String, AllocError> {
    match tokens(alloc, text) {
        Ok(tokens) => shown_forms(alloc, tokens.as_slice()),
        Err(fault) => format!(in alloc; "{fault}"),
    }
}

fn shown_forms(alloc: Global, tokens: &[Token<'_>]) -> Result<String, AllocError> {
    match forms(alloc, tokens) {
        Ok(document) => {
            let mut out = String::new(alloc);
            for tree in &document.trees {
                push_tree(alloc, &mut out, tree)?;
            }
            Ok(out)
        }
        Err(fault) => format!(in alloc; "{fault}"),
    }
}

fn push_name(alloc: Global, out: &mut String, iri: &Iri<'_>) -> Result<(), AllocError> {
    let text = iri.text(alloc)?;
    out.push_str("<")?;
    out.push_str(text.as_str())?;
    out.push_str(">")
}

pub(crate) fn push_tree(
    alloc: Global,
    out: &mut String,
    tree: &Tree<'_>,
) -> Result<(), AllocError> {
    match tree {
        Tree::Name { iri, .. } => push_name(alloc, out, iri)?,
        Tree::PlainLiteral { text, .. } => out.push_str(text)?,
        Tree::TaggedLiteral { text, tag, .. } => {
            out.push_str(text)?;
            out.push_str(tag)?;
        }
        Tree::TypedLiteral { text, datatype, .. } => {
            out.push_str(text)?;
            out.push_str("^^")?;
            push_name(alloc, out, datatype)?;
        }
        Tree::Anonymous { label, .. } => out.push_str(label)?,
        Tree::Number { digits, .. } => out.push_str(digits)?,
        Tree::Group { trees, .. } => {
            out.push_str("(")?;
            for inner in trees {
                push_tree(alloc, out, inner)?;
            }
            out.push_str(")")?;
        }
        Tree::Form { keyword, trees, .. } => {
            out.push_str(keyword)?;
            out.push_str("(")?;
            for inner in trees {
                push_tree(alloc, out, inner)?;
            }
            out.push_str(")")?;
        }
    }
    out.push_str(" ")
}

/// Whether the text is that as a document.
pub(crate) fn is_shown(alloc: Global, text: &str, expected: &str) -> Result<bool, AllocError> {
    let found = shown(alloc, text)?;
    Ok(found.as_str() == expected)
}
