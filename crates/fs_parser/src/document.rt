//! Reading whole documents.

ghost use Rattle.std.specs.Prelude.{◌≡◌, ◌++◌, ◌∷◌, List, ℕ, Some, codes, drop, IsTrue, ◌↔◌, IfOk, OnErr, IfErr};
ghost use Rattle.std.specs.Str.{IsUtf8};
ghost use Rattle.fs_lexer.specs.declared.token.Kind.TheVariants.{Keyword};
ghost use Rattle.fs_lexer.specs.Views.{token_of};
ghost use Rattle.fs_parser.specs.Document as spec;
ghost use Rattle.fs_parser.specs.Faults.{IsPlaced, last_place};
ghost use Rattle.fs_parser.specs.Front.{BeginsWith, BeginsWithKind, IsWord, MayBeNamed, MayStandFor};
ghost use Rattle.fs_parser.specs.Name.{StandForOne, IsBracketed};
ghost use Rattle.fs_parser.specs.FaultMeanings.{IsPlain, IsSaid, IsSaidOfIri, IsSaidOfName};
ghost use Rattle.fs_parser.specs.State.{Gives, IsRefusal};
ghost use Rattle.fs_parser.specs.Tree.{Trees};
ghost use Rattle.fs_parser.specs.KnownPrefixes.{known_of};
ghost use Rattle.fs_parser.specs.View.{tokens_of, prefix_of, prefixes_of_code, trees_of, document_of};

use crate::fault::ParseFault;
use crate::known::Known;
use crate::prefix::{Prefix, before_colon, in_brackets, standard_iri};
use crate::tree::{Document, Tree};
use crate::trees::trees_inside;
use fs_lexer::{Kind, Token};
use std::alloc::Global;

/// How many parentheses may be open at once inside of `Ontology( .. )`.
pub(crate) const DEEPEST: usize = 64;

/// How many tokens a declaration has.
const DECLARATION: usize = 6;

/// Where the last token ends.
pub(crate) fn end_of(tokens: &[Token<'_>]) -> usize
    ensures { result ≡ last_place (tokens_of tokens.now) }
{
    match tokens.last() {
        Some(token) => token.at.saturating_add(token.text.len()),
        None => 0,
    }
}

/// Whether the token is the keyword.
pub(crate) fn is_word(word: &str, token: &Token<'_>) -> bool
    ensures { IsTrue result ↔ ((token.now.kind ≡ Keyword) × (token.now.text.now ≡ word.now)) }
{
    token.kind == Kind::Keyword && token.text == word
}

/// Whether the first token is the keyword.
fn begins_with(word: &str, tokens: &[Token<'_>]) -> bool
    ensures { IsTrue result ↔ BeginsWith word.now (tokens_of tokens.now) }
{
    match tokens {
        [token, ..] => is_word(word, token),
        [] => false,
    }
}

/// What follows the keyword, which has to be the first token.
fn expect_word<'s, 'a>(
    word: &str,
    tokens: &'s [Token<'a>],
    here: usize,
) -> Result<&'s [Token<'a>], ParseFault>
    ensures found { IfOk result (λ rest. IsWord word.now (tokens_of tokens.now) (tokens_of rest.now)) }
    ensures refused { OnErr result (BeginsWith word.now (tokens_of tokens.now) → ⊥) }
    ensures said { IfErr result (IsPlain here (tokens_of tokens.now)) }
{
    match tokens {
        [token, rest @ ..] => {
            if is_word(word, token) {
                Ok(rest)
            } else {
                Err(ParseFault::Unexpected { at: token.at })
            }
        }
        [] => Err(ParseFault::UnexpectedEnd { at: here }),
    }
}

/// The first token, which has to be of the kind, and what follows it.
fn expect<'s, 'a>(
    kind: Kind,
    tokens: &'s [Token<'a>],
    here: usize,
) -> Result<(Token<'a>, &'s [Token<'a>]), ParseFault>
    ensures found { IfOk result (λ r. tokens_of tokens.now ≡ token_of r.0 ∷ tokens_of r.1.now) }
    ensures kind { IfOk result (λ r. r.0.kind ≡ kind) }
    ensures refused { OnErr result (BeginsWithKind kind (tokens_of tokens.now) → ⊥) }
    ensures said { IfErr result (IsPlain here (tokens_of tokens.now)) }
{
    match tokens {
        [token, rest @ ..] => {
            if token.kind == kind {
                Ok((*token, rest))
            } else {
                Err(ParseFault::Unexpected { at: token.at })
            }
        }
        [] => Err(ParseFault::UnexpectedEnd { at: here }),
    }
}

/// The name of a prefix that may be declared: a standard one, or one that was not declared before.
fn new_name<'a>(known: &Known<'a>, token: &Token<'a>) -> Result<&'a str, ParseFault>
    ensures found { IfOk result (λ name. token.now.text.now ≡ name.now ++ codes ":") }
    ensures allowed { IfOk result (λ name. MayBeNamed (known_of known.now) name.now) }
    ensures refused { OnErr result ((name : List ℕ) → token.now.text.now ≡ name ++ codes ":" → MayBeNamed (known_of known.now) name → ⊥) }
    ensures said { IfErr result (IsSaidOfName (prefixes_of_code known.now.declared.items) (token_of token.now)) }
{
    let at = token.at;
    let Some(name) = before_colon(token.text) else {
        return Err(ParseFault::Unexpected { at });
    };
    match standard_iri(name) {
        Some(_) => Ok(name),
        None => match known.iri(name) {
            Some(_) => Err(ParseFault::PrefixTwice { at }),
            None => Ok(name),
        },
    }
}

/// The IRI that the prefix of the name may stand for. The name begins at `at`.
fn new_iri<'a>(name: &str, at: usize, token: &Token<'a>) -> Result<&'a str, ParseFault>
    ensures found { IfOk result (λ iri. IsBracketed iri.now token.now.text.now) }
    ensures utf8 { IfOk result (λ iri. IsUtf8 iri.now) }
    ensures allowed { IfOk result (λ iri. MayStandFor name.now iri.now) }
    ensures refused { OnErr result ((iri : List ℕ) → IsBracketed iri token.now.text.now → MayStandFor name.now iri → ⊥) }
    ensures said { IfErr result (IsSaidOfIri name.now at (token_of token.now)) }
{
    let Some(iri) = in_brackets(token.text) else {
        return Err(ParseFault::Unexpected { at: token.at });
    };
    match standard_iri(name) {
        Some(standard) => {
            if standard == iri {
                Ok(iri)
            } else {
                Err(ParseFault::StandardPrefixChanged { at })
            }
        }
        None => Ok(iri),
    }
}

/// The prefix that the declaration at the front of the tokens declares.
fn declaration<'a>(
    known: &Known<'a>,
    tokens: &[Token<'a>],
    here: usize,
) -> Result<Prefix<'a>, ParseFault>
    ensures found { IfOk result (λ p. spec.IsDeclaration (prefix_of p) (tokens_of tokens.now) (drop 6 (tokens_of tokens.now))) }
    ensures allowed { IfOk result (λ p. spec.IsAllowed (known_of known.now) (prefix_of p)) }
    ensures refused { OnErr result (spec.NoneIsDeclared (known_of known.now) (tokens_of tokens.now)) }
    ensures said { IfErr result (IsSaid here (prefixes_of_code known.now.declared.items) (tokens_of tokens.now)) }
{
    let rest = expect_word("Prefix", tokens, here)?;
    let (_opening, rest) = expect(Kind::Opening, rest, here)?;
    let (name_token, rest) = expect(Kind::PrefixName, rest, here)?;
    let name = new_name(known, &name_token)?;
    let (_equals, rest) = expect(Kind::Equals, rest, here)?;
    let (iri_token, rest) = expect(Kind::FullIri, rest, here)?;
    let iri = new_iri(name, name_token.at, &iri_token)?;
    let (_closing, _rest) = expect(Kind::Closing, rest, here)?;
    Ok(Prefix { name, iri })
}

/// The trees of `Ontology( .. )`, which all of the tokens have to be.
fn ontology<'a>(
    alloc: Global,
    known: &Known<'a>,
    tokens: &[Token<'a>],
    here: usize,
) -> Result<Vec<Tree<'a>>, ParseFault>
    requires { StandForOne (known_of known.now) }
    ensures found { IfOk result (λ v. spec.IsOntology 64 (known_of known.now) (trees_of v.items) (tokens_of tokens.now)) }
    ensures only { (ts : Trees) → spec.IsOntology 64 (known_of known.now) ts (tokens_of tokens.now) → Gives (λ v. trees_of v.items) result (Some ts) }
    ensures said { IfErr result (IsSaid here (prefixes_of_code known.now.declared.items) (tokens_of tokens.now)) }
{
    let rest = expect_word("Ontology", tokens, here)?;
    let (_opening, rest) = expect(Kind::Opening, rest, here)?;
    trees_inside(alloc, DEEPEST, known, rest, here)
}

/// The document that the tokens are, or the first place from the left where they fail to be one.
pub fn forms<'a>(alloc: Global, tokens: &[Token<'a>]) -> Result<Document<'a>, ParseFault>
    // The tokens are this document. They are no other.
    ensures found { IfOk result (λ d. spec.IsDocument (document_of d) (tokens_of tokens.now)) }
    // Tokens that are refused, other than for want of memory, are no document.
    ensures refused { IfErr result (λ e. IsRefusal e → (document : spec.Document) → spec.IsDocument document (tokens_of tokens.now) → ⊥) }
    // What a fault says of its place holds.
    ensures placed { IfErr result (IsPlaced (tokens_of tokens.now)) }
{
    let here = end_of(tokens);
    let mut known = Known::new(alloc);
    let mut read = 0;
    'declarations: while begins_with("Prefix", &tokens[read..]) {
        let prefix = declaration(&known, &tokens[read..], here)?;
        known = known.declare(prefix)?;
        read += DECLARATION;
    }
    let trees = ontology(alloc, &known, &tokens[read..], here)?;
    Ok(Document {
        prefixes: known.declared,
        trees,
    })
}
