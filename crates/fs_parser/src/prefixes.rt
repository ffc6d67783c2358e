//! Prefixes that own their texts.
ghost use Rattle.std.specs.Prelude.{◌≡◌, ◌++◌, IfOk, map};
ghost use Rattle.fs_parser.specs.KnownPrefixes.{known_of};
ghost use Rattle.fs_parser.specs.Name.{CanBeSpelled, StandForOne, StandForSpelled, standard_prefixes};
ghost use Rattle.fs_parser.specs.OwnedPrefixes.{owned_prefix};
ghost use Rattle.fs_parser.specs.View.{prefix_of, prefixes_of_code};

use crate::known::Known;
use crate::prefix::{OWL, Prefix, RDF, RDFS, XSD};
use std::alloc::{AllocError, Global};
use std::marker::Model;

/// The name of a prefix, and the IRI that it stands for.
#[derive(Drop)]
pub(crate) struct OwnedPrefix {
    pub(crate) name: String,
    pub(crate) iri: String,
}

/// What names are expanded with behind a document: the standard prefixes, and those that the document declares. The source
/// of the document need not stay. No name stands for two IRIs, and each IRI that one stands for can be spelled.
#[derive(Drop)]
pub struct Prefixes {
    pub(crate) declared: Vec<OwnedPrefix>,
}

impl Model for Prefixes {
    ghost use Rattle.fs_parser.specs.Name as names;
    ghost use Rattle.fs_parser.specs.OwnedPrefixes.{owned_prefixes, IsOwned};

    ghost Value = { names.Prefixes };

    ghost view = { owned_prefixes };

    ghost invariant = { IsOwned };
}

/// A prefix with an IRI that can be spelled.
fn standard<'a>(name: &'a str, iri: &'a str) -> Prefix<'a>
    requires { ∥ CanBeSpelled iri.now ∥₁ }
    ensures { prefix_of result ≡ (name.now, iri.now) }
{
    Prefix { name, iri }
}

/// The prefixes that are declared from the start.
#[tactic(auto, unfolding(crate::specs::Name::standard_prefixes))]
pub(crate) fn standard_list<'a>(alloc: Global) -> Result<Vec<Prefix<'a>>, AllocError>
    ensures { IfOk result (λ v. prefixes_of_code v.items ≡ standard_prefixes) }
{
    let mut all = Vec::with_capacity(alloc, 4)?;
    all.push(standard("rdf", RDF))?;
    all.push(standard("rdfs", RDFS))?;
    all.push(standard("xsd", XSD))?;
    all.push(standard("owl", OWL))?;
    Ok(all)
}

/// A copy of the prefix.
fn owned(alloc: Global, prefix: &Prefix<'_>) -> Result<OwnedPrefix, AllocError>
    ensures { IfOk result (λ p. owned_prefix p ≡ prefix_of prefix.now) }
{
    Ok(OwnedPrefix {
        name: String::from_str(alloc, prefix.name)?,
        iri: String::from_str(alloc, prefix.iri)?,
    })
}

/// Copies of the prefixes, in their order.
fn owned_list(alloc: Global, declared: &[Prefix<'_>]) -> Result<Vec<OwnedPrefix>, AllocError>
    ensures { IfOk result (λ v. map owned_prefix v.items ≡ prefixes_of_code declared.now) }
{
    let mut copies = Vec::with_capacity(alloc, declared.len())?;
    for prefix in declared {
        copies.push(owned(alloc, prefix)?)?;
    }
    Ok(copies)
}

impl Prefixes {
    /// The standard prefixes and these, as a document declares them: no name stands for two IRIs, and each IRI can be spelled.
    pub fn of(alloc: Global, declared: &[Prefix<'_>]) -> Result<Prefixes, AllocError>
        requires { StandForOne (standard_prefixes ++ prefixes_of_code declared.now) }
        ensures { IfOk result (λ p. p ≡ standard_prefixes ++ prefixes_of_code declared.now) }
    {
        Ok(Prefixes {
            declared: owned_list(alloc, declared)?,
        })
    }

    /// No name stands for two IRIs. This runs nothing.
    pub fn stand_for_one(&self)
        ensures { StandForOne self.now }
    {
        let _ = &self.declared;
    }

    /// Each IRI that a name stands for can be spelled. This runs nothing.
    pub fn stand_for_spelled(&self)
        ensures { StandForSpelled self.now }
    {
        let _ = &self.declared;
    }

    /// These, one behind the other: the standard ones, and then those of the document in its order.
    pub fn list(&self, alloc: Global) -> Result<Vec<Prefix<'_>>, AllocError>
        ensures { IfOk result (λ v. prefixes_of_code v.items ≡ self.now) }
    {
        let mut all = standard_list(alloc)?;
        for prefix in &self.declared {
            all.push(Prefix {
                name: prefix.name.as_str(),
                iri: prefix.iri.as_str(),
            })?;
        }
        Ok(all)
    }

    /// These, as a document that is read has them.
    pub(crate) fn known(&self, alloc: Global) -> Result<Known<'_>, AllocError>
        ensures { IfOk result (λ known. known_of known ≡ self.now) }
    {
        let mut known = Known::new(alloc);
        for prefix in &self.declared {
            known = known.declare(Prefix {
                name: prefix.name.as_str(),
                iri: prefix.iri.as_str(),
            })?;
        }
        Ok(known)
    }
}
