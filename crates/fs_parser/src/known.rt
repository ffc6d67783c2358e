//! The prefixes that are known so far.

ghost use Rattle.std.specs.Prelude.{◌≡◌, List, ℕ};
ghost use Rattle.fs_parser.specs.Index.{iri_at, last_iri};
ghost use Rattle.fs_parser.specs.View.{prefixes_of_code};

use crate::prefix::{Prefix, standard_iri};
use std::alloc::{AllocError, Global};
use std::collections::BTreeMap;

/// The prefixes that names are expanded with: the standard ones, and these. The index finds each of them in a time that
/// grows with the logarithm of their number.
#[derive(Drop)]
pub(crate) struct Known<'a> {
    pub(crate) declared: Vec<Prefix<'a>>,
    pub(crate) index: BTreeMap<&'a str, &'a str>,
    ghost indexed: { (name : List ℕ) → iri_at index name ≡ last_iri (prefixes_of_code declared.items) name },
}

impl<'a> Known<'a> {
    ghost use Rattle.std.specs.Prelude.{◌++◌, ◌∷◌, [], IfOk, map};
    ghost use Rattle.std.specs.List.{Contains};
    ghost use Rattle.std.specs.Option.{IfSome, IfNone};
    ghost use Rattle.fs_parser.specs.KnownPrefixes.{known_of};
    ghost use Rattle.fs_parser.specs.View.{prefix_of};

    /// The standard prefixes alone.
    pub(crate) fn new(alloc: Global) -> Known<'a>
        ensures { prefixes_of_code result.declared.items ≡ [] }
    {
        Known {
            declared: Vec::new(alloc),
            index: BTreeMap::new(alloc),
        }
    }

    /// The IRI of a prefix that the document declares.
    #[inline(always)]
    fn declared_iri(&self, name: &str) -> Option<&'a str>
        ensures some { IfSome result (λ iri. Contains (prefixes_of_code self.now.declared.items) (name.now, iri.now)) }
        ensures none { IfNone result ((iri : List ℕ) → Contains (prefixes_of_code self.now.declared.items) (name.now, iri) → ⊥) }
    {
        self.index.get(name).copied()
    }

    /// The IRI of a prefix.
    #[inline(always)]
    pub(crate) fn iri(&self, name: &str) -> Option<&'a str>
        ensures some { IfSome result (λ iri. Contains (known_of self.now) (name.now, iri.now)) }
        ensures none { IfNone result ((iri : List ℕ) → Contains (known_of self.now) (name.now, iri) → ⊥) }
    {
        match standard_iri(name) {
            Some(iri) => Some(iri),
            None => self.declared_iri(name),
        }
    }

    /// These and one more prefix.
    pub(crate) fn declare(self, prefix: Prefix<'a>) -> Result<Known<'a>, AllocError>
        ensures { IfOk result (λ known. map prefix_of known.declared.items ≡ map prefix_of self.entry.declared.items ++ prefix_of prefix.entry ∷ []) }
    {
        let Known {
            mut declared,
            mut index,
        } = self;
        index.insert(prefix.name, prefix.iri)?;
        declared.push(prefix)?;
        Ok(Known { declared, index })
    }

    /// The standard prefixes and these.
    pub(crate) fn of(alloc: Global, prefixes: &[Prefix<'a>]) -> Result<Known<'a>, AllocError>
        ensures { IfOk result (λ known. prefixes_of_code known.declared.items ≡ prefixes_of_code prefixes.now) }
    {
        let mut known = Known::new(alloc);
        for prefix in prefixes {
            known = known.declare(*prefix)?;
        }
        Ok(known)
    }
}
