//! What narrowing keeps.
ghost use Rattle.narrowing.specs.FoldedListing.{NarrowedIsFoldedListing};
ghost use Rattle.narrowing.specs.Narrowed.{NarrowedIsFolded, NarrowedIsListed, NarrowedIsNarrow};

/// What a listed interpretation lists is folded onto what the narrowed one lists, which names what is there in the order of the
/// text and has at most one element more than stand in lines.
pub fn narrowed_interpretations()
    ensures folded { NarrowedIsFolded }
    ensures listed { NarrowedIsListed }
    ensures narrow { NarrowedIsNarrow }
{}

/// What a listed interpretation lists is folded onto what the narrowed one lists, and the elements of individuals and of claims come to
/// its own.
pub fn folded_listings()
    ensures narrowed { NarrowedIsFoldedListing }
{}
