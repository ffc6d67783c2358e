//! What an acceptable certificate means.
ghost use Rattle.cert_check.specs.Examples.{ContradictionIsAccepted, DeniedIsAccepted, OneSubclassIsAccepted, OneSubclassIsAcceptedInFormatTwo, SameAndDifferentIsAccepted};
ghost use Rattle.cert_check.specs.FoldedListings.{FoldedReasonsAreSame, NarrowedAgreesSame, NarrowedClaimsSame, NarrowedReasonsAreSame};
ghost use Rattle.cert_check.specs.Soundness.{AcceptableInBothFormats, AcceptableSays, LinesAreTrue, ListingsAgree, RulesKeepTruth, TextsAreDetermined};

/// Rules keep truth, each line of a derivation is true wherever the axioms hold, acceptable texts are those of what
/// follows from the axioms, and an ontology has no others.
pub fn soundness()
    ensures rules { RulesKeepTruth }
    ensures lines { LinesAreTrue }
    ensures says { AcceptableSays }
    ensures determined { TextsAreDetermined }
    ensures listings { ListingsAgree }
{}

/// Of two texts of one certificate, as of a text and of what it is converted to, both are acceptable or none.
pub fn acceptable_in_both_formats()
    ensures { AcceptableInBothFormats }
{}

/// Two certificates that are acceptable, the first in both formats, so that what is promised of such can be met, and two by the rules
/// on individuals that are one, that differ, and on pairs that are denied.
pub fn worked_certificates()
    ensures one_subclass { OneSubclassIsAccepted }
    ensures format_two { OneSubclassIsAcceptedInFormatTwo }
    ensures contradiction { ContradictionIsAccepted }
    ensures different { SameAndDifferentIsAccepted }
    ensures denied { DeniedIsAccepted }
{}

/// The elements of a narrowed listing agree with the same lines as those that come to them, its claims hold together with the
/// claims that they come from, and the same speaks against a certificate with either listing. So it does with a listing and
/// another onto which it is folded.
pub fn narrowed_listings()
    ensures agree { NarrowedAgreesSame }
    ensures claims { NarrowedClaimsSame }
    ensures reasons { NarrowedReasonsAreSame }
    ensures folded { FoldedReasonsAreSame }
{}
