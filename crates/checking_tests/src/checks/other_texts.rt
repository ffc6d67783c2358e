//! Other texts than those that the certificate proves.

use super::ontologies::{CONTRADICTION_DOCUMENT, ONE_MEMBER_DOCUMENT, ONE_SUBCLASS_DOCUMENT};
use super::{CONTRADICTION, ONE_MEMBER, ONE_SUBCLASS, Texts, judge};
use cert_check::Reason;
use std::test::Fail;

/// A taxonomy text of SubClassOf(A B) in which more stands above A.
const OTHER_TAXONOMY: &str =
    "eltax 1 consistent\n<http://www.w3.org/2002/07/owl#Thing>\n<x:A> < <http://www.w3.org/2002/07/owl#Thing> , <x:B>\n<x:B> < <http://www.w3.org/2002/07/owl#Thing>\nbottom <http://www.w3.org/2002/07/owl#Nothing>\n";

#[test]
fn other_taxonomy_text(rt: HostRuntime) -> Result<(), Fail> {
    // Whatever the instances text is.
    for instances in [ONE_SUBCLASS.instances, ""] {
        let texts = Texts {
            taxonomy: OTHER_TAXONOMY,
            instances,
            certificate: ONE_SUBCLASS.certificate,
        };
        judge(
            &rt,
            ONE_SUBCLASS_DOCUMENT,
            texts,
            &[("end", "end", Some(Reason::TaxonomyDiffers { at: 66 }))],
        )?;
    }
    Ok(())
}

#[test]
fn other_instances_text(rt: HostRuntime) -> Result<(), Fail> {
    let texts = Texts {
        taxonomy: ONE_MEMBER.taxonomy,
        instances: "elinst 1 consistent\n<x:a> : <http://www.w3.org/2002/07/owl#Thing>\n",
        certificate: ONE_MEMBER.certificate,
    };
    judge(
        &rt,
        ONE_MEMBER_DOCUMENT,
        texts,
        &[("end", "end", Some(Reason::InstancesDiffer { at: 29 }))],
    )
}

#[test]
fn first_byte_that_differs(rt: HostRuntime) -> Result<(), Fail> {
    let texts = Texts {
        taxonomy: CONTRADICTION.taxonomy,
        instances: "elinst 2 inconsistent\n\n",
        certificate: CONTRADICTION.certificate,
    };
    judge(
        &rt,
        CONTRADICTION_DOCUMENT,
        texts,
        &[("end", "end", Some(Reason::InstancesDiffer { at: 7 }))],
    )
}
