//! Certificates that are converted to a format.

use super::format_two::CERTIFICATE as IN_FORMAT_TWO;
use super::ontologies::ONE_SUBCLASS_DOCUMENT;
use super::{ONE_SUBCLASS_CERTIFICATE as IN_FORMAT_ONE, changed};
use crate::documents::ontology_of;
use axioms::Ontology;
use cert_check::{Format, acceptable_in_both_formats};
use certificate_text::{ConvertFault, convert};
use device::BufferSink;
use std::alloc::Global;
use std::process::Abort;
use std::test::Fail;

/// Whether converting the text to the format writes the other one, or stops by the fault and writes nothing.
fn is_converted(
    alloc: Global,
    ontology: &Ontology,
    text: &str,
    format: Format,
    expected: Result<&str, ConvertFault>,
) -> bool {
    let mut sink = BufferSink::new(alloc);
    let answer = convert(alloc, ontology, text.as_bytes(), format, &mut sink);
    match expected {
        Ok(other) => answer == Ok(()) && sink.bytes() == other.as_bytes(),
        Err(fault) => answer == Err(fault) && sink.bytes().is_empty(),
    }
}

/// Parts of the certificate in format 1 and in format 2, and what stands there in others.
type Pair = ((&'static str, &'static str), (&'static str, &'static str));

const PAIRS: &[Pair] = &[
    (("end", "end"), ("end", "end")),
    (
        ("domain 3", "domain 4294967295"),
        ("domain 3", "domain 4294967295"),
    ),
    (
        ("class e3 1 2", "class e3 0 1 2"),
        ("class e3 1-2", "class e3 0-2"),
    ),
];

/// Each of the two texts is converted to either format: there, and back to the same bytes.
fn assert_pair<R: AllocGlobal + Abort>(rt: &R, ontology: &Ontology, first: &str, second: &str) {
    for text in [first, second] {
        assert!(rt;
            is_converted(rt.alloc(), ontology, text, Format::One, Ok(first)),
            "{first}"
        );
        assert!(rt;
            is_converted(rt.alloc(), ontology, text, Format::Two, Ok(second)),
            "{second}"
        );
    }
}

#[test]
fn there_and_back(rt: HostRuntime) -> Result<(), Fail> {
    let ontology = ontology_of(&rt, ONE_SUBCLASS_DOCUMENT)?;
    for ((old, new), (old_too, new_too)) in PAIRS {
        let first = changed(rt.alloc(), IN_FORMAT_ONE, old, new)?;
        let second = changed(rt.alloc(), IN_FORMAT_TWO, old_too, new_too)?;
        assert_pair(&rt, &ontology, &first, &second);
    }
    acceptable_in_both_formats();
    Ok(())
}

/// A part of the certificate in format 1 and what stands in its place; and why that is not converted to format 1, if it is not, and to
/// format 2.
type Refused = (
    &'static str,
    &'static str,
    Option<ConvertFault>,
    ConvertFault,
);

const REFUSED: &[Refused] = &[
    (
        "sub e0 e0 K1",
        "sub e0 e0 K1 1",
        None,
        ConvertFault::LaterPremise { line: 1 },
    ),
    (
        "3\nsub e3 e3 K1\nsub e3 e0 K2",
        "99\nsub e3 e3 K1\nsub e3 e0 K2 1",
        None,
        ConvertFault::LaterPremise { line: 5 },
    ),
    (
        "3\nsub e3 e3 K1\nsub e3 e0 K2\ndomain 3\nclass e2 1\nclass e3 1 2\nclaim e0 0\nclaim e2 1\nclaim e3 2\nend\n",
        "99\nsub e3 e3 K1\nsub e3 e0 K2 1\ndomain 3\nclass e2 1\nclass e3 1 2\nclaim e0 0\nclaim e2 1\nclaim e3 2\n",
        Some(ConvertFault::BadText { at: 185 }),
        ConvertFault::BadText { at: 185 },
    ),
];

// Elements of runs that were to be written out, past the bound: memory is refused before it is asked for.
#[test]
fn runs_of_too_many_elements(rt: HostRuntime) -> Result<(), Fail> {
    let ontology = ontology_of(&rt, ONE_SUBCLASS_DOCUMENT)?;
    let text = changed(
        rt.alloc(),
        IN_FORMAT_TWO,
        "domain 3\nclass e2 1\nclass e3 1-2",
        "domain 4294967295\nclass e2 1\nclass e3 1-4294967294",
    )?;
    for format in [Format::One, Format::Two] {
        assert!(rt;
            is_converted(
                rt.alloc(),
                &ontology,
                &text,
                format,
                Err(ConvertFault::Memory)
            )
        );
    }
    Ok(())
}

#[test]
fn certificates_that_are_not_converted(rt: HostRuntime) -> Result<(), Fail> {
    let ontology = ontology_of(&rt, ONE_SUBCLASS_DOCUMENT)?;
    for (old, new, to_one, to_two) in REFUSED {
        let text = changed(rt.alloc(), IN_FORMAT_ONE, old, new)?;
        let same = match to_one {
            Some(fault) => Err(*fault),
            None => Ok(text.as_str()),
        };
        assert!(rt;
            is_converted(rt.alloc(), &ontology, &text, Format::One, same),
            "{new}"
        );
        assert!(rt;
            is_converted(rt.alloc(), &ontology, &text, Format::Two, Err(*to_two)),
            "{new}"
        );
    }
    Ok(())
}
