//! How the faults show themselves whose texts no contract says, and that a program which passes one on tells it so.

use axioms::BuildFault;
use certificate::{CertFault, MakeFault};
use certificate_text::CertWriteFault;
use cli::{
    AskFault, CheckFault, ClassifyFault, ConversionFault, ConvertFault, DocumentFault,
    InferenceFault, LineFault, QueryFault, QuestionFault, RestrictionFault, Stop, WritingFault,
};
use device::{Failed, Memory, ReadFault, WriteFault};
use fs_parser::Stopped;
use interpretation_spec::InterpretationFault;
use session::RunFault;
use source_lines::StreamFault;
use std::alloc::{AllocError, Global};
use std::error::Error;
use std::test::Fail;

/// Whether the fault is shown by the text.
fn is_shown<E: Error>(alloc: Global, fault: E, text: &str) -> Result<bool, AllocError> {
    let shown = format!(in alloc; "{fault}")?;
    Ok(shown.as_str() == text)
}

/// Whether each fault is shown by the text beside it.
fn are_shown<E: Error>(alloc: Global, rows: &[(E, &str)]) -> Result<bool, AllocError> {
    for (fault, text) in rows {
        if !is_shown(alloc, fault, text)? {
            return Ok(false);
        }
    }
    Ok(true)
}

const FAILED: &[(Failed, &str)] = &[(Failed, "the device failed")];

const MEMORY: &[(Memory, &str)] = &[(Memory, "out of memory")];

const WRITE: &[(WriteFault, &str)] = &[
    (WriteFault::Io, "the sink failed"),
    (WriteFault::Memory, "out of memory"),
];

const READ: &[(ReadFault, &str)] = &[
    (ReadFault::Memory, "out of memory"),
    (ReadFault::Failed, "the source failed"),
    (ReadFault::TooLarge, "more bytes than the limit"),
];

const STREAM: &[(StreamFault, &str)] = &[
    (StreamFault::Io, "the source failed"),
    (StreamFault::Memory, "out of memory"),
];

#[test]
fn faults_of_devices(rt: HostRuntime) -> Result<(), Fail> {
    let alloc = rt.alloc();
    assert!(rt; are_shown(alloc, FAILED)?, "Failed");
    assert!(rt; are_shown(alloc, MEMORY)?, "Memory");
    assert!(rt; are_shown(alloc, WRITE)?, "WriteFault");
    assert!(rt; are_shown(alloc, READ)?, "ReadFault");
    assert!(rt; are_shown(alloc, STREAM)?, "StreamFault");
    Ok(())
}

const BUILD: &[(BuildFault, &str)] = &[
    (BuildFault::Memory, "out of memory"),
    (BuildFault::TooManyNames, "more than 1000000 names"),
];

const INTERPRETATION: &[(InterpretationFault, &str)] = &[
    (
        InterpretationFault::EmptyDomain,
        "a domain has at least one element",
    ),
    (InterpretationFault::OutOfDomain, "a number is out of range"),
    (InterpretationFault::Memory, "out of memory"),
    (
        InterpretationFault::FixedClass,
        "owl:Thing and owl:Nothing are fixed",
    ),
];

const STOPPED: &[(Stopped, &str)] = &[(Stopped, "no tree of a document, or out of memory")];

#[test]
fn faults_of_names_and_documents(rt: HostRuntime) -> Result<(), Fail> {
    let alloc = rt.alloc();
    assert!(rt; are_shown(alloc, BUILD)?, "BuildFault");
    assert!(rt; are_shown(alloc, INTERPRETATION)?, "InterpretationFault");
    assert!(rt; are_shown(alloc, STOPPED)?, "Stopped");
    Ok(())
}

const MAKE: &[(MakeFault, &str)] = &[
    (
        MakeFault::NoText,
        "these lines and this interpretation have no text",
    ),
    (MakeFault::Memory, "out of memory"),
];

const CERT: &[(CertFault, &str)] = &[
    (CertFault::BadText { at: 7 }, "no certificate: byte 7"),
    (CertFault::Memory, "out of memory"),
];

const CERT_WRITE: &[(CertWriteFault, &str)] = &[
    (
        CertWriteFault::LaterPremise { line: 3 },
        "line 3 has a later premise",
    ),
    (CertWriteFault::Io, "the sink failed"),
    (CertWriteFault::Memory, "out of memory"),
];

const CERT_TEXT: &[(certificate::TextFault, &str)] = &[
    (
        certificate::TextFault::BadText { at: 0 },
        "no certificate: byte 0",
    ),
    (certificate::TextFault::Io, "the source failed"),
    (certificate::TextFault::Memory, "out of memory"),
];

const CONVERT: &[(ConvertFault, &str)] = &[
    (ConvertFault::BadText { at: 10 }, "no certificate: byte 10"),
    (
        ConvertFault::LaterPremise { line: 1 },
        "line 1 has a later premise",
    ),
    (ConvertFault::Io, "the sink failed"),
    (ConvertFault::Memory, "out of memory"),
];

#[test]
fn faults_of_certificates(rt: HostRuntime) -> Result<(), Fail> {
    let alloc = rt.alloc();
    assert!(rt; are_shown(alloc, MAKE)?, "MakeFault");
    assert!(rt; are_shown(alloc, CERT)?, "CertFault");
    assert!(rt; are_shown(alloc, CERT_WRITE)?, "CertWriteFault");
    assert!(rt; are_shown(alloc, CERT_TEXT)?, "TextFault");
    assert!(rt; are_shown(alloc, CONVERT)?, "ConvertFault");
    Ok(())
}

const STOP: &[(Stop, &str)] = &[
    (Stop::Memory, "out of memory"),
    (Stop::Limit, "more facts than the limit"),
];

const ASK: &[(AskFault<'static>, &str)] = &[
    (AskFault::Unfinished, "facts are pending"),
    (AskFault::UnknownName("x:A"), "unknown name <x:A>"),
    (AskFault::Memory, "out of memory"),
];

const TEXT: &[(WritingFault, &str)] = &[
    (WritingFault::Unfinished, "facts are pending"),
    (WritingFault::Memory, "out of memory"),
    (WritingFault::Io(2), "sink 2 failed"),
];

fn run_faults_are_shown(alloc: Global) -> Result<bool, AllocError> {
    Ok(
        is_shown(alloc, RunFault::Document(DocumentFault::TooLarge), "U2")?
            && is_shown(alloc, RunFault::Limit, "more facts than the limit")?
            && is_shown(alloc, RunFault::Memory, "out of memory")?,
    )
}

fn question_faults_are_shown(alloc: Global) -> Result<bool, AllocError> {
    Ok(
        is_shown(
            alloc,
            QuestionFault::Document(DocumentFault::NotUtf8 { at: 4 }),
            "U1 at byte 4",
        )? && is_shown(
            alloc,
            QuestionFault::Expression(DocumentFault::TooManyNames),
            "A2",
        )? && is_shown(
            alloc,
            QuestionFault::UnknownName("x:A"),
            "unknown name <x:A>",
        )? && is_shown(alloc, QuestionFault::Limit, "more facts than the limit")?
            && is_shown(alloc, QuestionFault::Memory, "out of memory")?,
    )
}

fn query_faults_are_shown(alloc: Global) -> Result<bool, AllocError> {
    Ok(
        is_shown(alloc, QueryFault::Expression(DocumentFault::TooLarge), "U2")?
            && is_shown(alloc, QueryFault::Unfinished, "facts are pending")?
            && is_shown(alloc, QueryFault::Limit, "more facts than the limit")?
            && is_shown(alloc, QueryFault::Memory, "out of memory")?,
    )
}

#[test]
fn faults_of_sessions(rt: HostRuntime) -> Result<(), Fail> {
    let alloc = rt.alloc();
    assert!(rt; are_shown(alloc, STOP)?, "Stop");
    assert!(rt; run_faults_are_shown(alloc)?, "RunFault");
    assert!(rt; question_faults_are_shown(alloc)?, "QuestionFault");
    assert!(rt; query_faults_are_shown(alloc)?, "QueryFault");
    assert!(rt; are_shown(alloc, ASK)?, "AskFault");
    assert!(rt; are_shown(alloc, TEXT)?, "WritingFault");
    Ok(())
}

const LINE: &[(speech::CommandFault, &str)] = &[
    (speech::CommandFault::Unknown, "no command"),
    (speech::CommandFault::Size, "no size"),
];

fn classify_faults_are_shown(alloc: Global) -> Result<bool, AllocError> {
    Ok(
        is_shown(alloc, ClassifyFault::Document(DocumentFault::Io), "U3")?
            && is_shown(alloc, ClassifyFault::Memory, "out of memory")?
            && is_shown(alloc, ClassifyFault::Limit, "more facts than the limit")?
            && is_shown(alloc, ClassifyFault::Io(1), "sink 1 failed")?,
    )
}

fn check_faults_are_shown(alloc: Global) -> Result<bool, AllocError> {
    Ok(
        is_shown(alloc, CheckFault::Document(DocumentFault::TooLarge), "U2")?
            && is_shown(alloc, CheckFault::Memory, "out of memory")?
            && is_shown(alloc, CheckFault::Io(4), "source 4 failed")?,
    )
}

fn conversion_faults_are_shown(alloc: Global) -> Result<bool, AllocError> {
    Ok(
        is_shown(
            alloc,
            ConversionFault::Document(DocumentFault::TooLarge),
            "U2",
        )? && is_shown(
            alloc,
            ConversionFault::Certificate(ConvertFault::BadText { at: 5 }),
            "no certificate: byte 5",
        )? && is_shown(
            alloc,
            ConversionFault::Unread,
            "the certificate's source failed",
        )?,
    )
}

fn restriction_faults_are_shown(alloc: Global) -> Result<bool, AllocError> {
    Ok(
        is_shown(
            alloc,
            RestrictionFault::Document {
                fault: DocumentFault::TooLarge,
                bytes: Vec::new(alloc),
            },
            "U2",
        )? && is_shown(alloc, RestrictionFault::Unwritten, "the text's sink failed")?,
    )
}

fn inference_faults_are_shown(alloc: Global) -> Result<bool, AllocError> {
    Ok(
        is_shown(
            alloc,
            InferenceFault::Run(RunFault::Limit),
            "more facts than the limit",
        )? && is_shown(alloc, InferenceFault::Unwritten, "the text's sink failed")?,
    )
}

#[test]
fn faults_of_programs(rt: HostRuntime) -> Result<(), Fail> {
    let alloc = rt.alloc();
    assert!(rt; are_shown(alloc, LINE)?, "CommandFault");
    assert!(rt; classify_faults_are_shown(alloc)?, "ClassifyFault");
    assert!(rt; check_faults_are_shown(alloc)?, "CheckFault");
    assert!(rt; conversion_faults_are_shown(alloc)?, "ConversionFault");
    assert!(rt; restriction_faults_are_shown(alloc)?, "RestrictionFault");
    assert!(rt; inference_faults_are_shown(alloc)?, "InferenceFault");
    assert!(rt;
        is_shown(alloc, LineFault::Memory, "out of memory")?,
        "LineFault"
    );
    Ok(())
}

/// What a program answers that passes the fault on.
fn passed_on(answer: Result<(), QuestionFault<'_>>) -> anyhow::Result<()> {
    answer?;
    Ok(())
}

#[test]
fn fault_passed_on_as_an_error_of_a_program(rt: HostRuntime) -> Result<(), Fail> {
    let Err(error) = passed_on(Err(QuestionFault::UnknownName("x:A"))) else {
        return Err(Fail::from("no fault"));
    };
    let text = format!(in rt.alloc(); "{error}")?;
    assert!(rt; text.as_str() == "unknown name <x:A>");
    Ok(())
}
