//! Sessions that write their texts to sinks, of which one fails at each of its calls in turn.

use crate::additions::{INDIVIDUALS_AND_DOMAIN, MANY, opened};
use device::BufferSink;
use failing_devices::FailingSink;
use session::{Format, Session, Summary, WritingFault};
use std::alloc::Global;
use std::hash::RandomState;
use std::test::Fail;

/// What the sinks have taken, and what was answered.
#[derive(Drop)]
struct Taken {
    taxonomy: Vec<u8>,
    instances: Vec<u8>,
    certificate: Vec<u8>,
    answer: Result<Summary, WritingFault>,
}

/// A sink of the place that takes at most so many bytes a call, and fails behind so many calls if it is the failing one.
fn sink_at(
    alloc: Global,
    place: usize,
    failing: usize,
    calls: usize,
    piece: usize,
) -> FailingSink<BufferSink> {
    let calls = if place == failing { calls } else { usize::MAX };
    FailingSink::new(BufferSink::new(alloc), calls, piece)
}

/// What is written where the sink of a place, 1 to 3, fails behind so many calls.
fn written(alloc: Global, session: &Session, failing: usize, calls: usize, piece: usize) -> Taken {
    let mut taxonomy = sink_at(alloc, 1, failing, calls, piece);
    let mut instances = sink_at(alloc, 2, failing, calls, piece);
    let mut certificate = sink_at(alloc, 3, failing, calls, piece);
    let answer = session.write(&mut taxonomy, &mut instances, &mut certificate, Format::One);
    Taken {
        taxonomy: taxonomy.inner.into_bytes(),
        instances: instances.inner.into_bytes(),
        certificate: certificate.inner.into_bytes(),
        answer,
    }
}

/// Whether this is the front of the whole text: all of it before the failing place, so many bytes there, and nothing behind.
fn is_cut(taken: &[u8], whole: &[u8], place: usize, failing: usize, bytes: usize) -> bool {
    let most = if place < failing {
        whole.len()
    } else if place == failing {
        bytes.min(whole.len())
    } else {
        0
    };
    taken == &whole[..most]
}

/// Whether all texts are cut so.
fn are_cut(taken: &Taken, whole: &Taken, failing: usize, bytes: usize) -> bool {
    is_cut(&taken.taxonomy, &whole.taxonomy, 1, failing, bytes)
        && is_cut(&taken.instances, &whole.instances, 2, failing, bytes)
        && is_cut(&taken.certificate, &whole.certificate, 3, failing, bytes)
}

/// The place of no sink.
const NOWHERE: usize = 4;

/// Whether each call of the sink at the place, if it fails, stops the writing there, as long as a byte of the text is left; and all
/// is written where that sink fails behind the last.
fn stops(alloc: Global, session: &Session, whole: &Taken, failing: usize, piece: usize) -> bool {
    let length = match failing {
        1 => whole.taxonomy.len(),
        2 => whole.instances.len(),
        _ => whole.certificate.len(),
    };
    for calls in 0..=length {
        let taken = written(alloc, session, failing, calls, piece);
        let bytes = calls.saturating_mul(piece);
        let right = if bytes < length {
            taken.answer == Err(WritingFault::Io(failing)) && are_cut(&taken, whole, failing, bytes)
        } else {
            taken.answer == whole.answer && are_cut(&taken, whole, NOWHERE, 0)
        };
        if !right {
            return false;
        }
    }
    true
}

const TAXONOMY: &str =
    "eltax 1 consistent\n<http://www.w3.org/2002/07/owl#Thing>\n<x:A> < <x:B>\n<x:B> < <http://www.w3.org/2002/07/owl#Thing>\n<x:C> < <http://www.w3.org/2002/07/owl#Thing>\nbottom <http://www.w3.org/2002/07/owl#Nothing>\n";

const INSTANCES: &str =
    "elinst 1 consistent\n<x:a> : <x:A> , <x:C>\n<x:b> : <http://www.w3.org/2002/07/owl#Thing>\n<x:c> : <http://www.w3.org/2002/07/owl#Thing>\n";

const SUMMARY: Summary = Summary {
    consistent: true,
    classes: 5,
    individuals: 3,
    facts: 17,
};

/// Whether these are the texts of the document.
fn are_whole(taken: &Taken) -> bool {
    taken.answer == Ok(SUMMARY)
        && taken.taxonomy.as_slice() == TAXONOMY.as_bytes()
        && taken.instances.as_slice() == INSTANCES.as_bytes()
        && taken
            .certificate
            .starts_with(b"elcert 1 consistent\n".as_slice())
        && taken.certificate.ends_with(b"\nend\n".as_slice())
}

/// Whether each sink stops the writing so, with as many bytes a call.
fn each_stops(alloc: Global, session: &Session, whole: &Taken, piece: usize) -> bool {
    stops(alloc, session, whole, 1, piece)
        && stops(alloc, session, whole, 2, piece)
        && stops(alloc, session, whole, 3, piece)
}

/// Whether the session, at its end, writes its texts, and is stopped so by each sink: by one that takes a byte a call, and by one that
/// takes all in a call.
fn writes(alloc: Global, session: &mut Session) -> bool {
    if session.resume(MANY) != Ok(()) {
        return false;
    }
    let whole = written(alloc, session, NOWHERE, 0, usize::MAX);
    are_whole(&whole)
        && each_stops(alloc, session, &whole, 1)
        && each_stops(alloc, session, &whole, usize::MAX)
}

#[test]
fn each_call_of_a_sink_fails(rt: HostRuntime) -> Result<(), Fail> {
    let state = RandomState::new(&rt)?;
    let session = opened(rt.alloc(), state, 1000, INDIVIDUALS_AND_DOMAIN)?;
    let mut session = session.ok_or("session")?;
    let right = writes(rt.alloc(), &mut session);
    drop(session);
    assert!(rt; right);
    Ok(())
}
