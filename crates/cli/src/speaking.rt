//! A run that keeps a document, and answers commands.
ghost use Rattle.receiving.specs.Files.{BlamesFile};
ghost use Rattle.cli.specs.Runs.{RunsTelling};
ghost use Rattle.profile.specs.Faults.{OpensKnown, RefusesKnown};
ghost use Rattle.session.specs.Sessions.{as_read};
ghost use Rattle.std.specs.Prelude.{◌≡◌, [], IfErr, IfOk};

use crate::filing::{FileService, converse_over_files};
use command_line::Command;
use device::Sink;
use profile::DocumentFault;
use receiving::{Reading, source_of};
use session::{Session, tell_opened};
use speech::SessionService;
use system_files::Files;
use telling::{document_message, tell, tell_out_of_memory};

/// The file that commands are read from.
pub const INPUT: &str = "/dev/stdin";

/// A session over a document.
#[derive(Clone, Copy)]
pub(crate) struct SessionRun<'a> {
    pub reading: Reading<'a>,
    /// Whether it tells how far it is.
    pub progress: bool,
}

/// A session over the document at the path.
fn session_in<F: Files>(reading: &Reading<'_>, files: &F) -> Result<Session, DocumentFault>
    ensures opened { IfOk result (λ s. OpensKnown reading.now.limits.version (F.content files.now reading.now.path.now) reading.now.limits.max_bytes (as_read s)) }
    ensures limit { IfOk result (λ s. s.most_bytes ≡ reading.now.limits.max_bytes) }
    ensures version { IfOk result (λ s. s.version ≡ reading.now.limits.version) }
    ensures unserved { IfOk result (λ s. s.saturation.state.served ≡ []) }
    ensures refused { IfErr result (RefusesKnown reading.now.limits.version (F.content files.now reading.now.path.now) reading.now.limits.max_bytes) }
    ensures blames { IfErr result (BlamesFile F.reads_fail (F.is_known files.now) (F.content files.now reading.now.path.now)) }
{
    let means = reading.means;
    let Ok(mut document) = source_of(files, reading.path) else {
        return Err(DocumentFault::Memory);
    };
    Session::open(means.alloc, &mut document, &reading.limits, means.state)
}

/// Opens the document, and answers the commands that are read, until there are no more, over the files.
pub(crate) fn perform_session<F: Files, O: Sink, E: Sink>(
    run: &SessionRun<'_>,
    files: &mut F,
    out: &mut O,
    err: &mut E,
) -> u8
    ensures { RunsTelling F.Files O.Sink E.Sink run.now.progress (Command.Session run.now.reading.path) run.now.reading.limits
        (files.old, out.old, err.old) (files.new, out.new, err.new) result }
{
    let path = run.reading.path;
    let limits = run.reading.limits;
    let alloc = run.reading.means.alloc;
    let session = match session_in(&run.reading, files) {
        Ok(session) => session,
        Err(fault) => return tell(err, document_message(alloc, &fault, path, &limits)),
    };
    tell_opened(&session, run.progress, err);
    session.well_formed();
    let Ok(mut input) = source_of(files, INPUT) else {
        return tell_out_of_memory(err);
    };
    let mut service = SessionService {
        alloc,
        session,
        limits,
    };
    let mut filing = FileService {
        document: path,
        service: &mut service,
        files,
        told: run.progress,
        err,
    };
    converse_over_files(alloc, &mut filing, &mut input, out)
        .status()
        .code()
}
