//! A session that answers commands, over files into which it writes its texts.
ghost use Rattle.certificate.specs.declared.format.Format.TheVariants.{Two};
ghost use Rattle.cli.specs.Filing.{AreTextsFiled, IsFiledTold, IsFiling, IsInferenceFiled, IsInferring, IsServedAlone, IsToldAs, blamed_path, filed, filing_service, is_run, paths_of};
ghost use Rattle.telling.specs.Messages.{cannot_write};
ghost use Rattle.cli.specs.Messages.{summary_text};
ghost use Rattle.telling.specs.Devices.{seen};
ghost use Rattle.telling.specs.Progress.{IsProgress};
ghost use Rattle.source_lines.specs.Sources.{source_state};
ghost use Rattle.speech.specs.Answers.{session_service};
ghost use Rattle.speech.specs.Conversations.{IsConversation};
ghost use Rattle.speech.specs.Replies.{told, told_by};
ghost use Rattle.std.specs.Prelude.{◌≡◌, ◌≤◌, ◌&&◌, length};

use crate::printing::{print_summary, written_path};
use crate::sinks::sinks_of;
use crate::slicing::run_slices;
use certificate::Format;
use classification::Summary;
use command_line::Paths;
use device::{BufferSink, Memory, Sink, Source, write_all};
use program::Status;
use session::{Session, WritingFault, tell_drawn};
use speech::{
    Command, Ending, Reply, Service, SessionService, TextPaths, Writing, converse, unfinished_reply,
};
use std::alloc::Global;
use system_files::Files;
use telling::unwritten_message;

/// Writes the texts of the session into the files at the paths, the certificate in the second format. Where there is no memory for
/// all three, or facts are pending, nothing is written.
fn file_texts<F: Files>(
    files: &mut F,
    session: &Session,
    paths: &Paths<'_>,
) -> Result<Summary, WritingFault>
    ensures filed { AreTextsFiled paths.now Two (F.is_known files.old) session.now (F.content files.old) (F.content files.new)
        (F.failed_writes files.old) (F.failed_writes files.new) result }
    ensures known { F.is_known files.new ≡ F.is_known files.old }
{
    let Ok(mut sinks) = sinks_of(files, paths) else {
        return Err(WritingFault::Memory);
    };
    let written = session.write(
        &mut sinks.taxonomy,
        &mut sinks.instances,
        &mut sinks.certificate,
        Format::Two,
    );
    files.close(sinks.taxonomy);
    files.close(sinks.instances);
    files.close(sinks.certificate);
    written
}

/// Writes what the session infers into the file at the path. Where there is no memory for it, or facts are pending, nothing is written.
fn file_inferred<F: Files>(
    files: &mut F,
    session: &Session,
    path: &str,
) -> Result<Summary, WritingFault>
    ensures filed { IsInferenceFiled path.now (F.is_known files.old) session.now (F.content files.old) (F.content files.new)
        (F.failed_writes files.old) (F.failed_writes files.new) result }
    ensures known { F.is_known files.new ≡ F.is_known files.old }
{
    let inferred = match session.inferred() {
        Ok(inferred) => inferred,
        Err(fault) => return Err(fault),
    };
    let Ok(mut sink) = files.writer(path) else {
        return Err(WritingFault::Memory);
    };
    let written = write_all(&mut sink, &inferred.text);
    files.close(sink);
    match written {
        Ok(()) => Ok(inferred.summary),
        Err(_) => Err(WritingFault::Io(1)),
    }
}

/// The path of the text that a fault is about, if it is about one.
fn blamed_path<'p>(paths: &Paths<'p>, answer: &Result<Summary, WritingFault>) -> &'p str
    ensures { result.now ≡ blamed_path paths.now answer.now }
{
    match answer {
        Err(WritingFault::Io(number)) => written_path(paths, *number),
        _ => "",
    }
}

/// The reply with the counts, or with nothing where there is no memory for them: the texts are written by then.
fn counted_reply(alloc: Global, summary: &Summary) -> Reply
    ensures { IsToldAs Status.Done (summary_text summary.now) (told result.status result.text.items) }
{
    let mut line = BufferSink::new(alloc);
    if print_summary(&mut line, summary) != Status::Done.code() {
        return Reply {
            status: Status::Done,
            text: Vec::new(alloc),
        };
    }
    Reply {
        status: Status::Done,
        text: line.into_bytes(),
    }
}

/// The reply that the file at the path is not written, without its text where there is no memory for that.
fn unwritten_reply(alloc: Global, path: &str) -> Reply
    ensures { IsToldAs Status.File (cannot_write path.now) (told result.status result.text.items) }
{
    match unwritten_message(alloc, path) {
        Ok(message) => Reply {
            status: message.status,
            text: message.text.into_bytes(),
        },
        Err(_) => Reply {
            status: Status::File,
            text: Vec::new(alloc),
        },
    }
}

/// The reply that what was asked for is written, or why not; the path is that of the file that was not written.
fn filed_reply(
    alloc: Global,
    answer: Result<Summary, WritingFault>,
    path: &str,
) -> Result<Reply, Memory>
    ensures { IsFiledTold path.now answer (told_by result) }
{
    match answer {
        Ok(summary) => Ok(counted_reply(alloc, &summary)),
        Err(WritingFault::Unfinished) => unfinished_reply(alloc),
        Err(WritingFault::Memory) => Err(Memory),
        Err(WritingFault::Io(_)) => Ok(unwritten_reply(alloc, path)),
    }
}

/// Whether the command is a run of which it is told how far it is.
fn is_told_run(told: bool, command: Command<'_>) -> bool
    ensures { result ≡ (told && is_run command.entry) }
{
    told && matches!(command, Command::Run)
}

/// A session over the document at the path, which answers commands and writes its texts into the files. Where progress is told, `err` is
/// told how far a run is.
#[derive(Drop)]
pub(crate) struct FileService<'f, 'e, F: Files, E: Sink> {
    pub document: &'f str,
    pub service: &'f mut SessionService,
    pub files: &'f mut F,
    pub told: bool,
    pub err: &'e mut E,
}

impl<'f, 'e, F: Files, E: Sink> FileService<'f, 'e, F, E> {
    /// Writes the texts into the files at the paths, and tells that.
    fn file(&mut self, texts: &TextPaths<'_>) -> Result<Reply, Memory>
        ensures filing { IsFiling (F.is_known self.old.files.now) (paths_of self.old.document texts.now) (filed F.Files self.old) (told_by result) (filed F.Files self.new) }
        ensures document { self.new.document ≡ self.old.document }
        ensures told { self.new.told ≡ self.old.told }
        ensures known { F.is_known self.new.files.now ≡ F.is_known self.old.files.now }
        ensures files { self.new.files.ghost_name ≡ self.old.files.ghost_name }
        ensures err { self.new.err ≡ self.old.err }
    {
        let paths = Paths {
            document: self.document,
            taxonomy: texts.taxonomy,
            instances: texts.instances,
            certificate: texts.certificate,
        };
        self.service.session.well_formed();
        let answer = file_texts(self.files, &self.service.session, &paths);
        let blamed = blamed_path(&paths, &answer);
        filed_reply(self.service.alloc, answer, blamed)
    }

    /// Writes what is inferred into the file at the path, and tells that.
    fn infer(&mut self, path: &str) -> Result<Reply, Memory>
        ensures inferring { IsInferring (F.is_known self.old.files.now) path.now (filed F.Files self.old) (told_by result) (filed F.Files self.new) }
        ensures document { self.new.document ≡ self.old.document }
        ensures told { self.new.told ≡ self.old.told }
        ensures known { F.is_known self.new.files.now ≡ F.is_known self.old.files.now }
        ensures files { self.new.files.ghost_name ≡ self.old.files.ghost_name }
        ensures err { self.new.err ≡ self.old.err }
    {
        self.service.session.well_formed();
        let answer = file_inferred(self.files, &self.service.session, path);
        filed_reply(self.service.alloc, answer, path)
    }

    /// Answers a command that writes nothing. Where progress is told, a run is one in slices, behind each of which it is told how far it
    /// is.
    fn serve(&mut self, command: Command<'_>, payload: &[u8]) -> Result<Reply, Memory>
        requires { length payload.now ≤ session_service.room self.old.service.now }
        ensures served { IsServedAlone self.old.told (filed F.Files self.old) command.entry payload.now (told_by result) (filed F.Files self.new) }
        ensures document { self.new.document ≡ self.old.document }
        ensures told { self.new.told ≡ self.old.told }
        ensures files { self.new.files ≡ self.old.files }
        ensures progress { IsProgress self.old.told (seen E.Sink self.old.err.now) (seen E.Sink self.new.err.now) }
        ensures err { self.new.err.ghost_name ≡ self.old.err.ghost_name }
    {
        let slices = is_told_run(self.told, command);
        run_slices(self.service, slices, self.err);
        let reply = self.service.answer(command, payload);
        tell_drawn(&self.service.session, slices, self.err);
        reply
    }
}

impl<'f, 'e, F: Files, E: Sink> Service for FileService<'f, 'e, F, E> {
    ghost use Rattle.cli.specs.Filing.{IsFiledIn};
    ghost use Rattle.speech.specs.Answers.{session_service};

    ghost steps = { IsFiledIn F.Files E.Sink };

    ghost room = { λ s. session_service.room s.service.now };

    fn most_payload(&self) -> u64 {
        self.service.most_payload()
    }

    fn answer(&mut self, command: Command<'_>, payload: &[u8]) -> Result<Reply, Memory> {
        match command.writing() {
            Some(Writing::Texts(texts)) => self.file(&texts),
            Some(Writing::Inferred(path)) => self.infer(path),
            None => self.serve(command, payload),
        }
    }
}

/// Answers the commands that are read, until there are no more, and writes texts into the files.
pub(crate) fn converse_over_files<F: Files, E: Sink, S: Source, O: Sink>(
    alloc: Global,
    service: &mut FileService<'_, '_, F, E>,
    source: &mut S,
    sink: &mut O,
) -> Ending
    ensures spoken { IsConversation (filing_service (F.is_known service.old.files.now) service.old.told service.old.document) (filed F.Files service.old) (filed F.Files service.new)
        (source_state S.Source source.old) (source_state S.Source source.new) (seen O.Sink sink.old) (seen O.Sink sink.new) result }
    ensures files { service.new.files.ghost_name ≡ service.old.files.ghost_name }
    ensures progress { IsProgress service.old.told (seen E.Sink service.old.err.now) (seen E.Sink service.new.err.now) }
    ensures err { service.new.err.ghost_name ≡ service.old.err.ghost_name }
{
    converse(alloc, service, source, sink)
}
