//! The sinks of the three texts in files.
ghost use Rattle.cli.specs.FileSinks.{HasFresh, HaveNotFailed};
ghost use Rattle.std.specs.Prelude.{◌≡◌, ℕ, List, IfOk};

use axioms::Memory;
use command_line::Paths;
use system_files::Files;

/// The sinks of the three texts.
#[derive(Drop)]
pub(crate) struct TextSinks<S: Drop> {
    pub taxonomy: S,
    pub instances: S,
    pub certificate: S,
}

/// Sinks of the files of the three texts, which have taken nothing. The files hold what they did.
pub(crate) fn sinks_of<F: Files>(
    files: &mut F,
    paths: &Paths<'_>,
) -> Result<TextSinks<F::Out>, Memory>
    ensures fresh { IfOk result (λ s. HasFresh F.Out.Sink (F.is_known files.old) paths.now (F.has_place files.new)
        s.taxonomy s.instances s.certificate) }
    ensures working { IfOk result (λ s. HaveNotFailed F.Out.Sink s.taxonomy s.instances s.certificate) }
    ensures kept { (path : List ℕ) → F.content files.new path ≡ F.content files.old path }
    ensures known { F.is_known files.new ≡ F.is_known files.old }
    ensures unfailed { F.failed_writes files.new ≡ F.failed_writes files.old }
{
    let taxonomy = files.writer(paths.taxonomy)?;
    let instances = files.writer(paths.instances)?;
    let certificate = files.writer(paths.certificate)?;
    Ok(TextSinks {
        taxonomy,
        instances,
        certificate,
    })
}
