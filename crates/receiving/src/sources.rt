//! Sources of files.
ghost use Rattle.receiving.specs.Files.{IsSourceOf};
ghost use Rattle.source_lines.specs.Sources.{source_state};
ghost use Rattle.std.specs.Prelude.{IfOk};

use command_line::{Conversion, Paths};
use device::Memory;
use system_files::Files;

/// A source of the file at the path, of which nothing is read. Where there is no file, each read of it fails.
pub fn source_of<F: Files>(files: &F, path: &str) -> Result<F::In, Memory>
    ensures { IfOk result (λ s. IsSourceOf (F.is_known files.now) (F.content files.now path.now) (source_state F.In.Source s)) }
{
    files.reader(path)
}

/// The sources of a document and of the three texts.
#[derive(Drop)]
pub(crate) struct CheckSources<S: Drop> {
    pub document: S,
    pub taxonomy: S,
    pub instances: S,
    pub certificate: S,
}

/// Sources of the four files, of which nothing is read.
pub(crate) fn check_sources<F: Files>(
    files: &F,
    paths: &Paths<'_>,
) -> Result<CheckSources<F::In>, Memory>
    ensures document { IfOk result (λ s. IsSourceOf (F.is_known files.now) (F.content files.now paths.now.document.now) (source_state F.In.Source s.document)) }
    ensures taxonomy { IfOk result (λ s. IsSourceOf (F.is_known files.now) (F.content files.now paths.now.taxonomy.now) (source_state F.In.Source s.taxonomy)) }
    ensures instances { IfOk result (λ s. IsSourceOf (F.is_known files.now) (F.content files.now paths.now.instances.now) (source_state F.In.Source s.instances)) }
    ensures certificate { IfOk result (λ s. IsSourceOf (F.is_known files.now) (F.content files.now paths.now.certificate.now) (source_state F.In.Source s.certificate)) }
{
    let document = source_of(files, paths.document)?;
    let taxonomy = source_of(files, paths.taxonomy)?;
    let instances = source_of(files, paths.instances)?;
    let certificate = source_of(files, paths.certificate)?;
    Ok(CheckSources {
        document,
        taxonomy,
        instances,
        certificate,
    })
}

/// The sources of a document and of a certificate.
#[derive(Drop)]
pub(crate) struct BothSources<S: Drop> {
    pub document: S,
    pub certificate: S,
}

/// Sources of the two files that a conversion reads, of which nothing is read.
pub(crate) fn both_sources<F: Files>(
    files: &F,
    conversion: &Conversion<'_>,
) -> Result<BothSources<F::In>, Memory>
    ensures document { IfOk result (λ s. IsSourceOf (F.is_known files.now) (F.content files.now conversion.now.document.now) (source_state F.In.Source s.document)) }
    ensures certificate { IfOk result (λ s. IsSourceOf (F.is_known files.now) (F.content files.now conversion.now.certificate.now) (source_state F.In.Source s.certificate)) }
{
    let document = source_of(files, conversion.document)?;
    let certificate = source_of(files, conversion.certificate)?;
    Ok(BothSources {
        document,
        certificate,
    })
}
