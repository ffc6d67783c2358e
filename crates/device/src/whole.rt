//! Whole texts through sources and sinks.
ghost use Rattle.std.specs.Prelude.{◌≡◌, ◌+◌, ◌<◌, ◌≤◌, IfOk, OnOk, OnErr, IsErrOf, length};
ghost use Rattle.std.specs.Io.KnownBytes.{Appends, Consumes, IsAtEnd};
ghost use Rattle.device.specs.Device.{HasFailed, AppendsPrefix, LosesFront, IsLongerThan};

use crate::device::{Failed, Sink, Source};
use std::alloc::Global;
use thiserror::Error;

/// Writes a whole text, in as many pieces as the sink takes.
///
/// It fails only where the sink failed in this call, which then has taken a prefix of the text.
pub fn write_all<S: Sink>(sink: &mut S, text: &[u8]) -> Result<(), Failed>
    ensures ok { OnOk result (Appends (S.taken sink.old) (S.taken sink.new) text.now) }
    ensures begun { AppendsPrefix (S.taken sink.old) (S.taken sink.new) text.now }
    ensures path { S.path sink.new ≡ S.path sink.old }

    ensures unfailed { OnOk result (S.failures sink.new ≡ S.failures sink.old) }
    ensures failed { OnErr result (HasFailed (S.failures sink.old) (S.failures sink.new)) }
    ensures count { S.failures sink.old ≤ S.failures sink.new }
{
    let mut at = 0;
    while at < text.len() {
        at += sink.write(&text[at..])?;
    }
    Ok(())
}

/// Why a source was not read to its end.
#[derive(Clone, Copy, Debug, PartialEq, Eq, Error)]
pub enum ReadFault {
    /// Memory was refused.
    #[error("out of memory")]
    Memory,
    /// The source failed.
    #[error("the source failed")]
    Failed,
    /// The source has more bytes than the limit.
    #[error("more bytes than the limit")]
    TooLarge,
}

/// Reads all the bytes that are left, unless they are more than `limit`.
///
/// # Errors
///
/// `TooLarge` where there are more than `limit`, `Failed` where the source failed in this call, and `Memory` where memory
/// was refused. What was read by then is lost.
pub fn read_all<S: Source>(
    alloc: Global,
    source: &mut S,
    limit: usize,
) -> Result<Vec<u8>, ReadFault>
    ensures ok { IfOk result (λ bytes. Consumes (S.left source.old) (S.left source.new) bytes.items) }
    ensures end { OnOk result (IsAtEnd (S.left source.new)) }
    ensures within { IfOk result (λ bytes. length bytes.items ≤ limit) }
    ensures large { IsErrOf result ReadFault.TooLarge → IsLongerThan (S.left source.old) limit }

    // Of a source that does not tell its bytes, too: it can give as many less as were read.
    ensures fell { IfOk result (λ bytes. S.most source.new + length bytes.items ≡ S.most source.old) }
    ensures beyond { IsErrOf result ReadFault.TooLarge → S.most source.new + limit < S.most source.old }
    ensures lost { LosesFront (S.left source.old) (S.left source.new) (S.most source.old) (S.most source.new) }

    ensures unfailed { ¬ IsErrOf result ReadFault.Failed → S.failures source.new ≡ S.failures source.old }
    ensures failed { IsErrOf result ReadFault.Failed → HasFailed (S.failures source.old) (S.failures source.new) }
    ensures count { S.failures source.old ≤ S.failures source.new }
{
    let mut bytes: Vec<u8> = Vec::new(alloc);
    let mut buffer = [0; 4096];
    loop {
        let n = match source.read(&mut buffer) {
            Ok(n) => n,
            Err(Failed) => return Err(ReadFault::Failed),
        };
        if n == 0 {
            return Ok(bytes);
        }
        if n > limit - bytes.len() {
            return Err(ReadFault::TooLarge);
        }
        if bytes.extend_from_slice(&buffer[..n]).is_err() {
            return Err(ReadFault::Memory);
        }
    }
}
