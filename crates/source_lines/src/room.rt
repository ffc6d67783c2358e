//! The buffer of the lines of a source, and room in it.
ghost use Rattle.std.specs.Prelude.{◌≡◌, ◌+◌, ◌-◌, ◌<◌, ◌≤◌, [], IfOk, OnErr, OnOk, length, slice_range, take};
ghost use Rattle.std.specs.Io.KnownBytes.{IsAtEnd};
ghost use Rattle.device.specs.Device.{HasFailed};
ghost use Rattle.source_lines.specs.Sources.{Gives, source_state};

use device::{Failed, Source};
use std::alloc::AllocError;

/// The room of a buffer that had none.
const FIRST_ROOM: usize = 65_536;

/// Moves the bytes between two places to the front.
fn move_to_front(buffer: &mut Vec<u8>, start: usize, filled: usize)
    requires ordered { start ≤ filled }
    requires within { filled ≤ length buffer.old.items }
    ensures len { length buffer.new.items ≡ length buffer.old.items }
    ensures moved { slice_range buffer.new.items 0 (filled - start) ≡ slice_range buffer.old.items start filled }
{
    buffer.copy_within(start..filled, 0);
}

/// Makes the buffer twice as long. Where memory is refused nothing changes.
fn grow(buffer: &mut Vec<u8>) -> Result<(), AllocError>
    ensures ok { OnOk result (length buffer.old.items < length buffer.new.items) }
    ensures len { length buffer.old.items ≤ length buffer.new.items }
    ensures kept { take (length buffer.old.items) buffer.new.items ≡ buffer.old.items }
{
    let len = if buffer.is_empty() {
        FIRST_ROOM
    } else {
        2 * buffer.len()
    };
    buffer.resize(len, 0)
}

/// Makes room behind the bytes from `start` to `filled`, where there is none: they move to the front, or the buffer grows where they
/// stand there. They stay the same, also where memory is refused.
pub(crate) fn make_room(
    buffer: &mut Vec<u8>,
    start: &mut usize,
    filled: &mut usize,
) -> Result<(), AllocError>
    requires ordered { start.old ≤ filled.old }
    requires within { filled.old ≤ length buffer.old.items }
    ensures ok { OnOk result (filled.new < length buffer.new.items) }
    ensures ordered { start.new ≤ filled.new }
    ensures within { filled.new ≤ length buffer.new.items }
    ensures kept { slice_range buffer.new.items start.new filled.new ≡ slice_range buffer.old.items start.old filled.old }
{
    if *filled < buffer.len() {
        return Ok(());
    }
    if *start == 0 {
        return grow(buffer);
    }
    move_to_front(buffer, *start, *filled);
    *filled -= *start;
    *start = 0;
    Ok(())
}

/// Reads once from the source behind the bytes that end at `filled`, where there is room, and gives how many bytes it read.
pub(crate) fn read_behind<S: Source>(
    source: &mut S,
    buffer: &mut Vec<u8>,
    filled: usize,
) -> Result<usize, Failed>
    requires { filled < length buffer.old.items }
    ensures within { IfOk result (λ n. filled + n ≤ length buffer.new.items) }
    ensures given { IfOk result (λ n. Gives (source_state S.Source source.old) (source_state S.Source source.new) (slice_range buffer.new.items filled (filled + n))) }
    ensures end { IfOk result (λ n. n ≡ 0 → IsAtEnd (S.left source.new)) }
    ensures none { OnErr result (Gives (source_state S.Source source.old) (source_state S.Source source.new) []) }
    ensures len { length buffer.new.items ≡ length buffer.old.items }
    ensures kept { take filled buffer.new.items ≡ take filled buffer.old.items }
    ensures unfailed { OnOk result (S.failures source.new ≡ S.failures source.old) }
    ensures failed { OnErr result (HasFailed (S.failures source.old) (S.failures source.new)) }
    ensures count { S.failures source.old ≤ S.failures source.new }
{
    source.read(&mut buffer[filled..])
}
