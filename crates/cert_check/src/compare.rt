//! Where two texts differ.
ghost use Rattle.cert_check.specs.Faults.{DifferFirstAt};
ghost use Rattle.std.specs.Prelude.{◌≡◌, MatchOption};

/// The first place at which two texts differ, or the length of the shorter one where it is a prefix of the other.
pub(crate) fn first_difference(text: &[u8], other: &[u8]) -> Option<usize>
    ensures { MatchOption result (text.now ≡ other.now) (DifferFirstAt text.now other.now) }
{
    let shorter = text.len().min(other.len());
    for i in 0..shorter {
        if text[i] != other[i] {
            return Some(i);
        }
    }
    if text.len() == other.len() {
        return None;
    }
    Some(shorter)
}
