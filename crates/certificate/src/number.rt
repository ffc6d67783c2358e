//! Words and decimal numbers at the front of bytes.

ghost use Rattle.std.specs.Prelude.{◌≡◌, option_map};
ghost use Rattle.certificate.specs.LineReading.{small_at};
ghost use Rattle.certificate.specs.Reading.{after, more_digits, number_at};

/// The bytes after the word, where they begin with it.
pub(crate) fn after<'a>(word: &[u8], bytes: &'a [u8]) -> Option<&'a [u8]>
    ensures { option_map (λ x. x.now) result ≡ after word.now bytes.now }
{
    bytes.strip_prefix(word)
}

fn more_digits(first: u64, bytes: &[u8]) -> Option<(u64, &[u8])>
    ensures { option_map (λ x. (x.0, x.1.now)) result ≡ more_digits first bytes.now }
{
    let mut number = first;
    let mut rest = bytes;
    while let [b, others @ ..] = rest {
        if !b.is_ascii_digit() {
            break;
        }
        number = number.checked_mul(10)?.checked_add(u64::from(*b - b'0'))?;
        rest = others;
    }
    Some((number, rest))
}

/// The number at the front, without leading zeros and below 2 ^ 64.
#[tactic(auto, unfolding(crate::specs::Reading::number_at))]
pub(crate) fn number_at(bytes: &[u8]) -> Option<(u64, &[u8])>
    ensures { option_map (λ x. (x.0, x.1.now)) result ≡ number_at bytes.now }
{
    match bytes {
        [b'0', rest @ ..] => Some((0, rest)),
        [b, rest @ ..] if b.is_ascii_digit() => more_digits(u64::from(*b - b'0'), rest),
        _ => None,
    }
}

/// The number at the front, without leading zeros and below 2 ^ 32.
pub(crate) fn small_at(bytes: &[u8]) -> Option<(u32, &[u8])>
    ensures { option_map (λ x. (x.0, x.1.now)) result ≡ small_at bytes.now }
{
    let (number, rest) = number_at(bytes)?;
    if number >= 1 << 32 {
        return None;
    }
    Some((number as u32, rest))
}
