//! The formats of certificates, by their numbers.
ghost use Rattle.receiving.specs.Runs.{format_of as format_with};
ghost use Rattle.std.specs.Prelude.{◌≡◌};

use certificate::Format;
use command_line::FormatNumber;

/// The format of that number.
pub fn format_of(number: FormatNumber) -> Format
    ensures { result ≡ format_with number }
{
    match number {
        FormatNumber::One => Format::One,
        FormatNumber::Two => Format::Two,
    }
}
