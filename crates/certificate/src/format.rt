//! The formats of a certificate's text.

ghost use Rattle.std.specs.Prelude.{◌≡◌};
ghost use Rattle.certificate.specs.declared.format.Format.{Format as FormatOf};
ghost use Rattle.certificate.specs.declared.format.Format.TheVariants as formats;

/// How a certificate is written. Its first line names the format.
#[derive(Clone, Copy, Debug, PartialEq, Eq)]
pub enum Format {
    /// Premises by their numbers, and elements one by one.
    One,
    /// Premises by how many lines they stand before, and elements by runs of neighbours.
    Two,
}

/// A format as a type, for texts that grow in it.
pub trait FormatType {
    ghost format: { FormatOf };

    fn format() -> Format
        ensures { result ≡ format };
}

/// Format 1.
pub struct FormatOne;

/// Format 2.
pub struct FormatTwo;

impl FormatType for FormatOne {
    ghost format = { formats.One };

    fn format() -> Format {
        Format::One
    }
}

impl FormatType for FormatTwo {
    ghost format = { formats.Two };

    fn format() -> Format {
        Format::Two
    }
}
