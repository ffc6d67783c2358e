//! Exit statuses.
ghost use Rattle.std.specs.Prelude.{◌≡◌};
ghost use Rattle.program.specs.Status.{code_of};

/// How a run of a program ends.
#[derive(Clone, Copy, Debug, PartialEq, Eq)]
pub enum Status {
    /// It is done, or the texts are accepted.
    Done,
    /// The texts are rejected.
    Rejected,
    /// The words ask for nothing that the program does.
    Usage,
    /// The document is refused.
    Refused,
    /// Memory was refused.
    Memory,
    /// A limit is passed.
    Limit,
    /// A file or a device failed.
    File,
}

impl Status {
    /// The number that the program ends with, from 0 to 6.
    pub fn code(self) -> u8
        ensures { result ≡ code_of self }
    {
        match self {
            Status::Done => 0,
            Status::Rejected => 1,
            Status::Usage => 2,
            Status::Refused => 3,
            Status::Memory => 4,
            Status::Limit => 5,
            Status::File => 6,
        }
    }
}
