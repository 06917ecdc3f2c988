//! How a run ends.

ghost use Rattle.std.specs.Prelude.{◌≡◌};
ghost use Rattle.pls_configuration.specs.Status.{code_of};

/// How a run of the program ends. The status of the process is its [`code`](Status::code).
#[derive(Clone, Copy, Debug, PartialEq, Eq)]
pub enum Status {
    /// The command did what it says. Where it judges nodes all accept: `recheck` in the last round,
    /// `watch` at the last look, where no port is stale either.
    Done,
    /// A component of the network lacks the property, some node rejects or waits, some port is
    /// stale, or no two edges may be crossed.
    No,
    /// The words are not those of a command.
    Usage,
    /// The input is not what the command reads.
    Refused,
    /// The source failed while the input was read.
    ReadFault,
    /// The sink failed while the text was written.
    WriteFault,
    /// There was no memory. Nothing was written.
    NoMemory,
    /// The input is larger than the limits allow.
    Limit,
}

impl Status {
    /// The exit status of the process: 0 to 7, in the order of the variants.
    pub fn code(self) -> u8
        ensures { result ≡ code_of self }
    {
        match self {
            Status::Done => 0,
            Status::No => 1,
            Status::Usage => 2,
            Status::Refused => 3,
            Status::ReadFault => 4,
            Status::WriteFault => 5,
            Status::NoMemory => 6,
            Status::Limit => 7,
        }
    }
}
