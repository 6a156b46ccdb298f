//! How a run of the command ends.
ghost use Rattle.std.specs.Prelude.{◌≡◌};
ghost use Rattle.web_cli.specs.StatusCode.{status_code};

/// How a run of the command ends.
#[derive(Clone, Copy, Debug, PartialEq, Eq)]
pub enum Status {
    /// The whole text was written: the replies to a script, the script of a load, the summary, or
    /// the answers of a connection.
    Done,
    /// The script was refused, and `line N: reason` was written: a line is faulty, or it is longer
    /// than `SCRIPT_LIMIT`. So is a connection of more bytes.
    Script,
    /// A read failed. Nothing was written.
    ReadFault,
    /// A write failed. A prefix of the text was written.
    WriteFault,
    /// Allocation failed. Nothing was written.
    NoMemory,
    /// The words are no command. The usage was written.
    Usage,
}

impl Status {
    /// The exit status of the process: 0, 2, 3, 4, 5 or 64, in the order of the variants.
    pub fn code(self) -> u8
        ensures { result ≡ status_code self }
    {
        match self {
            Status::Done => 0,
            Status::Script => 2,
            Status::ReadFault => 3,
            Status::WriteFault => 4,
            Status::NoMemory => 5,
            Status::Usage => 64,
        }
    }
}
