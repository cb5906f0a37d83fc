//! The statuses that the program ends with.
ghost use Rattle.std.specs.Prelude.{◌≡◌};
ghost use Rattle.serve_output.specs.Ends.{code_of};

/// How the program ends.
#[derive(Clone, Copy, Debug, Drop, PartialEq, Eq)]
pub enum Status {
    /// The job is done.
    Done,
    /// The words are not taken.
    Words,
    /// The source is refused.
    Source,
    /// A read of the script failed.
    Script,
    /// A write failed.
    Sink,
    /// Memory ran out.
    Memory,
    /// The file could not be loaded, or is not there.
    Files,
    /// The most bytes of a script were read.
    LongScript,
    /// The file has too many bytes.
    LongFile,
}

impl Status {
    /// The status as a number.
    pub fn code(self) -> u8
        ensures code { result ≡ code_of self }
    {
        match self {
            Status::Done => 0,
            Status::Words => 2,
            Status::Source => 3,
            Status::Script => 4,
            Status::Sink => 5,
            Status::Memory => 6,
            Status::Files => 7,
            Status::LongScript => 8,
            Status::LongFile => 9,
        }
    }
}
