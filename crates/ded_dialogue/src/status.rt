//! How a run ended.

/// How a run ended.
#[derive(Clone, Copy, Debug, PartialEq, Eq)]
pub enum Status {
    /// Each statement has its reply, and none is a refusal.
    Done,
    /// Each statement has its reply, and some is a refusal.
    DoneWithRefusals,
    /// The words are no accepted list. Nothing was read or written.
    BadWords,
    /// The source failed.
    ReadFault,
    /// The sink failed.
    WriteFault,
    /// There was no memory to begin with. Nothing was read or written.
    NoMemory,
    /// The source gave more bytes than an input may have.
    TooLong,
}

impl Status {
    ghost use Rattle.std.specs.Prelude.{◌≡◌};
    ghost use Rattle.ded_dialogue.specs.Exits.{exit_number};

    /// The exit status of a program whose run ended so, 0 to 6.
    pub fn exit_number(self) -> u8
        ensures { result ≡ exit_number self }
    {
        match self {
            Status::Done => 0,
            Status::DoneWithRefusals => 1,
            Status::BadWords => 2,
            Status::ReadFault => 3,
            Status::WriteFault => 4,
            Status::NoMemory => 5,
            Status::TooLong => 6,
        }
    }
}
