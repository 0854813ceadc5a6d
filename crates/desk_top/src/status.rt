ghost use Rattle.std.specs.Prelude.{◌≡◌};
ghost use Rattle.desk_top.specs.Answer.{status_code};

/// How the program ends.
#[derive(Clone, Copy, Debug, PartialEq, Eq)]
pub enum Status {
    /// The whole answer was written. Status 0.
    Done,
    /// The words are no command line. Status 2.
    BadWords,
    /// The console refused a call. Status 3.
    ConsoleFault,
    /// The store refused a call; in a session before the first request was read. Status 4.
    StoreFault,
    /// The store's records aren't those of sound tables; the line written names one. Status 5.
    Damaged,
    /// The input is refused: of `check` and `import` the line written says why, and a stream of requests ended inside one, or went on
    /// too long. Status 6.
    Refused,
    /// The doors counted a fault. Status 7.
    DoorsFault,
    /// There was no memory. Status 8.
    OutOfMemory,
}

impl Status {
    /// The number of the exit status.
    pub fn code(self) -> u8
        ensures { result ≡ status_code self }
    {
        match self {
            Status::Done => 0,
            Status::BadWords => 2,
            Status::ConsoleFault => 3,
            Status::StoreFault => 4,
            Status::Damaged => 5,
            Status::Refused => 6,
            Status::DoorsFault => 7,
            Status::OutOfMemory => 8,
        }
    }
}
