ghost use Rattle.std.specs.Prelude.{◌≡◌};
ghost use Rattle.fcdoc_core.specs.Statuses.{exit_code};

/// How a run ended.
#[derive(Clone, Copy, Debug, PartialEq, Eq)]
pub enum Status {
    /// Every line was run, and no reply is a refusal.
    Done = 0,
    /// Every line was run, and at least one reply is a refusal.
    SomeRefused = 1,
    /// The words have none of the forms of a run.
    Usage = 2,
    /// The store holds no such name.
    Missing = 3,
    /// The document was not read, or is not valid.
    DocumentRefused = 4,
    /// The script is no list of lines within the limits.
    ScriptRefused = 5,
    /// The store failed.
    StoreFault = 6,
    /// The sink failed.
    SinkFault = 7,
    /// No memory was left.
    Memory = 8,
}

impl Status {
    /// The exit status of the program: 0 where no reply is a refusal, and 8 where no memory was left.
    pub fn exit_code(self) -> u8
        ensures { result ≡ exit_code self }
    {
        self as u8
    }
}
