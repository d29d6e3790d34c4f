// Statuses.
ghost use Rattle.std.specs.Prelude.{◌≡◌};
ghost use Rattle.chain_due.specs.{exit_status};

/// How a command ended.
#[derive(Clone, Copy, Debug, PartialEq, Eq)]
pub enum ChainStatus {
    Done = 0,
    Memory = 1,
    Words = 2,
    ReadFault = 3,
    WriteFault = 4,
    NoFile = 5,
    ScriptRefused = 6,
    TableRefused = 7,
    LoopFault = 8,
    FileRefused = 21,
    FilesDiffer = 22,
    NotCovered = 23,
    TooLong = 24,
    FileChanged = 25,
}

impl ChainStatus {
    /// The program's exit status.
    pub fn code(self) -> u8
        ensures { result ≡ exit_status self }
    {
        self as u8
    }
}
