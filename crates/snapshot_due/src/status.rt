// Statuses.
ghost use Rattle.std.specs.Prelude.{◌≡◌};
ghost use Rattle.snapshot_due.specs.{exit_status};

/// How a command ended.
#[derive(Clone, Copy, Debug, PartialEq, Eq)]
pub enum SnapshotStatus {
    Done = 0,
    Memory = 1,
    Words = 2,
    ReadFault = 3,
    WriteFault = 4,
    NoFile = 5,
    ScriptRefused = 6,
    TableRefused = 7,
    LoopFault = 8,
    BadNode = 10,
    BadColumn = 11,
    BadVariation = 12,
    TooMany = 13,
    TooLong = 14,
}

impl SnapshotStatus {
    /// The program's exit status.
    pub fn code(self) -> u8
        ensures { result ≡ exit_status self }
    {
        self as u8
    }
}
