// The friend's entry that matches an entry of the table.
ghost use Rattle.std.specs.Prelude.{◌≡◌, ◌<◌, ⊤, MatchOption};

use std::marker::Model;

/// An entry of the friend, or none, in four bytes.
#[derive(Drop)]
pub(crate) struct FriendEntry {
    // the entry and one more; 0 for none
    behind: u32,
}

impl Model for FriendEntry {
    ghost use Rattle.friend_join.specs.FriendEntries.{entry_before};
    ghost use Rattle.std.specs.Prelude.{Option, ℕ};

    ghost Value = { Option ℕ };

    ghost view = { λ e. entry_before e.behind };
}

impl FriendEntry {
    /// The entry of a number that is below 4,294,967,295, if there is one.
    pub(crate) fn new(entry: Option<usize>) -> FriendEntry
        requires { MatchOption entry ⊤ (λ e. e < 4294967295) }
        ensures { result ≡ entry }
    {
        FriendEntry {
            behind: match entry {
                Some(entry) => entry as u32 + 1,
                None => 0,
            },
        }
    }

    /// Its number, if it is one.
    pub(crate) fn get(&self) -> Option<u32>
        ensures { result ≡ self.now }
    {
        self.behind.checked_sub(1)
    }
}
