// Files and outputs that fail.
ghost use Rattle.std.specs.Prelude.{◌≡◌, IfOk};
ghost use Rattle.rdf_outside.specs.{shelf_made};

use super::*;

const FRIEND: &str = "pt:int,run:int,ids:vec\n40,7,1;2\n10,5,\n";

const JOINED: &[&str] = &["--friend", "f.csv", "--key", "pt"];

// The number of a call that isn't made.
const NEVER: u32 = 1_000;

// The call to the files that fails, and the write; the status, and what is written. Three calls read a file: the first finds it, and
// the last its end. A sink that takes one byte a call holds as many as it took before the one that fails.
const ROWS: [(u32, u32, Status, &str); 17] = [
    (0, NEVER, Status::ReadFault, "read failed: s.txt\n"),
    (1, NEVER, Status::ReadFault, "read failed: s.txt\n"),
    (2, NEVER, Status::ReadFault, "read failed: s.txt\n"),
    (3, NEVER, Status::ReadFault, "read failed: a.csv\n"),
    (4, NEVER, Status::ReadFault, "read failed: a.csv\n"),
    (5, NEVER, Status::ReadFault, "read failed: a.csv\n"),
    (6, NEVER, Status::ReadFault, "read failed: f.csv\n"),
    (7, NEVER, Status::ReadFault, "read failed: f.csv\n"),
    (8, NEVER, Status::ReadFault, "read failed: f.csv\n"),
    (NEVER, 0, Status::WriteFault, ""),
    (NEVER, 1, Status::WriteFault, "n"),
    (NEVER, 2, Status::WriteFault, "n "),
    (NEVER, 3, Status::WriteFault, "n ="),
    (NEVER, 4, Status::WriteFault, "n = "),
    (NEVER, 5, Status::WriteFault, "n = 4"),
    (NEVER, 6, Status::Done, "n = 4\n"),
    (0, 0, Status::WriteFault, ""),
];

// A script, the table and the friend.
fn shelf_with_friend(alloc: Global) -> Result<MemoryShelf, Fail>
    ensures { IfOk result (λ shelf. shelf_made shelf ≡ 0) }
{
    let mut shelf = shelf_of(alloc, COUNT.as_bytes(), TABLE.as_bytes())?;
    shelf.add("f.csv", FRIEND.as_bytes())?;
    Ok(shelf)
}

#[test]
fn a_failed_read_is_named_and_a_failed_write_leaves_a_first_part(
    rt: HostRuntime,
) -> Result<(), Fail> {
    let alloc = rt.alloc();
    let functions = FnList::new(alloc);
    let words = words_of(alloc, TWO_FILES, JOINED)?;
    for (read, write, ended, output) in &ROWS {
        let mut shelf = shelf_with_friend(alloc)?;
        shelf.fail_at(*read)?;
        let mut sink = MemorySink::new(alloc, ROOM)?;
        sink.take_at_most(1);
        sink.fail_at(*write)?;
        let host = Host {
            rt: &rt,
            gate: &OpenGate,
        };
        let status = rdf_top(&host, alloc, &words, &mut shelf, &mut sink, &functions);
        assert!(rt; status == *ended, "read {read}, write {write}");
        assert_eq!(rt;
            sink.bytes(),
            output.as_bytes(),
            "read {read}, write {write}"
        );
    }
    Ok(())
}
