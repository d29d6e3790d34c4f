// Reading a part.
ghost use Rattle.std.specs.Prelude.{◌≡◌, ◌≤◌, IfOk, MatchResult, length};
ghost use Rattle.shard_lines.specs.{words_in};
ghost use Rattle.chain_files.specs.{IsPartText, IsRefusal, part_line_of, step_on};

use crate::part::Part;
use crate::part_words::read_part_line;
use crate::progress::PartProgress;
use crate::refusal::PartRefusal;
use rdf_values::Memory;
use shard_files::first_line;
use std::alloc::Global;

// What was read with one more line, given by its text, where it may follow.
fn read_next(
    alloc: Global,
    progress: PartProgress,
    line: &[u8],
) -> Result<Option<PartProgress>, Memory>
    ensures { IfOk result (λ next. next ≡ step_on progress (part_line_of (words_in line.now))) }
{
    match read_part_line(alloc, line)? {
        Some(line) => progress.step(alloc, line),
        None => Ok(None),
    }
}

/// The part of which the bytes are the text, or the first line that no part has after the lines before it.
pub fn read_part(alloc: Global, bytes: &[u8]) -> Result<Part, PartRefusal>
    requires { length bytes.now ≤ 1073741824 }
    ensures { MatchResult result (IsPartText bytes.now) (IsRefusal bytes.now) }
{
    let mut progress = PartProgress::new(alloc);
    let mut rest = bytes;
    let mut number: u32 = 1;
    while let Some((line, more)) = first_line(rest) {
        match read_next(alloc, progress, line)? {
            Some(next) => progress = next,
            None => return Err(PartRefusal::Syntax { line: number }),
        }
        rest = more;
        number += 1;
    }
    if rest.is_empty() && progress.is_ended() {
        Ok(progress.into_part())
    } else {
        Err(PartRefusal::Syntax { line: number })
    }
}
