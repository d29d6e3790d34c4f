// Reading a shard.
ghost use Rattle.std.specs.Prelude.{◌≡◌, ◌≤◌, IfOk, MatchResult, length};
ghost use Rattle.shard_lines.specs.{words_in};
ghost use Rattle.shard_files.specs.{file_line_of, IsRefusal, IsShardText, step_on};

use crate::file_words::read_file_line;
use crate::progress::Progress;
use crate::refusal::ShardRefusal;
use crate::shard::Shard;
use crate::text_lines::first_line;
use rdf_values::Memory;
use std::alloc::Global;

// What was read with one more line, given by its text, where it may follow.
fn read_next(alloc: Global, progress: Progress, line: &[u8]) -> Result<Option<Progress>, Memory>
    ensures { IfOk result (λ next. next ≡ step_on progress (file_line_of (words_in line.now))) }
{
    match read_file_line(alloc, line)? {
        Some(line) => progress.step(alloc, line),
        None => Ok(None),
    }
}

/// The shard of which the bytes are the text, or the first line that no shard has after the lines before it.
pub fn read_shard(alloc: Global, bytes: &[u8]) -> Result<Shard, ShardRefusal>
    requires { length bytes.now ≤ 134217728 }
    ensures { MatchResult result (IsShardText bytes.now) (IsRefusal bytes.now) }
{
    let mut progress = Progress::new(alloc);
    let mut rest = bytes;
    let mut number: u32 = 1;
    while let Some((line, more)) = first_line(rest) {
        match read_next(alloc, progress, line)? {
            Some(next) => progress = next,
            None => return Err(ShardRefusal::Syntax { line: number }),
        }
        rest = more;
        number += 1;
    }
    if rest.is_empty() && progress.is_ended() {
        Ok(progress.into_shard())
    } else {
        Err(ShardRefusal::Syntax { line: number })
    }
}
