// What was read of a shard file, line after line.
ghost use Rattle.std.specs.Prelude.{◌≡◌, ◌↔◌, [], IfOk, IsTrue};
ghost use Rattle.rdf_values.specs.{has_name};
ghost use Rattle.shard_files.specs.Reading.{
  closed,
  on_between,
  on_columns,
  on_faulted,
  on_first,
  on_head,
  on_within,
  shard_of,
  step,
};
ghost use Rattle.shard_files.specs.{IsShard};

use crate::file_line::FileLine;
use crate::shard::{Shard, ShardParts};
use crate::shard_loop::ShardLoop;
use rdf_values::{Column, Fault, ListOf, Memory, Name};
use shard_lines::ShardLine;
use std::alloc::Global;
use std::mem;

const MOST_COLUMNS: usize = 64;

/// What may follow the lines so far: the version; the table; columns or the span; a loop or the end; the lines of a loop;
/// the end behind a fault; nothing.
#[derive(Clone, Copy, Debug, PartialEq, Eq)]
pub(crate) enum Stage {
    First,
    Head,
    Columns,
    Between,
    Within,
    Faulted,
    Ended,
}

/// What the lines so far say; `lines` are those of the loop that is being read.
#[derive(Drop)]
pub(crate) struct Progress {
    pub(crate) stage: Stage,
    pub(crate) entries: u32,
    pub(crate) clusters: u32,
    pub(crate) columns: ListOf<Column>,
    pub(crate) lo: u32,
    pub(crate) hi: u32,
    pub(crate) loops: ListOf<ShardLoop>,
    pub(crate) lines: ListOf<ShardLine>,
}

/// Whether one of the columns has that name.
pub fn has_name(columns: &[Column], name: &Name) -> bool
    ensures { result ≡ has_name columns.now name.now }
{
    for column in columns {
        if column.name.is(name) {
            return true;
        }
    }
    false
}

impl Progress {
    /// Nothing was read.
    pub(crate) fn new(alloc: Global) -> Progress
        ensures { result ≡ record { stage = Stage.First; entries = 0; clusters = 0; columns = []; lo = 0; hi = 0; loops = []; lines = [] } }
    {
        Progress {
            stage: Stage::First,
            entries: 0,
            clusters: 0,
            columns: ListOf::new(alloc),
            lo: 0,
            hi: 0,
            loops: ListOf::new(alloc),
            lines: ListOf::new(alloc),
        }
    }

    fn on_first(mut self, line: FileLine) -> Option<Progress>
        ensures { result ≡ on_first self line }
    {
        match line {
            FileLine::Version => {
                self.stage = Stage::Head;
                Some(self)
            }
            _ => None,
        }
    }

    fn on_head(mut self, line: FileLine) -> Option<Progress>
        ensures { result ≡ on_head self line }
    {
        match line {
            FileLine::Table { entries, clusters } => {
                self.stage = Stage::Columns;
                self.entries = entries;
                self.clusters = clusters;
                Some(self)
            }
            _ => None,
        }
    }

    fn on_columns(mut self, line: FileLine) -> Result<Option<Progress>, Memory>
        ensures { IfOk result (λ next. next ≡ on_columns self line) }
    {
        match line {
            FileLine::Column(column) => {
                if has_name(self.columns.as_slice(), &column.name)
                    || self.columns.len() >= MOST_COLUMNS
                {
                    return Ok(None);
                }
                self.columns.push(column)?;
                Ok(Some(self))
            }
            FileLine::Span { lo, hi } => {
                if self.columns.len() == 0 || lo > hi || hi > self.clusters {
                    return Ok(None);
                }
                self.stage = Stage::Between;
                self.lo = lo;
                self.hi = hi;
                Ok(Some(self))
            }
            _ => Ok(None),
        }
    }

    fn on_between(mut self, line: FileLine) -> Option<Progress>
        ensures { result ≡ on_between self line }
    {
        match line {
            FileLine::Loop => {
                self.stage = Stage::Within;
                Some(self)
            }
            FileLine::End => {
                self.stage = Stage::Ended;
                Some(self)
            }
            _ => None,
        }
    }

    // The loop that is being read is whole, if it has a line.
    fn closed(mut self, alloc: Global, next: Stage) -> Result<Option<Progress>, Memory>
        ensures { IfOk result (λ progress. progress ≡ closed next self) }
    {
        if self.lines.len() == 0 {
            return Ok(None);
        }
        let lines = mem::replace(&mut self.lines, ListOf::new(alloc));
        self.loops.push(ShardLoop::Whole(lines))?;
        self.stage = next;
        Ok(Some(self))
    }

    // The loop that is being read is a faulty one, if it has no line.
    fn faulted(mut self, fault: Fault) -> Result<Option<Progress>, Memory>
        ensures { IfOk result (λ next. next ≡ on_within self (FileLine.Fault fault)) }
    {
        if self.lines.len() != 0 {
            return Ok(None);
        }
        self.loops.push(ShardLoop::Faulted(fault))?;
        self.stage = Stage::Faulted;
        Ok(Some(self))
    }

    fn on_within(mut self, alloc: Global, line: FileLine) -> Result<Option<Progress>, Memory>
        ensures { IfOk result (λ next. next ≡ on_within self line) }
    {
        match line {
            FileLine::Pass(line) => {
                self.lines.push(line)?;
                Ok(Some(self))
            }
            FileLine::Fault(fault) => self.faulted(fault),
            FileLine::Loop => self.closed(alloc, Stage::Within),
            FileLine::End => self.closed(alloc, Stage::Ended),
            _ => Ok(None),
        }
    }

    fn on_faulted(mut self, line: FileLine) -> Option<Progress>
        ensures { result ≡ on_faulted self line }
    {
        match line {
            FileLine::End => {
                self.stage = Stage::Ended;
                Some(self)
            }
            _ => None,
        }
    }

    /// What was read with one more line, where it may follow.
    pub(crate) fn step(self, alloc: Global, line: FileLine) -> Result<Option<Progress>, Memory>
        ensures { IfOk result (λ next. next ≡ step self line) }
    {
        match self.stage {
            Stage::First => Ok(self.on_first(line)),
            Stage::Head => Ok(self.on_head(line)),
            Stage::Columns => self.on_columns(line),
            Stage::Between => Ok(self.on_between(line)),
            Stage::Within => self.on_within(alloc, line),
            Stage::Faulted => Ok(self.on_faulted(line)),
            Stage::Ended => Ok(None),
        }
    }

    /// Whether the end was read.
    pub(crate) fn is_ended(&self) -> bool
        ensures { IsTrue result ↔ (self.now.stage ≡ Stage.Ended) }
    {
        matches!(self.stage, Stage::Ended)
    }

    /// The shard that was read.
    pub(crate) fn into_shard(self) -> Shard
        requires { IsShard (shard_of self) }
        ensures { result ≡ shard_of self }
    {
        Shard::new(ShardParts {
            entries: self.entries,
            clusters: self.clusters,
            columns: self.columns,
            lo: self.lo,
            hi: self.hi,
            loops: self.loops,
        })
    }
}
