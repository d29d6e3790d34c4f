// What was read of a part file, line after line.
ghost use Rattle.std.specs.Prelude.{◌≡◌, ◌↔◌, [], IfOk, IsTrue};
ghost use Rattle.chain_files.specs.Reading.{
  behind_columns,
  closed,
  on_columns,
  on_entries,
  on_faulted,
  on_files,
  on_first,
  on_script,
  on_within,
  part_of,
  step,
};
ghost use Rattle.chain_files.specs.{IsPart};

use crate::chain_fault::ChainFault;
use crate::limits::is_within;
use crate::part::{Part, PartFields};
use crate::part_line::PartLine;
use crate::part_loop::PartLoop;
use rdf_values::{Column, ListOf, Memory, Text};
use shard_files::has_name;
use shard_lines::ShardLine;
use std::alloc::Global;
use std::mem;

const MOST_COLUMNS: usize = 64;

const TABLE_ENTRIES: u64 = 1_000_000;

/// What may follow the lines so far: the version; the files; the entries; the script; columns, a loop or the end; the lines
/// of a loop; the end behind a fault; nothing.
#[derive(Clone, Copy, Debug, PartialEq, Eq)]
pub(crate) enum PartStage {
    First,
    Files,
    Entries,
    Script,
    Columns,
    Within,
    Faulted,
    Ended,
}

/// What the lines so far say; `lines` are those of the loop that is being read.
#[derive(Drop)]
pub(crate) struct PartProgress {
    pub(crate) stage: PartStage,
    pub(crate) first_file: u32,
    pub(crate) end_file: u32,
    pub(crate) entries: u64,
    pub(crate) script: Text,
    pub(crate) columns: ListOf<Column>,
    pub(crate) loops: ListOf<PartLoop>,
    pub(crate) lines: ListOf<ShardLine>,
}

impl PartProgress {
    /// Nothing was read.
    pub(crate) fn new(alloc: Global) -> PartProgress
        ensures { result ≡ record { stage = PartStage.First; first_file = 0; end_file = 0; entries = 0; script = []; columns = []; loops = []; lines = [] } }
    {
        PartProgress {
            stage: PartStage::First,
            first_file: 0,
            end_file: 0,
            entries: 0,
            script: Text::new(alloc),
            columns: ListOf::new(alloc),
            loops: ListOf::new(alloc),
            lines: ListOf::new(alloc),
        }
    }

    fn on_first(mut self, line: PartLine) -> Option<PartProgress>
        ensures { result ≡ on_first self line }
    {
        match line {
            PartLine::Version => {
                self.stage = PartStage::Files;
                Some(self)
            }
            _ => None,
        }
    }

    fn on_files(mut self, line: PartLine) -> Option<PartProgress>
        ensures { result ≡ on_files self line }
    {
        match line {
            PartLine::Files { first, end } => {
                if first >= end {
                    return None;
                }
                self.stage = PartStage::Entries;
                self.first_file = first;
                self.end_file = end;
                Some(self)
            }
            _ => None,
        }
    }

    fn on_entries(mut self, line: PartLine) -> Option<PartProgress>
        ensures { result ≡ on_entries self line }
    {
        match line {
            PartLine::Entries(entries) => {
                let files = self.end_file.saturating_sub(self.first_file);
                if entries > TABLE_ENTRIES * files as u64 {
                    return None;
                }
                self.stage = PartStage::Script;
                self.entries = entries;
                Some(self)
            }
            _ => None,
        }
    }

    fn on_script(mut self, line: PartLine) -> Option<PartProgress>
        ensures { result ≡ on_script self line }
    {
        match line {
            PartLine::Script(script) => {
                self.stage = PartStage::Columns;
                self.script = script;
                Some(self)
            }
            _ => None,
        }
    }

    // The columns are read, if there is one.
    fn behind_columns(mut self, next: PartStage) -> Option<PartProgress>
        ensures { result ≡ behind_columns next self }
    {
        if self.columns.len() == 0 {
            return None;
        }
        self.stage = next;
        Some(self)
    }

    fn on_columns(mut self, line: PartLine) -> Result<Option<PartProgress>, Memory>
        ensures { IfOk result (λ next. next ≡ on_columns self line) }
    {
        match line {
            PartLine::Column(column) => {
                if has_name(self.columns.as_slice(), &column.name)
                    || self.columns.len() >= MOST_COLUMNS
                {
                    return Ok(None);
                }
                self.columns.push(column)?;
                Ok(Some(self))
            }
            PartLine::Loop => Ok(self.behind_columns(PartStage::Within)),
            PartLine::End => Ok(self.behind_columns(PartStage::Ended)),
            _ => Ok(None),
        }
    }

    // The loop that is being read is whole, if it has a line.
    fn closed(mut self, alloc: Global, next: PartStage) -> Result<Option<PartProgress>, Memory>
        ensures { IfOk result (λ progress. progress ≡ closed next self) }
    {
        if self.lines.len() == 0 {
            return Ok(None);
        }
        let lines = mem::replace(&mut self.lines, ListOf::new(alloc));
        self.loops.push(PartLoop::Whole(lines))?;
        self.stage = next;
        Ok(Some(self))
    }

    // The loop that is being read has one more line, if so many entries can come to it.
    fn passed(mut self, line: ShardLine) -> Result<Option<PartProgress>, Memory>
        ensures { IfOk result (λ next. next ≡ on_within self (PartLine.Pass line)) }
    {
        if !is_within(self.entries, &line) {
            return Ok(None);
        }
        self.lines.push(line)?;
        Ok(Some(self))
    }

    // The loop that is being read is a faulty one, if it has no line and the fault is in one of the files.
    fn faulted(mut self, fault: ChainFault) -> Result<Option<PartProgress>, Memory>
        ensures { IfOk result (λ next. next ≡ on_within self (PartLine.Fault fault)) }
    {
        if self.lines.len() != 0 || fault.file < self.first_file || fault.file >= self.end_file {
            return Ok(None);
        }
        self.loops.push(PartLoop::Faulted(fault))?;
        self.stage = PartStage::Faulted;
        Ok(Some(self))
    }

    fn on_within(self, alloc: Global, line: PartLine) -> Result<Option<PartProgress>, Memory>
        ensures { IfOk result (λ next. next ≡ on_within self line) }
    {
        match line {
            PartLine::Pass(line) => self.passed(line),
            PartLine::Fault(fault) => self.faulted(fault),
            PartLine::Loop => self.closed(alloc, PartStage::Within),
            PartLine::End => self.closed(alloc, PartStage::Ended),
            _ => Ok(None),
        }
    }

    fn on_faulted(mut self, line: PartLine) -> Option<PartProgress>
        ensures { result ≡ on_faulted self line }
    {
        match line {
            PartLine::End => {
                self.stage = PartStage::Ended;
                Some(self)
            }
            _ => None,
        }
    }

    /// What was read with one more line, where it may follow.
    pub(crate) fn step(self, alloc: Global, line: PartLine) -> Result<Option<PartProgress>, Memory>
        ensures { IfOk result (λ next. next ≡ step self line) }
    {
        match self.stage {
            PartStage::First => Ok(self.on_first(line)),
            PartStage::Files => Ok(self.on_files(line)),
            PartStage::Entries => Ok(self.on_entries(line)),
            PartStage::Script => Ok(self.on_script(line)),
            PartStage::Columns => self.on_columns(line),
            PartStage::Within => self.on_within(alloc, line),
            PartStage::Faulted => Ok(self.on_faulted(line)),
            PartStage::Ended => Ok(None),
        }
    }

    /// Whether the end was read.
    pub(crate) fn is_ended(&self) -> bool
        ensures { IsTrue result ↔ (self.now.stage ≡ PartStage.Ended) }
    {
        matches!(self.stage, PartStage::Ended)
    }

    /// The part that was read.
    pub(crate) fn into_part(self) -> Part
        requires { IsPart (part_of self) }
        ensures { result ≡ part_of self }
    {
        Part::new(PartFields {
            first_file: self.first_file,
            end_file: self.end_file,
            entries: self.entries,
            script: self.script,
            columns: self.columns,
            loops: self.loops,
        })
    }
}
