// The file of a run over a span of clusters.
ghost use Rattle.std.specs.Prelude.{◌≡◌, ◌≤◌, ◌<◌, IfOk, length};
ghost use Rattle.entry_fns.specs.{functions_in};
ghost use Rattle.rdf_values.specs.{fn_names, history, StatementsHaveWords};
ghost use Rattle.shard_files.specs.{shard_text};
ghost use Rattle.shard_loop.specs.{cuts_of, table_of};
ghost use Rattle.shard_spans.specs.{span_shard};
ghost use Rattle.table_csv.specs.{marked_in};
ghost use Rattle.shard_due.specs.{is_span, IsFile, IsSpanDue};
ghost use Rattle.shard_program.specs.Answers.{Answers};
ghost use Rattle.shard_program.specs.{AreNamed};

use crate::answer::Answer;
use crate::lines::{long_files_line, span_line};
use columns::Columns;
use entry_fns::FnList;
use graph::Graph;
use rdf_values::{Column, ListOf, Memory, Name, Span};
use shard_due::ShardStatus;
use shard_files::{Shard, ShardParts, print_shard};
use shard_loop::span_loops;
use std::alloc::Global;

/// The most bytes of a file, and of all files that are merged.
pub(crate) const MAX_FILES: usize = 134_217_728;

// The columns in a list of their own. The name of a column is a name, so nothing but memory can be wanting.
fn named_columns(alloc: Global, columns: &[Column]) -> Result<ListOf<Column>, Memory>
    ensures same { IfOk result (λ copy. copy ≡ columns.now) }
    ensures named { IfOk result AreNamed }
{
    let mut copy = ListOf::new(alloc);
    for column in columns {
        let Some(name) = Name::read(alloc, column.name.bytes())? else {
            return Err(Memory);
        };
        let kind = column.kind;
        copy.push(Column { name, kind })?;
    }
    Ok(copy)
}

// What a run over the span finds.
fn span_shard(
    alloc: Global,
    graph: &Graph,
    columns: &Columns,
    functions: &FnList,
    clusters: Span,
) -> Result<Shard, Memory>
    requires graph { (graph.now.header ≡ columns.now.table.columns) × (graph.now.names ≡ fn_names (functions_in functions.now)) }
    requires words { StatementsHaveWords (history graph.now.script) }
    requires span { (clusters.lo ≤ clusters.hi) × (clusters.hi ≤ length (cuts_of columns.now)) }
    ensures { IfOk result (λ shard. shard ≡ span_shard graph.now.script (table_of columns.now (functions_in functions.now)) (cuts_of columns.now) clusters.lo clusters.hi) }
{
    graph.is_booked();
    functions.answers_have_64_bits();
    let loops = span_loops(alloc, graph, columns, functions, clusters)?;
    let header = named_columns(alloc, columns.columns())?;
    Ok(Shard::new(ShardParts {
        entries: columns.entries(),
        clusters: columns.cuts().count(),
        columns: header,
        lo: clusters.lo,
        hi: clusters.hi,
        loops,
    }))
}

// The text of the file, unless it is too long.
fn answer_shard(alloc: Global, shard: &Shard) -> Result<Answer, Memory>
    ensures { IfOk result (Answers (IsFile (shard_text shard.now))) }
{
    let text = print_shard(alloc, shard)?;
    if text.as_bytes().len() > MAX_FILES {
        return Ok(Answer {
            status: ShardStatus::TooLong,
            text: long_files_line(alloc)?,
        });
    }
    Ok(Answer {
        status: ShardStatus::Done,
        text,
    })
}

// Whether the span is one of so many clusters.
fn is_span(clusters: u32, span: Span) -> bool
    ensures { result ≡ is_span clusters span }
{
    span.lo <= span.hi && span.hi <= clusters
}

/// The answer to a booked script over the span.
pub(crate) fn answer_span(
    alloc: Global,
    graph: &Graph,
    columns: &Columns,
    functions: &FnList,
    clusters: Span,
) -> Result<Answer, Memory>
    requires graph { (graph.now.header ≡ columns.now.table.columns) × (graph.now.names ≡ fn_names (functions_in functions.now)) }
    requires words { StatementsHaveWords (history graph.now.script) }
    ensures { IfOk result (Answers (IsSpanDue (functions_in functions.now) graph.now.script columns.now.cuts.size clusters (marked_in columns.now))) }
{
    if !is_span(columns.cuts().count(), clusters) {
        return Ok(Answer {
            status: ShardStatus::BadSpan,
            text: span_line(alloc)?,
        });
    }
    let shard = span_shard(alloc, graph, columns, functions, clusters)?;
    answer_shard(alloc, &shard)
}
