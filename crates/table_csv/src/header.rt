// Columns from a header.
ghost use Rattle.std.specs.Prelude.{◌≡◌, ◌≤◌, ◌<◌, [], Ok, IfOk, OnSome, MatchResult, length, position};
ghost use Rattle.rdf_values.specs.Answered.{Refuses};
ghost use Rattle.rdf_values.specs.{has_name, header_from, is_colon, is_cut, next_column, type_of};
ghost use Rattle.csv.specs.Records.{fields_of};

use crate::records::field;
use crate::refusal::TableRefusal;
use csv::ByteRecord;
use rdf_values::{ColType, Column, ListOf, Memory, Name, TableCause};
use std::alloc::Global;

const MAX_COLUMNS: usize = 64;

fn has_name(columns: &[Column], name: &[u8]) -> bool
    ensures { result ≡ has_name columns.now name.now }
{
    for column in columns {
        if column.name.bytes() == name {
            return true;
        }
    }
    false
}

fn type_of(word: &[u8]) -> Option<ColType>
    ensures { result ≡ type_of word.now }
{
    match word {
        b"int" => Some(ColType::Int),
        b"vec" => Some(ColType::Vect),
        _ => None,
    }
}

fn find_colon(field: &[u8]) -> Option<usize>
    ensures { result ≡ position is_colon field.now }
{
    field.iter().position(|b| *b == b':')
}

// The column of a header's field, if it is one that may stand behind these.
#[tactic(auto, unfolding(rdf_values::specs::tables::TableText::next_column, rdf_values::specs::tables::TableText::column_of))]
fn next_column(alloc: Global, before: &[Column], field: &[u8]) -> Result<Option<Column>, Memory>
    ensures value { IfOk result (λ column. column ≡ next_column before.now field.now) }
    ensures room { IfOk result (λ column. OnSome column (length before.now < 64)) }
{
    if before.len() >= MAX_COLUMNS {
        return Ok(None);
    }
    let Some(colon) = find_colon(field) else {
        return Ok(None);
    };
    let Some(kind) = type_of(&field[colon + 1..]) else {
        return Ok(None);
    };
    match Name::read(alloc, &field[..colon])? {
        Some(name) if has_name(before, name.bytes()) => Ok(None),
        Some(name) => Ok(Some(Column { name, kind })),
        None => Ok(None),
    }
}

// Whether the field, the last of a header, says that its cells are marks.
#[tactic(auto, unfolding(rdf_values::specs::tables::TableText::is_cut))]
fn is_cut(alloc: Global, before: &[Column], field: &[u8]) -> Result<bool, Memory>
    ensures { IfOk result (λ cut. cut ≡ is_cut before.now field.now) }
{
    let Some(colon) = find_colon(field) else {
        return Ok(false);
    };
    if before.is_empty() || &field[colon + 1..] != b"cut".as_slice() {
        return Ok(false);
    }
    match Name::read(alloc, &field[..colon])? {
        Some(name) => Ok(!has_name(before, name.bytes())),
        None => Ok(false),
    }
}

/// The columns that a header names, and whether a field of marks stands behind them.
#[derive(Drop)]
pub(crate) struct Heading {
    pub(crate) columns: ListOf<Column>,
    pub(crate) marked: bool,
}

/// What the fields of a header say, or the first field that can't stand there.
#[tactic(auto, using(crate::proofs::TableSteps::header_cut, crate::proofs::TableSteps::header_stop, crate::proofs::TableSteps::header_end))]
pub(crate) fn read_header(alloc: Global, header: &ByteRecord) -> Result<Heading, TableRefusal>
    ensures value { MatchResult result (λ h. header_from 0 [] (fields_of header.now) ≡ Ok (record { columns = h.columns; marked = h.marked }))
        (Refuses TableRefusal.At TableRefusal.Memory (header_from 0 [] (fields_of header.now))) }
    ensures few { IfOk result (λ h. length h.columns ≤ 64) }
{
    let mut columns = ListOf::new(alloc);
    for i in 0..header.len() {
        let text = field(header, i);
        if i + 1 == header.len() && is_cut(alloc, columns.as_slice(), text)? {
            return Ok(Heading {
                columns,
                marked: true,
            });
        }
        let Some(column) = next_column(alloc, columns.as_slice(), text)? else {
            return Err(TableRefusal::At(TableCause::Header { field: i as u32 }));
        };
        columns.push(column)?;
    }
    Ok(Heading {
        columns,
        marked: false,
    })
}
