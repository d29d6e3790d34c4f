// Parts.
ghost use Rattle.std.specs.Prelude.{◌≡◌};
ghost use Rattle.chain_files.specs.Parts.{IsPart, PartView};

use crate::part_loop::PartLoop;
use rdf_values::{Column, ListOf, Text};
use std::marker::Model;

/// A part taken apart.
#[derive(Drop)]
pub struct PartFields {
    pub first_file: u32,
    pub end_file: u32,
    pub entries: u64,
    pub script: Text,
    pub columns: ListOf<Column>,
    pub loops: ListOf<PartLoop>,
}

/// What a run over some files of a chain found: the first file and the one behind the last, how many entries they have
/// together, the digest of the script, the columns, and its loops in order, of which the last may be a faulty one. It keeps
/// the limits of a part file.
#[derive(Drop)]
pub struct Part {
    fields: PartFields,
}

impl Model for Part {
    ghost use Rattle.chain_files.specs.Parts.{IsPart, PartView, view_of};

    ghost Value = { PartView };

    ghost view = { λ s. view_of s.fields };

    ghost invariant = { λ s. IsPart (view_of s.fields) };
}

impl Part {
    ghost use Rattle.chain_files.specs.Parts.{IsPart, view_of};

    /// The part of these fields.
    pub fn new(fields: PartFields) -> Part
        requires { IsPart (view_of fields) }
        ensures { result ≡ view_of fields }
    {
        Part { fields }
    }

    /// The fields; no memory is taken.
    pub fn into_fields(self) -> PartFields
        ensures same { view_of result ≡ self }
        ensures valid { IsPart (view_of result) }
    {
        self.fields
    }

    /// The first file, by its number in the chain.
    pub fn first_file(&self) -> u32
        ensures { result ≡ self.now.first_file }
    {
        self.fields.first_file
    }

    /// The file behind the last one.
    pub fn end_file(&self) -> u32
        ensures { result ≡ self.now.end_file }
    {
        self.fields.end_file
    }

    /// How many entries the files have together.
    pub fn entries(&self) -> u64
        ensures { result ≡ self.now.entries }
    {
        self.fields.entries
    }

    /// The digest of the script: 16 digits from 0 to f.
    pub fn script(&self) -> &[u8]
        ensures { result.now ≡ self.now.script }
    {
        self.fields.script.as_bytes()
    }

    /// The columns of each table.
    pub fn columns(&self) -> &[Column]
        ensures { result.now ≡ self.now.columns }
    {
        self.fields.columns.as_slice()
    }

    /// The loops in order.
    pub fn loops(&self) -> &[PartLoop]
        ensures { result.now ≡ self.now.loops }
    {
        self.fields.loops.as_slice()
    }
}
