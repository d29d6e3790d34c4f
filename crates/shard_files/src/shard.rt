// Shards.
ghost use Rattle.std.specs.Prelude.{◌≡◌};
ghost use Rattle.shard_files.specs.Shards.{IsShard, ShardView};

use crate::shard_loop::ShardLoop;
use rdf_values::{Column, ListOf};
use std::marker::Model;

/// A shard taken apart.
#[derive(Drop)]
pub struct ShardParts {
    pub entries: u32,
    pub clusters: u32,
    pub columns: ListOf<Column>,
    pub lo: u32,
    pub hi: u32,
    pub loops: ListOf<ShardLoop>,
}

/// What a run over a span of clusters found: the table's entries, clusters and columns, the span, and its loops in order, of
/// which the last may be a faulty one. It keeps the limits of a shard file.
#[derive(Drop)]
pub struct Shard {
    parts: ShardParts,
}

impl Model for Shard {
    ghost use Rattle.shard_files.specs.Shards.{IsShard, ShardView, view_of};

    ghost Value = { ShardView };

    ghost view = { λ s. view_of s.parts };

    ghost invariant = { λ s. IsShard (view_of s.parts) };
}

impl Shard {
    ghost use Rattle.shard_files.specs.Shards.{IsShard, view_of};

    /// The shard of these parts.
    pub fn new(parts: ShardParts) -> Shard
        requires { IsShard (view_of parts) }
        ensures { result ≡ view_of parts }
    {
        Shard { parts }
    }

    /// The parts; no memory is taken.
    pub fn into_parts(self) -> ShardParts
        ensures same { view_of result ≡ self }
        ensures valid { IsShard (view_of result) }
    {
        self.parts
    }

    /// How many entries the table has.
    pub fn entries(&self) -> u32
        ensures { result ≡ self.now.entries }
    {
        self.parts.entries
    }

    /// How many clusters the table was cut into.
    pub fn clusters(&self) -> u32
        ensures { result ≡ self.now.clusters }
    {
        self.parts.clusters
    }

    /// The table's columns.
    pub fn columns(&self) -> &[Column]
        ensures { result.now ≡ self.now.columns }
    {
        self.parts.columns.as_slice()
    }

    /// The first cluster of the span.
    pub fn lo(&self) -> u32
        ensures { result ≡ self.now.lo }
    {
        self.parts.lo
    }

    /// The cluster behind the last one of the span.
    pub fn hi(&self) -> u32
        ensures { result ≡ self.now.hi }
    {
        self.parts.hi
    }

    /// The loops in order.
    pub fn loops(&self) -> &[ShardLoop]
        ensures { result.now ≡ self.now.loops }
    {
        self.parts.loops.as_slice()
    }
}
