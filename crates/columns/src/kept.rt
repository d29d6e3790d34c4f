// Columns as they are kept.
ghost use Rattle.std.specs.Prelude.{◌≡◌, ◌≤◌, ◌+◌, IfOk, length, map};
ghost use Rattle.std.specs.List.{AllByRecursion};
ghost use Rattle.std.specs.Thread.{IsSync};
ghost use Rattle.rdf_values.specs.{count, cut, Keep};
ghost use Rattle.columns.specs.{cells_of, IsByCluster, joined, whole};

use crate::column_pieces::ColumnPieces;
use crate::cuts::Cuts;
use crate::packed_ints::{PackedInts, pack};
use rdf_values::{Memory, Vects};
use std::alloc::Global;
use std::thread::{Threads, join};

/// The numbers of an int column, packed by cluster, or the vectors of a vec column.
#[derive(Drop)]
pub(crate) enum PackedColumn {
    Ints(PackedInts),
    Vects(Vects),
}

// The vectors of all pieces; the first piece grows, and no other is copied twice.
fn join_vectors(alloc: Global, pieces: Vec<Vects>) -> Result<Vects, Memory>
    ensures { IfOk result (λ vectors. vectors ≡ joined pieces.items) }
{
    let mut pieces = pieces.into_iter();
    let Some(mut vectors) = pieces.next() else {
        return Ok(Vects::new(alloc));
    };
    for more in pieces {
        vectors.extend_from(&more)?;
    }
    Ok(vectors)
}

fn keep(alloc: Global, pieces: ColumnPieces, cuts: &Cuts) -> Result<PackedColumn, Memory>
    requires size { count (whole pieces) ≡ cuts.now.entries }
    requires few { cuts.now.entries ≤ 1000000 }
    ensures same { IfOk result (λ kept. cells_of kept ≡ whole pieces) }
    ensures clusters { IfOk result (IsByCluster (cut cuts.now.entries cuts.now.size cuts.now.marks)) }
{
    match pieces {
        ColumnPieces::Ints(numbers) => Ok(PackedColumn::Ints(pack(
            alloc,
            numbers.as_slice(),
            cuts,
        )?)),
        ColumnPieces::Vects(vectors) => Ok(PackedColumn::Vects(join_vectors(alloc, vectors)?)),
    }
}

// The columns as they are kept; each one's pieces go as soon as it is packed.
fn keep_all(
    alloc: Global,
    pieces: Vec<ColumnPieces>,
    cuts: &Cuts,
) -> Result<Vec<PackedColumn>, Memory>
    requires keep { Keep cuts.now.entries (map whole pieces.items) }
    requires few { cuts.now.entries ≤ 1000000 }
    ensures same { IfOk result (λ kept. map cells_of kept.items ≡ map whole pieces.items) }
    ensures clusters { IfOk result (λ kept. AllByRecursion (IsByCluster (cut cuts.now.entries cuts.now.size cuts.now.marks)) kept.items) }
{
    let mut kept = Vec::new(alloc);
    for column in pieces {
        kept.push(keep(alloc, column, cuts)?)?;
    }
    Ok(kept)
}

// One thread puts the vectors of a column together, in about the time in which it packs two columns of numbers.
fn weight(column: &ColumnPieces) -> usize {
    match column {
        ColumnPieces::Ints(_) => 1,
        ColumnPieces::Vects(_) => 2,
    }
}

// How many of the columns take about half of the time of all.
fn half_of(columns: &[ColumnPieces]) -> usize
    ensures { result ≤ length columns.now }
{
    let mut whole: usize = 0;
    for column in columns {
        whole = whole.saturating_add(weight(column));
    }
    let mut front: usize = 0;
    for (at, column) in columns.iter().enumerate() {
        front = front.saturating_add(weight(column));
        if at > 0 && front > whole / 2 {
            return at;
        }
    }
    columns.len()
}

/// The slots for either half of some work: at least one each, and all of them together.
pub fn halves(slots: u32) -> (u32, u32)
    requires { 2 ≤ slots }
    ensures some { (1 ≤ result.0) × (1 ≤ result.1) }
    ensures all { result.0 + result.1 ≡ slots }
{
    let first = slots / 2;
    (first, slots - first)
}

/// What `keep_all` keeps, packed side by side: about half of the columns by half of the slots.
pub(crate) fn keep_in_slots<R: Threads + Sync>(
    rt: &R,
    alloc: Global,
    mut pieces: Vec<ColumnPieces>,
    cuts: &Cuts,
    slots: u32,
) -> Result<Vec<PackedColumn>, Memory>
    requires keep { Keep cuts.now.entries (map whole pieces.items) }
    requires few { cuts.now.entries ≤ 1000000 }
    ensures same { IfOk result (λ kept. map cells_of kept.items ≡ map whole pieces.items) }
    ensures clusters { IfOk result (λ kept. AllByRecursion (IsByCluster (cut cuts.now.entries cuts.now.size cuts.now.marks)) kept.items) }
{
    if slots < 2 || pieces.len() < 2 {
        return keep_all(alloc, pieces, cuts);
    }
    let (half, others) = halves(slots);
    let back = pieces.split_off(half_of(pieces.as_slice()))?;
    let front = pieces;
    let (first, second) = join(
        rt,
        move || -> Result<Vec<PackedColumn>, Memory>
            requires { IsSync R.row × Keep cuts.now.entries (map whole front.items) × (cuts.now.entries ≤ 1000000) }
            ensures same { IfOk result (λ kept. map cells_of kept.items ≡ map whole front.items) }
            ensures clusters { IfOk result (λ kept. AllByRecursion (IsByCluster (cut cuts.entry.now.entries cuts.entry.now.size cuts.entry.now.marks)) kept.items) }
        { keep_in_slots(rt, alloc, front, cuts, half) },
        move || -> Result<Vec<PackedColumn>, Memory>
            requires { IsSync R.row × Keep cuts.now.entries (map whole back.items) × (cuts.now.entries ≤ 1000000) }
            ensures same { IfOk result (λ kept. map cells_of kept.items ≡ map whole back.items) }
            ensures clusters { IfOk result (λ kept. AllByRecursion (IsByCluster (cut cuts.entry.now.entries cuts.entry.now.size cuts.entry.now.marks)) kept.items) }
        { keep_in_slots(rt, alloc, back, cuts, others) },
    );
    let mut kept = first?;
    kept.append(&mut second?)?;
    Ok(kept)
}
