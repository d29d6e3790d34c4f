// Columns in one piece each.
ghost use Rattle.std.specs.Prelude.{◌≡◌, IfOk, map};
ghost use Rattle.columns.specs.{joined, whole};

use columns::ColumnPieces;
use rdf_values::{Cells, Memory, Numbers, Vects};
use std::alloc::Global;

// The numbers of all pieces; the first piece grows.
fn join_ints(alloc: Global, pieces: Vec<Numbers>) -> Result<Numbers, Memory>
    ensures { IfOk result (λ numbers. numbers ≡ joined pieces.items) }
{
    let mut pieces = pieces.into_iter();
    let Some(mut numbers) = pieces.next() else {
        return Ok(Numbers::new(alloc));
    };
    for more in pieces {
        numbers.extend_from(&more)?;
    }
    Ok(numbers)
}

// The vectors of all pieces; the first piece grows.
fn join_vectors(alloc: Global, pieces: Vec<Vects>) -> Result<Vects, Memory>
    ensures { IfOk result (λ vectors. vectors ≡ joined pieces.items) }
{
    let mut pieces = pieces.into_iter();
    let Some(mut vectors) = pieces.next() else {
        return Ok(Vects::new(alloc));
    };
    for more in pieces {
        vectors.extend_from(&more)?;
    }
    Ok(vectors)
}

fn join_pieces(alloc: Global, pieces: ColumnPieces) -> Result<Cells, Memory>
    ensures { IfOk result (λ cells. cells ≡ whole pieces) }
{
    match pieces {
        ColumnPieces::Ints(numbers) => Ok(Cells::Ints(join_ints(alloc, numbers)?)),
        ColumnPieces::Vects(vectors) => Ok(Cells::Vects(join_vectors(alloc, vectors)?)),
    }
}

/// The columns in one piece each. A column that is in one piece isn't copied.
pub(crate) fn in_one_piece(alloc: Global, columns: Vec<ColumnPieces>) -> Result<Vec<Cells>, Memory>
    ensures { IfOk result (λ cells. cells.items ≡ map whole columns.items) }
{
    let mut cells = Vec::new(alloc);
    for pieces in columns {
        cells.push(join_pieces(alloc, pieces)?)?;
    }
    Ok(cells)
}
