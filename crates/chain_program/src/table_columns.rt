// Copies of columns.
ghost use Rattle.std.specs.Prelude.{◌≡◌, true, IfOk};
ghost use Rattle.std.specs.List.{list_all};
ghost use Rattle.rdf_values.specs.{Column, is_name};

use rdf_values::{Column, ListOf, Memory, Name};
use std::alloc::Global;

// A copy of a column; its name is one, so nothing but memory can be wanting.
fn copied_column(alloc: Global, column: &Column) -> Result<Column, Memory>
    ensures { IfOk result (λ c. (c ≡ column.now) × (is_name c.name ≡ true)) }
{
    let Some(name) = Name::read(alloc, column.name.bytes())? else {
        return Err(Memory);
    };
    Ok(Column {
        name,
        kind: column.kind,
    })
}

/// A copy of columns.
pub(crate) fn copied_columns(alloc: Global, columns: &[Column]) -> Result<ListOf<Column>, Memory>
    ensures same { IfOk result (λ all. all ≡ columns.now) }
    ensures named { IfOk result (λ all. list_all (λ (c : Column). is_name c.name) all ≡ true) }
{
    let mut all = ListOf::new(alloc);
    for column in columns {
        let copy = copied_column(alloc, column)?;
        all.push(copy)?;
    }
    Ok(all)
}
