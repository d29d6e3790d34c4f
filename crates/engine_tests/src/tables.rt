// How a table is kept: in the pieces in which it is read, and packed.
ghost use Rattle.std.specs.Prelude.{◌≡◌, ⊤, IfOk, MatchOption, Some, length};
ghost use Rattle.rdf_values.specs.{kind_at};

use columns::{ColumnPieces, Columns, Packing, TablePieces, cut};
use rdf_values::{ColType, Column, ListOf, Marks, Memory, Name, Table, Value};
use std::alloc::Global;
use std::test::Fail;
use table_csv::read_table_in_slots;

// An int column of two entries.
fn table(alloc: Global) -> Result<Option<Table>, Memory>
    ensures { IfOk result (λ o. MatchOption o ⊤ (λ t. (kind_at t.columns 0 ≡ Some ColType.Int) × (length t.rows ≡ 2))) }
{
    let Some(name) = Name::read(alloc, b"pt")? else {
        return Ok(None);
    };
    let mut columns = ListOf::new(alloc);
    columns.push(Column {
        name,
        kind: ColType::Int,
    })?;
    let mut table = Table::new(alloc, columns)?;
    let mut row = ListOf::new(alloc);
    row.push(Value::Int(10))?;
    table.push(&mut row)?;
    row.push(Value::Int(-3))?;
    table.push(&mut row)?;
    Ok(Some(table))
}

#[test]
fn numbers_are_packed_as_differences_to_the_least(rt: HostRuntime) -> Result<(), Fail> {
    let Some(table) = table(rt.alloc())? else {
        panic!(rt; "no name");
    };
    let cuts = cut(rt.alloc(), 2, 2, &Marks::new(rt.alloc()))?;
    let pieces = TablePieces::of(rt.alloc(), table)?;
    let columns = Columns::build_in_slots(&rt, rt.alloc(), pieces, cuts, 1)?;
    let packing = Packing {
        least: -3,
        width: 1,
    };
    assert_eq!(rt; columns.packing(0, 0), packing);
    assert_eq!(rt; columns.packed(0, 0), [13, 0].as_slice());
    Ok(())
}

// 80,000 bytes of lines, and a last line.
#[test]
fn lines_without_quotes_are_read_in_a_piece_for_each_slot(rt: HostRuntime) -> Result<(), Fail> {
    let alloc = rt.alloc();
    for (line, slots, wanted) in [
        ("1\n", 1, 1),
        ("1\n", 2, 2),
        ("22\r\n\r\n", 3, 3),
        ("-333", 4, 4),
        ("\"1\"\n", 4, 1),
    ] {
        let mut text = String::from_str(alloc, "x:int\n")?;
        for _ in 0..40_000 {
            text.push_str("0\n")?;
        }
        text.push_str(line)?;
        let marked = read_table_in_slots(&rt, alloc, text.as_bytes(), slots)?;
        let parts = marked.table.into_parts();
        assert_eq!(rt; parts.entries, 40_001);
        match parts.pieces.as_slice() {
            [ColumnPieces::Ints(pieces)] => assert_eq!(rt; pieces.len(), wanted, "{line:?}"),
            _ => assert!(rt; false),
        }
    }
    Ok(())
}
