// The columns of a test.
ghost use Rattle.std.specs.Prelude.{◌≡◌, ◌<◌, ◌+◌, length, IfOk, OnOk};
ghost use Rattle.engine_tests.specs.Cells.{fits, look_in};
ghost use Rattle.engine_tests.specs.Scopes.{AreBefore};

use expr_check::Scope;
use expr_eval::{ColumnInput, Inputs};
use rdf_values::{ColType, EntryFault, Name};
use std::alloc::Global;
use std::test::Fail;

const MOST_ELEMENTS: usize = 4_096;

/// A column by its name and kind, and what is known of it.
#[derive(Clone, Copy)]
pub struct TestCell<'a> {
    pub name: &'a str,
    pub kind: ColType,
    pub input: ColumnInput<'a>,
}

/// A column that holds a number.
pub fn int(name: &str, value: i64) -> TestCell<'_> {
    TestCell {
        name,
        kind: ColType::Int,
        input: ColumnInput::Int(value),
    }
}

/// A column that holds a truth value.
pub fn truth(name: &str, value: bool) -> TestCell<'_> {
    TestCell {
        name,
        kind: ColType::Bool,
        input: ColumnInput::Bool(value),
    }
}

/// A column that holds a vector of at most 4,096 elements.
pub fn vect<'a>(name: &'a str, elements: &'a [i64]) -> TestCell<'a> {
    TestCell {
        name,
        kind: ColType::Vect,
        input: ColumnInput::Vect(elements),
    }
}

/// A column of which nothing is known yet.
pub fn missing(name: &str, kind: ColType) -> TestCell<'_> {
    TestCell {
        name,
        kind,
        input: ColumnInput::Missing,
    }
}

/// A column whose own evaluation faulted.
pub fn faulted(name: &str, kind: ColType, fault: EntryFault) -> TestCell<'_> {
    TestCell {
        name,
        kind,
        input: ColumnInput::Faulted(fault),
    }
}

fn fits(cell: &TestCell<'_>) -> bool
    ensures { result ≡ fits cell.now.kind cell.now.input }
{
    match (cell.kind, cell.input) {
        (_, ColumnInput::Faulted(_)) | (_, ColumnInput::Missing) => true,
        (ColType::Int, ColumnInput::Int(_)) | (ColType::Bool, ColumnInput::Bool(_)) => true,
        (ColType::Vect, ColumnInput::Vect(elements)) => elements.len() <= MOST_ELEMENTS,
        _ => false,
    }
}

/// Columns numbered by their places; one whose value isn't of its kind counts as missing.
#[derive(Drop)]
pub struct TestCells<'a> {
    pub cells: &'a [TestCell<'a>],
}

impl<'a> Inputs for TestCells<'a> {
    ghost can = { λ row c. Unit {0} };

    ghost look = { λ row c. look_in row.cells.now c };

    fn at(&self, col: u32) -> ColumnInput<'_> {
        match self.cells.get(col as usize) {
            Some(cell) if fits(cell) => cell.input,
            _ => ColumnInput::Missing,
        }
    }
}

// Adds the column at the place to those before it.
#[tactic(auto, using(crate::proofs::Fitting::new_number, crate::proofs::Fitting::one_more))]
fn add_column(
    alloc: Global,
    scope: &mut Scope,
    cells: &[TestCell<'_>],
    place: usize,
) -> Result<(), Fail>
    requires place { place < length cells.now }
    requires before { AreBefore cells.now place scope.old }
    ensures { OnOk result (AreBefore cells.now (place + 1) scope.new) }
{
    let cell = &cells[place];
    let name = Name::read(alloc, cell.name.as_bytes())?.ok_or("no name")?;
    if scope.find(&name).is_some() {
        return Err(Fail::from("a name twice"));
    }
    scope.add(&name, cell.kind, u32::try_from(place)?)?;
    Ok(())
}

/// The columns by their names, with their places as numbers.
pub fn scope_of(alloc: Global, cells: &[TestCell<'_>]) -> Result<Scope, Fail>
    ensures { IfOk result (λ s. AreBefore cells.now (length cells.now) s) }
{
    let mut scope = Scope::new(alloc);
    for place in 0..cells.len() {
        add_column(alloc, &mut scope, cells, place)?;
    }
    Ok(scope)
}
