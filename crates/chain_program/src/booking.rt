// A script over the columns of a table.
ghost use Rattle.std.specs.Prelude.{IfOk};
ghost use Rattle.entry_fns.specs.{functions_in};
ghost use Rattle.table_csv.specs.{marked_in};
ghost use Rattle.rdf_values.specs.{IsBookable};
ghost use Rattle.chain_program.specs.{BooksOver};

use crate::answer::Read;
use crate::lines::refused_script;
use crate::means::Means;
use columns::Columns;
use graph::{Graph, GraphRefusal};
use rdf_values::{Memory, Script};

/// The graph of a script with the columns of a table.
#[derive(Drop)]
pub(crate) struct Booked {
    pub(crate) graph: Graph,
    pub(crate) columns: Columns,
}

/// Books the script over the table.
pub(crate) fn book_over<R, G>(
    means: &Means<'_, R, G>,
    script: Script,
    columns: Columns,
) -> Result<Read<Booked>, Memory>
    requires bookable { IsBookable script }
    ensures { IfOk result (BooksOver (functions_in means.now.functions.now) script (marked_in columns)) }
{
    match Graph::book(
        means.alloc,
        script,
        columns.columns(),
        means.functions.names(),
    ) {
        Ok(graph) => Ok(Read::Whole(Booked { graph, columns })),
        Err(GraphRefusal::Memory) => Err(Memory),
        Err(GraphRefusal::At { line, cause }) => {
            Ok(Read::Refused(refused_script(means.alloc, line, cause)?))
        }
    }
}
