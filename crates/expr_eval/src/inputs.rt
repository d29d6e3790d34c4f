// What an evaluation reads its columns from.
ghost use Rattle.std.specs.Prelude.{◌≡◌, ℕ};
ghost use Rattle.rdf_model.specs.{Outcome};
ghost use Rattle.rdf_values.specs.{Value};
ghost use Rattle.expr_eval.specs.Answers.{input_outcome};

use rdf_values::EntryFault;

/// What is known of a column: its value, its fault, or that it is missing.
#[derive(Clone, Copy, Debug)]
pub enum ColumnInput<'a> {
    Int(i64),
    Bool(bool),
    Vect(&'a [i64]),
    Faulted(EntryFault),
    Missing,
}

/// The columns of an evaluation by their numbers: which of them can be asked for, and what each comes to.
pub trait Inputs {
    ghost can: { Self → ℕ → Type 0 };

    ghost look: { Self → ℕ → Outcome ℕ Value };

    /// What is known of the column.
    fn at(&self, col: u32) -> ColumnInput<'_>
        requires { can self.now col }
        ensures { input_outcome col result ≡ look self.now col };
}
