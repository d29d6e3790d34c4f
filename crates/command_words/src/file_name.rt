// Names of files.
ghost use Rattle.std.specs.Prelude.{◌≡◌, IfOk};

use rdf_values::Memory;
use std::alloc::Global;
use std::marker::Model;

/// The name of a file, as the command's word gives it. Contracts see its bytes.
#[derive(Debug, Drop)]
pub struct FileName {
    name: String,
}

impl Model for FileName {
    ghost use Rattle.std.specs.Prelude.{List, ℕ};
    ghost use Rattle.std.specs.String.{string_bytes};

    ghost Value = { List ℕ };

    ghost view = { λ f. string_bytes f.name };
}

impl FileName {
    /// The name that a word is.
    pub fn of(alloc: Global, word: &str) -> Result<FileName, Memory>
        ensures { IfOk result (λ name. name ≡ word.now) }
    {
        let name = String::from_str(alloc, word)?;
        Ok(FileName { name })
    }

    /// The name as a text.
    pub fn as_str(&self) -> &str
        ensures { result.now ≡ self.now }
    {
        self.name.as_str()
    }
}
