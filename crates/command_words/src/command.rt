// What a command asks for.
use crate::file_name::FileName;
use rdf_values::Name;

/// A table whose columns join those of the table.
#[derive(Debug, Drop)]
pub struct Friend {
    pub file: FileName,
    /// The column by which entries are joined.
    pub key: Name,
    /// What an entry without a friend has in an int column.
    pub missing: i64,
}

/// Where the script and the table come from.
#[derive(Debug, Drop)]
pub enum Input {
    /// Two files, by their names, and maybe a friend of the table.
    Files {
        script: FileName,
        table: FileName,
        friend: Option<Friend>,
    },
    /// The generator, for so many entries from a seed.
    Generated {
        entries: u32,
        seed: u32,
    },
}

/// A run of the program.
#[derive(Debug, Drop)]
pub struct Command {
    /// How many slots run at once.
    pub slots: u32,
    /// The most entries of a cluster.
    pub cluster: u32,
    /// After how many clusters a partial result is due.
    pub watch: u32,
    pub input: Input,
}
