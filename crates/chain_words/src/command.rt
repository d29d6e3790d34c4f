// What a command asks for.
use command_words::FileName;
use rdf_values::ListOf;

/// How many slots run at once, and the most entries of a cluster.
#[derive(Clone, Copy, Debug)]
pub struct Settings {
    pub slots: u32,
    pub cluster: u32,
}

/// A run of a script over a chain of tables.
#[derive(Drop)]
pub struct Running {
    pub script: FileName,
    pub tables: ListOf<FileName>,
    pub settings: Settings,
}

/// A run over one table, which is that file of a chain.
#[derive(Drop)]
pub struct Mapping {
    pub script: FileName,
    pub number: u32,
    pub table: FileName,
    pub settings: Settings,
}

/// The joining of parts.
#[derive(Drop)]
pub struct Joining {
    pub script: FileName,
    pub parts: ListOf<FileName>,
}

/// The printing of the part of so many files.
#[derive(Drop)]
pub struct Printing {
    pub script: FileName,
    pub count: u32,
    pub part: FileName,
}

/// What is done.
#[derive(Drop)]
pub enum ChainCommand {
    Run(Running),
    Map(Mapping),
    Join(Joining),
    Print(Printing),
}
