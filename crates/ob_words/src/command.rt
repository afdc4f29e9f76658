//! What words may ask for.

use ob_base::{Sequence, Word};

/// What a run does.
#[derive(Clone, Copy, Debug, PartialEq, Eq)]
pub enum Action {
    /// It serves the lines of the input.
    Call,
    /// It serves connections.
    Serve,
    /// It audits the rows that are kept.
    Audit,
}

/// What a run is asked for.
#[derive(Drop)]
pub struct Command<'a> {
    pub action: Action,
    /// The folder of module texts.
    pub folder: &'a str,
    /// The modules to load, in the order of the words.
    pub names: Sequence<Word>,
    /// The name of the database.
    pub database: &'a str,
    /// The file of the store, where it isn't in memory.
    pub file: Option<&'a str>,
    /// How many rows the engine may hold in memory beside those that are staged.
    pub cache: u32,
    /// The port of loopback at which connections come.
    pub port: u16,
    /// How many connections are served at most.
    pub limit: u32,
}

/// What words ask for.
#[derive(Drop)]
pub enum Asked<'a> {
    /// What the words may be.
    Help,
    /// The version of the program.
    Version,
    Command(Command<'a>),
}
