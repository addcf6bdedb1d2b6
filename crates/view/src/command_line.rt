//! The program's command line.

use engine::Rule;

/// How values are read.
#[derive(Drop)]
pub struct Reading {
    /// The module's file, or `@builtin`.
    pub module: String,
    /// The name of the type.
    pub name: String,
    /// The files of the values.
    pub inputs: Vec<String>,
    /// The rule that they are read by.
    pub from: Rule,
    /// Whether the files are hexadecimal text.
    pub hex: bool,
}

/// Which lines `octets` prints.
#[derive(Clone, Copy)]
pub struct Wanted {
    /// The number of the one value that is shown, counted from 1.
    pub value: Option<u64>,
    /// Whether the refusal alone is shown.
    pub only_refused: bool,
    /// Whether long values are shown whole.
    pub wide: bool,
}

/// How values are printed.
#[derive(Clone, Copy)]
pub enum Form {
    /// A line for each identifier.
    Octets(Wanted),
    /// As JSON.
    Json {
        /// Whether each member and each item stands on a line of its own.
        indented: bool,
    },
}

/// What is asked.
#[derive(Drop)]
pub enum Task {
    /// The values of files.
    Show(Reading, Form),
    /// The names of a module, or the type that one of them means.
    Types {
        /// The module's file.
        module: String,
        /// The name.
        name: Option<String>,
    },
    /// The faults of a module.
    Module(String),
    /// What a number of a refusal says.
    Refusal(u64),
    /// The octets of a stream in files.
    Cut {
        /// The file of the values.
        input: String,
        /// How many octets a file has at least.
        least: u64,
        /// What the names of the files begin with.
        prefix: String,
    },
}

/// A command line.
#[derive(Drop)]
pub struct Line {
    /// What is asked.
    pub task: Task,
}
