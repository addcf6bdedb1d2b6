//! The program's command line.

use trimming::Request;

/// A command line.
#[derive(Drop)]
pub struct Line {
    /// The files, in the order in which they are named.
    pub files: Vec<String>,
    /// What is asked for.
    pub request: Request,
}
