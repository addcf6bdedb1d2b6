//! The line of a module's fault.

use crate::words_of_fault;
use lexis::{Fault, fault_name};
use octets::NoMemory;
use program::PrintedPath;
use std::alloc::Global;
use std::string::String;

/// Where the lines of faults go.
#[derive(Drop)]
pub struct FaultLine<'a, 'b> {
    /// The module's file.
    pub path: &'a str,
    /// The lines.
    pub out: &'b mut String,
    /// Of each line the place that it is of, its line and its column there, and where it begins in `out`.
    pub places: Vec<(u32, u32, usize)>,
}

impl FaultLine<'_, '_> {
    /// Appends the line of a fault: its place, its number and its name, the token or the name that it is of, and what is
    /// known of it.
    pub fn put(
        &mut self,
        line: u32,
        column: u32,
        number: u32,
        subject: &str,
        words: &str,
    ) -> Result<(), NoMemory> {
        self.places.push((line, column, self.out.len()))?;
        let path = PrintedPath(self.path);
        let name = fault_name(number);
        let colon = if subject.is_empty() { "" } else { ": " };
        let subject = PrintedPath(subject);
        write!(
            self.out,
            "{path}:{line}:{column}: refused {number} {name}: {subject}{colon}{words}\n"
        )?;
        Ok(())
    }

    /// Appends a line of what is no fault, but may hide one: its place, the name that it is of, and what it is.
    pub fn put_note(
        &mut self,
        line: u32,
        column: u32,
        name: &str,
        words: &str,
    ) -> Result<(), NoMemory> {
        self.places.push((line, column, self.out.len()))?;
        let path = PrintedPath(self.path);
        write!(self.out, "{path}:{line}:{column}: {name}: {words}\n")?;
        Ok(())
    }

    /// Appends the line of a fault, with what its number says, and what more is known.
    pub fn put_number(
        &mut self,
        alloc: Global,
        fault: Fault,
        subject: &str,
        more: &str,
    ) -> Result<(), NoMemory> {
        let words = words_of_fault(fault.number);
        let words = format!(in alloc; "{words}{more}")?;
        self.put(
            fault.line,
            fault.column,
            fault.number,
            subject,
            words.as_str(),
        )
    }
}
