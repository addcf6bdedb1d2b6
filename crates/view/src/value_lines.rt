//! What is printed of each value. Lines are gathered, and written many at a time.

use crate::found::put_lines;
use crate::fronts::Fronts;
use crate::json_text::{Layout, put_json};
use crate::printing::Style;
use crate::values::Visit;
use crate::{Form, Wanted};
use octets::NoMemory;
use std::alloc::Global;
use std::io::Write;
use std::string::String;
use types::{Value, WellTyped};
use view_faults::Unwanted;
use walking::Walk;

// From so many octets on, what is gathered is written.
const FULL: usize = 32_768;

/// Prints values.
#[derive(Drop)]
pub struct ValueLines<'a, W> {
    pub alloc: Global,
    pub ty: &'a WellTyped,
    pub style: Style<'a>,
    pub form: Form,
    pub out: &'a mut W,
    /// How many values have come.
    pub done: u64,
    /// The walk over each value.
    pub walk: Walk<'a>,
    /// Texts of the parts in it.
    pub fronts: Fronts,
    /// What is not written yet.
    pub text: String,
}

impl<W: Write> ValueLines<'_, W> {
    /// Prints the lines of the octets of the value that comes next, which are taken or refused, if they are wanted.
    pub fn print_octets(
        &mut self,
        wanted: Wanted,
        octets: &[u8],
        at: u64,
        is_taken: bool,
    ) -> Result<(), Unwanted> {
        let number = self.done.saturating_add(1);
        if wanted.only_refused || wanted.value.is_some_and(|value| value != number) {
            return Ok(());
        }
        let before = self.text.len();
        self.walk.begin(is_taken);
        let put = put_lines(
            self.alloc,
            &mut self.walk,
            octets,
            at,
            &self.style,
            &mut self.fronts,
            &mut self.text,
        );
        self.gathered(before, put)
    }

    // Prints a value as JSON.
    fn print_json(&mut self, indented: bool, value: &Value) -> Result<(), Unwanted> {
        let before = self.text.len();
        let level = 0;
        let layout = Layout { indented, level };
        let put = put_json_line(self.alloc, self.ty, value, layout, &mut self.text);
        self.gathered(before, put)
    }

    // Writes what is gathered, if it is much. Of a value that ended out of memory, behind so many octets, nothing is
    // written.
    fn gathered(&mut self, before: usize, put: Result<(), NoMemory>) -> Result<(), Unwanted> {
        if put.is_err() {
            self.write(before)?;
            return Err(Unwanted::NoMemory);
        }
        let count = self.text.len();
        if count < FULL {
            return Ok(());
        }
        self.write(count)
    }

    // Writes so many octets of what is gathered, and keeps none.
    fn write(&mut self, count: usize) -> Result<(), Unwanted> {
        let mut text = std::mem::replace(&mut self.text, String::new(self.alloc));
        let written = self
            .out
            .write_all(text.as_bytes().get(..count).unwrap_or(&[]));
        text.clear();
        self.text = text;
        match written {
            Ok(()) => Ok(()),
            Err(_) => Err(Unwanted::Output),
        }
    }

    /// Writes all that was printed.
    pub fn flush(&mut self) -> Result<(), Unwanted> {
        let count = self.text.len();
        self.write(count)?;
        match self.out.flush() {
            Ok(()) => Ok(()),
            Err(_) => Err(Unwanted::Output),
        }
    }
}

impl<W: Write> Visit for ValueLines<'_, W> {
    fn value(&mut self, octets: &[u8], at: u64, value: &Value) -> Result<(), Unwanted> {
        let printed = match self.form {
            Form::Octets(wanted) => self.print_octets(wanted, octets, at, true),
            Form::Json { indented } => self.print_json(indented, value),
        };
        self.done = self.done.saturating_add(1);
        printed
    }
}

// Appends a value as JSON, and a line feed.
fn put_json_line(
    alloc: Global,
    ty: &WellTyped,
    value: &Value,
    layout: Layout,
    out: &mut String,
) -> Result<(), NoMemory> {
    put_json(alloc, ty.as_type(), value, layout, out)?;
    out.push('\n')?;
    Ok(())
}
