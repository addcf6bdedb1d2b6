//! The values of files, one file after another.

ghost use Rattle.view_faults.specs.Status.{IsEnd};

use crate::columns::Columns;
use crate::files::read_values;
use crate::found::find;
use crate::fronts::Fronts;
use crate::hints::hint_of;
use crate::printing::Style;
use crate::value_lines::ValueLines;
use crate::values::Values;
use crate::{FileSystem, Form, Reading};
use engine::{Canonical, Rule};
use program::PrintedPath;
use std::alloc::Global;
use std::io::{Read, Write};
use std::string::String;
use types::{Refusal, WellTyped};
use view_faults::Fault;
use walking::Walk;

/// What the values of all files are printed by.
#[derive(Drop)]
pub struct Showing<'a, D> {
    pub alloc: Global,
    pub file_system: &'a D,
    pub ty: &'a WellTyped,
    pub reading: &'a Reading,
    pub form: Form,
    pub columns: Columns,
}

impl<D: FileSystem> Showing<'_, D> {
    /// Prints the values of each file, and why one is refused. Returns the worst exit status.
    pub fn show_all<W: Write, E: Write>(&self, out: &mut W, err: &mut E) -> u8
        ensures { IsEnd result }
    {
        let mut worst = None;
        for path in &self.reading.inputs {
            match self.show_file(path.as_str(), out, err) {
                Ok(()) => {}
                Err(Fault::Output) => break,
                Err(fault) => {
                    fault.print(path.as_str(), err);
                    worst = Some(worse_of(worst, fault));
                }
            }
        }
        match worst {
            Some(fault) => fault.status(),
            None => 0,
        }
    }

    // Prints the values of one file.
    fn show_file<W: Write, E: Write>(
        &self,
        path: &str,
        out: &mut W,
        err: &mut E,
    ) -> Result<(), Fault> {
        let Ok(mut input) = self.file_system.open(path) else {
            return Err(Fault::CannotRead);
        };
        self.print_name(path, out)?;
        let mut values = Values::new(self.alloc, self.reading.from, self.ty);
        let read = self.print_values(&mut input, &mut values, out);
        self.print_end(path, &values, read, err)
    }

    // Prints why values are refused, if they are. Whether nothing is wrong with them.
    fn print_end<E: Write>(
        &self,
        path: &str,
        values: &Values<'_>,
        read: Result<(), Fault>,
        err: &mut E,
    ) -> Result<(), Fault> {
        match read {
            Err(Fault::Refused(refusal)) => {
                self.print_refused(path, values, refusal, err)?;
                if values.at() == 0 {
                    print_hint(path, values.begun(), err);
                }
                Err(Fault::Refused(refusal))
            }
            Ok(()) if self.lacks_value(values.done()) => Err(Fault::NoValue),
            other => other,
        }
    }

    // Prints the values of an input, and of one that is refused the lines up to the fault.
    fn print_values<R: Read, W: Write>(
        &self,
        input: &mut R,
        values: &mut Values<'_>,
        out: &mut W,
    ) -> Result<(), Fault> {
        self.print_by(&mut self.lines(out), input, values)
    }

    // What was gathered before a fault is written before the fault is told.
    fn print_by<R: Read, W: Write>(
        &self,
        lines: &mut ValueLines<'_, W>,
        input: &mut R,
        values: &mut Values<'_>,
    ) -> Result<(), Fault> {
        let read = read_values(self.alloc, input, self.reading.hex, values, lines);
        if let Form::Octets(wanted) = self.form {
            if matches!(read, Err(Fault::Refused(_))) {
                lines.print_octets(wanted, values.begun(), values.at(), false)?;
            }
        }
        lines.flush()?;
        read
    }

    // Whether a value is asked for behind the last of so many.
    fn lacks_value(&self, done: u64) -> bool {
        match self.form {
            Form::Octets(wanted) => wanted.value.is_some_and(|value| value > done),
            Form::Json { .. } => false,
        }
    }

    // Prints the name of a file above its lines, where there are several files.
    fn print_name<W: Write>(&self, path: &str, out: &mut W) -> Result<(), Fault> {
        let is_named = match self.form {
            Form::Octets(wanted) => !wanted.only_refused && self.reading.inputs.len() > 1,
            Form::Json { .. } => false,
        };
        let path = PrintedPath(path);
        if is_named && writeln!(out, "{path}:").is_err() {
            return Err(Fault::Output);
        }
        Ok(())
    }

    fn lines<'b, W>(&'b self, out: &'b mut W) -> ValueLines<'b, W> {
        let style = self.style();
        ValueLines {
            alloc: self.alloc,
            ty: self.ty,
            style,
            form: self.form,
            out,
            done: 0,
            walk: Walk::new(self.alloc, style.rule, self.ty),
            fronts: Fronts::new(self.alloc),
            text: String::new(self.alloc),
        }
    }

    fn style(&self) -> Style<'_> {
        let wide = match self.form {
            Form::Octets(wanted) => wanted.wide,
            Form::Json { .. } => true,
        };
        Style {
            name: self.reading.name.as_str(),
            rule: canonical_of(self.reading.from),
            columns: &self.columns,
            wide,
        }
    }

    // Prints where and why the octets of a value are refused.
    fn print_refused<E: Write>(
        &self,
        path: &str,
        values: &Values<'_>,
        refusal: Refusal,
        err: &mut E,
    ) -> Result<(), Fault> {
        let found = find(self.alloc, self.ty, values.begun(), refusal, &self.style())?;
        let at = values.at();
        match found {
            None => {
                let name = self.reading.name.as_str();
                put_refused(path, at, name, refusal, "no place of it is known", err);
            }
            Some(found) => {
                let at = at.saturating_add(found.at as u64);
                let name = self.reading.name.as_str();
                let place = found.path.as_str();
                let reason = found.reason.as_str();
                if place.is_empty() {
                    put_refused(path, at, name, refusal, reason, err);
                } else {
                    put_refused(path, at, place, refusal, reason, err);
                }
            }
        }
        Ok(())
    }
}

// The fault with the worse status.
fn worse_of(before: Option<Fault>, fault: Fault) -> Fault {
    match before {
        Some(before) if before.status() >= fault.status() => before,
        _ => fault,
    }
}

// Prints the line of a refusal: the file, the octet, the part, the number and the name, and the reason.
fn put_refused<E: Write>(
    path: &str,
    at: u64,
    place: &str,
    refusal: Refusal,
    reason: &str,
    err: &mut E,
) {
    let path = PrintedPath(path);
    let _ = writeln!(
        err,
        "{path}: octet {at}: {place}: refused {refusal}: {reason}"
    );
}

// Prints what to do with a file that begins with these octets, if it looks like a text of encodings.
fn print_hint<E: Write>(path: &str, octets: &[u8], err: &mut E) {
    if let Some(hint) = hint_of(octets) {
        let path = PrintedPath(path);
        let _ = writeln!(err, "{path}: {hint}");
    }
}

// The rule that says what is not canonical where octets are read by this one.
fn canonical_of(from: Rule) -> Canonical {
    match from {
        Rule::Cer => Canonical::Cer,
        Rule::Ber | Rule::Der => Canonical::Der,
    }
}
