//! The program once its words are judged.

ghost use Rattle.view_faults.specs.Status.{IsStatus};

use crate::columns::Columns;
use crate::cut_files::cut;
use crate::module_runs::{show_faults, show_types};
use crate::module_type::type_of;
use crate::refusal_pages::show_pages;
use crate::showing_files::Showing;
use crate::watched_output::WatchedOutput;
use crate::{FileSystem, Form, Line, Reading, Task};
use octets::NoMemory;
use std::alloc::Global;
use std::io::{BufWriter, Write};
use types::WellTyped;
use view_faults::{Fault, print_no_memory};

/// Does what a command line asks, and returns the exit status. Results go to `out`, one line for each fault to `err`.
/// An output that fails is a fault, but where its reader is gone.
pub fn run<D: FileSystem, W: Write + Drop, E: Write>(
    alloc: Global,
    line: &Line,
    file_system: &D,
    out: W,
    err: &mut E,
) -> u8
    ensures { IsStatus result }
{
    let Ok(mut out) = BufWriter::new(alloc, WatchedOutput::new(out)) else {
        return print_no_memory("asn1x-view", err);
    };
    let status = perform(alloc, line, file_system, &mut out, err);
    let _ = out.flush();
    if !out.get_ref().has_failed() {
        return status;
    }
    Fault::CannotWrite.print("standard output", err);
    let least = Fault::CannotWrite.status();
    if status < least { least } else { status }
}

// Does what is asked, and returns the exit status.
fn perform<D: FileSystem, W: Write, E: Write>(
    alloc: Global,
    line: &Line,
    file_system: &D,
    out: &mut W,
    err: &mut E,
) -> u8
    ensures { IsStatus result }
{
    match &line.task {
        Task::Show(reading, form) => show(alloc, file_system, reading, *form, out, err),
        Task::Types { module, name } => {
            let name = name.as_ref().map(|name| name.as_str());
            show_types(alloc, file_system, module.as_str(), name, out, err)
        }
        Task::Module(path) => show_faults(alloc, file_system, path.as_str(), out, err),
        Task::Refusal(number) => show_pages(*number, out, err),
        Task::Cut {
            input,
            least,
            prefix,
        } => cut(
            alloc,
            file_system,
            input.as_str(),
            *least,
            prefix.as_str(),
            err,
        ),
    }
}

// Prints the values of files.
fn show<D: FileSystem, W: Write, E: Write>(
    alloc: Global,
    file_system: &D,
    reading: &Reading,
    form: Form,
    out: &mut W,
    err: &mut E,
) -> u8
    ensures { IsStatus result }
{
    let (module, name) = (reading.module.as_str(), reading.name.as_str());
    match type_of(alloc, file_system, module, name, err) {
        Ok(ty) => show_values(alloc, file_system, &ty, reading, form, out, err),
        Err(status) => status,
    }
}

// The columns are made once, for all files.
fn show_values<D: FileSystem, W: Write, E: Write>(
    alloc: Global,
    file_system: &D,
    ty: &WellTyped,
    reading: &Reading,
    form: Form,
    out: &mut W,
    err: &mut E,
) -> u8
    ensures { IsStatus result }
{
    let Ok(columns) = columns_of(alloc, form) else {
        return print_no_memory("asn1x-view", err);
    };
    Showing {
        alloc,
        file_system,
        ty,
        reading,
        form,
        columns,
    }
    .show_all(out, err)
}

// The texts of columns that the lines of a form are made of.
fn columns_of(alloc: Global, form: Form) -> Result<Columns, NoMemory> {
    match form {
        Form::Octets(wanted) if !wanted.only_refused => Columns::new(alloc),
        Form::Octets(_) | Form::Json { .. } => Ok(Columns::none(alloc)),
    }
}
