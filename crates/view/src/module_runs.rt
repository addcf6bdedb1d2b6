//! `types` and `module`.

ghost use Rattle.std.specs.Prelude.{IfOk};
ghost use Rattle.view_faults.specs.Status.{IsStatus};

use crate::FileSystem;
use crate::assigned_lines::put_names;
use crate::module_faults::put_faults;
use crate::module_type::{module_in, module_octets, resolved};
use crate::type_lines::put_type;
use notation::Module;
use octets::NoMemory;
use std::alloc::Global;
use std::io::Write;
use std::string::String;
use types::Ty;
use view_faults::{print_no_memory, print_no_type};

/// Prints the names of a module, or the type that one of them means, and returns the exit status.
pub fn show_types<D: FileSystem, W: Write, E: Write>(
    alloc: Global,
    file_system: &D,
    path: &str,
    name: Option<&str>,
    out: &mut W,
    err: &mut E,
) -> u8
    ensures { IsStatus result }
{
    match module_in(alloc, file_system, path, err) {
        Ok(module) => show_types_of(alloc, &module, path, name, out, err),
        Err(status) => status,
    }
}

// The lines are gathered first: where memory runs out, none is printed.
fn show_types_of<W: Write, E: Write>(
    alloc: Global,
    module: &Module,
    path: &str,
    name: Option<&str>,
    out: &mut W,
    err: &mut E,
) -> u8
    ensures { IsStatus result }
{
    let mut text = String::new(alloc);
    let status = match name {
        Some(name) => match put_resolved(alloc, module, path, name, &mut text, err) {
            Ok(status) => status,
            Err(_) => return print_no_memory(path, err),
        },
        None => match put_names(module.assignments.as_slice(), &mut text) {
            Ok(()) => 0,
            Err(_) => return print_no_memory(path, err),
        },
    };
    let _ = out.write_all(text.as_bytes());
    status
}

// Appends the type that a name means, or prints why it has none. Returns the exit status.
fn put_resolved<E: Write>(
    alloc: Global,
    module: &Module,
    path: &str,
    name: &str,
    text: &mut String,
    err: &mut E,
) -> Result<u8, NoMemory>
    ensures { IfOk result IsStatus }
{
    match resolved(alloc, module, path, name, err) {
        Ok(ty) => put_sized(alloc, ty.as_type(), name, text),
        Err(status) => Ok(status),
    }
}

// Appends the lines of a type, and how large it is. The exit status is that of success.
fn put_sized(alloc: Global, ty: &Ty, name: &str, text: &mut String) -> Result<u8, NoMemory>
    ensures { IfOk result IsStatus }
{
    let size = put_type(alloc, ty, name, "", 0, text)?;
    let (nodes, levels) = (size.nodes, size.levels);
    write!(text, "nodes: {nodes}, levels: {levels}\n")?;
    Ok(0)
}

/// Prints the faults of a module, and returns the exit status.
pub fn show_faults<D: FileSystem, W: Write, E: Write>(
    alloc: Global,
    file_system: &D,
    path: &str,
    out: &mut W,
    err: &mut E,
) -> u8
    ensures { IsStatus result }
{
    let octets = match module_octets(alloc, file_system, path) {
        Ok(octets) => octets,
        Err(fault) => return print_no_type(path, "", &fault, err),
    };
    let mut text = String::new(alloc);
    let Ok(count) = put_faults(alloc, path, octets.as_slice(), &mut text) else {
        return print_no_memory(path, err);
    };
    let _ = out.write_all(text.as_bytes());
    if count > 0 { 2 } else { 0 }
}
