//! The type that a name of a module's file means.

ghost use Rattle.std.specs.Prelude.{IfErr};
ghost use Rattle.view_faults.specs.Status.{IsStatus};

use crate::FileSystem;
use crate::assigned_lines::nearest;
use convert::read_module;
use lexis::MAX_TEXT;
use notation::{Fault, Module, parse, resolve};
use simdutf8::basic::from_utf8;
use std::alloc::Global;
use std::io::Write;
use types::WellTyped;
use view_faults::{NoType, print_no_type};

/// The type that the name means in the module of the file, or of `@builtin`; else the exit status, once it is printed
/// why there is none.
pub fn type_of<D: FileSystem, E: Write>(
    alloc: Global,
    file_system: &D,
    path: &str,
    name: &str,
    err: &mut E,
) -> Result<WellTyped, u8>
    ensures { IfErr result IsStatus }
{
    if path == "@builtin" {
        return match built_in(alloc, name) {
            Ok(ty) => Ok(ty),
            Err(why) => Err(print_no_type(path, name, &why, err)),
        };
    }
    match module_in(alloc, file_system, path, err) {
        Ok(module) => resolved(alloc, &module, path, name, err),
        Err(status) => Err(status),
    }
}

/// The module of the file; else the exit status, once it is printed why there is none.
pub fn module_in<D: FileSystem, E: Write>(
    alloc: Global,
    file_system: &D,
    path: &str,
    err: &mut E,
) -> Result<Module, u8>
    ensures { IfErr result IsStatus }
{
    let why = match module_octets(alloc, file_system, path) {
        Ok(octets) => match module_of(alloc, octets.as_slice()) {
            Ok(module) => return Ok(module),
            Err(fault) => NoType::Module(fault),
        },
        Err(why) => why,
    };
    Err(print_no_type(path, "", &why, err))
}

/// The octets of a module's file.
pub fn module_octets<D: FileSystem>(
    alloc: Global,
    file_system: &D,
    path: &str,
) -> Result<Vec<u8>, NoType> {
    let read = match file_system.open(path) {
        Ok(mut file) => read_module(alloc, &mut file),
        Err(error) => Err(error),
    };
    match read {
        Ok(octets) => Ok(octets),
        Err(error) => Err(NoType::CannotRead(error)),
    }
}

// The module in these octets. The limit is judged before the characters.
fn module_of(alloc: Global, octets: &[u8]) -> Result<Module, Fault> {
    if octets.len() > MAX_TEXT {
        return Err(at_front(31));
    }
    match from_utf8(octets) {
        Ok(text) => parse(alloc, text),
        Err(_) => Err(at_front(21)),
    }
}

// A fault of the file as a whole has no place of its own, and stands at 1:1.
fn at_front(number: u32) -> Fault {
    let line = 1;
    let column = 1;
    Fault {
        number,
        line,
        column,
    }
}

/// The type that the name means in the module; else the exit status, once it is printed why there is none.
pub fn resolved<E: Write>(
    alloc: Global,
    module: &Module,
    path: &str,
    name: &str,
    err: &mut E,
) -> Result<WellTyped, u8>
    ensures { IfErr result IsStatus }
{
    match resolve(alloc, module, name) {
        Ok(ty) => Ok(ty),
        Err(fault) => {
            let why = why_refused(alloc, module, name, fault);
            Err(print_no_type(path, name_at(module, fault, name), &why, err))
        }
    }
}

// The name at whose assignment the fault stands, which may be another than the one that was asked for; of a fault at
// 1:1, where none stands, the latter.
fn name_at<'a>(module: &'a Module, fault: Fault, asked: &'a str) -> &'a str {
    for assignment in &module.assignments {
        if assignment.line == fault.line && assignment.column == fault.column {
            return assignment.name.as_str();
        }
    }
    asked
}

// What is told of a name that is refused with the fault.
fn why_refused(alloc: Global, module: &Module, name: &str, fault: Fault) -> NoType {
    if fault.number != 24 || is_assigned(module, name) {
        return NoType::Module(fault);
    }
    match nearest(alloc, module.assignments.as_slice(), name) {
        Ok(names) => NoType::NotAssigned(fault, names),
        Err(_) => NoType::Module(fault),
    }
}

fn is_assigned(module: &Module, name: &str) -> bool {
    module
        .assignments
        .iter()
        .any(|assignment| assignment.name.as_str() == name)
}

// The built-in type of a name, as a module has it.
fn built_in(alloc: Global, name: &str) -> Result<WellTyped, NoType> {
    let text = match name {
        "BOOLEAN" => "M DEFINITIONS ::= BEGIN T ::= BOOLEAN END",
        "INTEGER" => "M DEFINITIONS ::= BEGIN T ::= INTEGER END",
        "NULL" => "M DEFINITIONS ::= BEGIN T ::= NULL END",
        "OCTET STRING" => "M DEFINITIONS ::= BEGIN T ::= OCTET STRING END",
        _ => return Err(NoType::NotBuiltIn),
    };
    let module = match parse(alloc, text) {
        Ok(module) => module,
        Err(fault) => return Err(NoType::Module(fault)),
    };
    match resolve(alloc, &module, "T") {
        Ok(ty) => Ok(ty),
        Err(fault) => Err(NoType::Module(fault)),
    }
}
