//! The program `asn1x`: reads its module and opens its input. All else is `program`'s.
#![tactic(auto)]

use command_words::status;
use convert::read_module;
use program::{Line, cannot_open, cannot_read_module, cannot_share_input, run};
use std::fs::File;
use std::io::{self, Read};
use std::process::ExitCode;

fn main(rt: HostRuntime) -> ExitCode {
    ExitCode::from(status(&rt, |line: &Line| run_line(&rt, line)))
}

// Reads the module's file, opens the input and runs a command line over them. The path `-` is the standard input.
fn run_line(rt: &HostRuntime, line: &Line) -> u8 {
    let mut err = rt.stderr();
    if line.module.as_str() == "-" && line.input.as_str() == "-" {
        return cannot_share_input(rt.alloc(), &mut err);
    }
    match module_octets(rt, line.module.as_str()) {
        Ok(module) => open_input(rt, line, module.as_slice()),
        Err(error) => cannot_read_module(rt.alloc(), line.module.as_str(), &error, &mut err),
    }
}

// The octets of a module's file, of which `@builtin` has none.
fn module_octets(rt: &HostRuntime, path: &str) -> io::Result<Vec<u8>> {
    if path == "@builtin" {
        return Ok(Vec::new(rt.alloc()));
    }
    if path == "-" {
        return read_module(rt.alloc(), &mut rt.stdin());
    }
    read_module(rt.alloc(), &mut File::open(rt, path)?)
}

// Opens the input and runs a command line over it.
fn open_input(rt: &HostRuntime, line: &Line, module: &[u8]) -> u8 {
    let path = line.input.as_str();
    if path == "-" {
        return run_from(rt, line, module, &mut rt.stdin());
    }
    match File::open(rt, path) {
        Ok(mut input) => run_from(rt, line, module, &mut input),
        Err(_) => cannot_open(rt.alloc(), path, &mut rt.stderr()),
    }
}

// Runs a command line over an open input.
fn run_from<R: Read>(rt: &HostRuntime, line: &Line, module: &[u8], input: &mut R) -> u8 {
    run(
        rt.alloc(),
        line,
        module,
        input,
        &mut rt.stdout(),
        &mut rt.stderr(),
    )
}
