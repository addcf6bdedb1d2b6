//! The program `asn1x-trim`: opens its files. All else is `trimmer`'s.
#![tactic(auto)]

use command_words::status;
use std::alloc::Global;
use std::fs::File;
use std::io;
use std::process::ExitCode;
use trimmer::{Files, Line, read_file, run};

/// The files of the system.
#[derive(Drop)]
struct Disk<'a> {
    rt: &'a HostRuntime,
}

impl Files for Disk<'_> {
    fn octets(&mut self, alloc: Global, path: &str) -> io::Result<Vec<u8>> {
        read_file(alloc, &mut File::open(self.rt, path)?)
    }
}

fn main(rt: HostRuntime) -> ExitCode {
    ExitCode::from(status(&rt, |line: &Line| run_line(&rt, line)))
}

// Runs a command line over the files of the system.
fn run_line(rt: &HostRuntime, line: &Line) -> u8 {
    let mut disk = Disk { rt };
    run(
        rt.alloc(),
        line,
        &mut disk,
        &mut rt.stdout(),
        &mut rt.stderr(),
    )
}
