//! The program `asn1x-view`: opens files. All else is `view`'s.
#![tactic(auto)]

use command_words::status;
use std::fs::{self, File};
use std::io::{self, Read, Stdin};
use std::process::ExitCode;
use view::{FileSystem, Line, run};

fn main(rt: HostRuntime) -> ExitCode {
    ExitCode::from(status(&rt, |line: &Line| run_line(&rt, line)))
}

// Runs a command line over the files of the process.
fn run_line(rt: &HostRuntime, line: &Line) -> u8 {
    run(
        rt.alloc(),
        line,
        &Process(rt),
        rt.stdout(),
        &mut rt.stderr(),
    )
}

// The files of the process.
#[derive(Drop)]
struct Process<'a>(&'a HostRuntime);

// A file, or the standard input.
#[derive(Drop)]
enum Input {
    File(File),
    Standard(Stdin),
}

impl Read for Input {
    fn read(&mut self, room: &mut [u8]) -> io::Result<usize> {
        match self {
            Input::File(file) => file.read(room),
            Input::Standard(standard) => standard.read(room),
        }
    }
}

impl FileSystem for Process<'_> {
    type Input = Input;

    type Output = File;

    fn open(&self, path: &str) -> io::Result<Input> {
        if path == "-" {
            return Ok(Input::Standard(self.0.stdin()));
        }
        Ok(Input::File(File::open(self.0, path)?))
    }

    fn create(&self, path: &str) -> io::Result<File> {
        fs::create(self.0, path)
    }
}
