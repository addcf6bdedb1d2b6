//! What the program does with a source of values.

ghost use Rattle.std.specs.Prelude.{◌≡◌, OnOk, IfOk, IfErr, true, false};
ghost use Rattle.std.specs.Io.KnownBytes.{Appends};
ghost use Rattle.types.specs.View.{ty_view};
ghost use Rattle.engine.specs.Rule.{rule_of};
ghost use Rattle.program.specs.Fault.{fault_status, IsFaultOfInput};
ghost use Rattle.program.specs.Task.{IsDone, IsTaskFault, IsTaskStopped, HasPerformed, count_line, writing};

use crate::Line;
use crate::fault::Fault;
use crate::hex_sink::HexSink;
use crate::output::Output;
use convert::{Canonical, Rule, Stopped, check, convert, list};
use devices::{Sink, Source, ToWriter};
use std::alloc::Global;
use std::io::Write;
use types::{Refusal, WellTyped};

/// What is done with values.
#[derive(Clone, Copy, Debug)]
pub enum Task {
    /// The text of each is written.
    Show,
    /// They are counted.
    Check,
    /// Their encodings by a rule are written.
    Convert(Canonical),
}

/// Does a task with the values of a source, and prints what comes of it.
pub fn perform<'a, S: Source, W: Write>(
    alloc: Global,
    ty: &WellTyped,
    line: &Line,
    task: Task,
    source: &mut S,
    out: &mut W,
) -> Result<(), Fault<'a>>
    requires { S.failures source.old ≡ 0 }
    ensures done { IfOk result (λ _. IsDone task line.now.hex (rule_of line.now.from) (ty_view ty.now) (S.left source.old) (W.contents out.old) (W.contents out.new)) }
    ensures stopped { IfErr result (IsTaskFault task line.now.hex (rule_of line.now.from) (ty_view ty.now) (S.left source.old) (W.contents out.old) (W.contents out.new)) }
    ensures kept { IfErr result (λ fault. ¬ (fault_status fault ≡ 3) → task ≡ Task.Check → W.contents out.new ≡ W.contents out.old) }
    ensures status { IfErr result IsFaultOfInput }
{
    match task {
        Task::Show => write_values(alloc, ty, line.from, None, source, out),
        Task::Check => {
            let count = check(alloc, ty, line.from, source)?;
            print_count(alloc, count, out)
        }
        Task::Convert(to) if line.hex => convert_to_text(alloc, ty, line.from, to, source, out),
        Task::Convert(to) => write_values(alloc, ty, line.from, Some(to), source, out),
    }
}

// Writes what stands for each value: its encoding by the rule `to` or, without one, a line of its text.
fn write_values<'a, S: Source, W: Write>(
    alloc: Global,
    ty: &WellTyped,
    from: Rule,
    to: Option<Canonical>,
    source: &mut S,
    out: &mut W,
) -> Result<(), Fault<'a>>
    requires { S.failures source.old ≡ 0 }
    ensures { HasPerformed (writing to) false (rule_of from) (ty_view ty.now) (S.left source.old) (W.contents out.old) (W.contents out.new) result }
{
    let mut sink = ToWriter::new(Output { writer: out });
    let result = write_to(alloc, ty, from, to, source, &mut sink);
    let out = sink.into_inner().writer;
    // No effect at run time: the proof reads what the writer holds from this use of it.
    let _ = &*out;
    result?;
    Ok(())
}

// Writes what stands for each value to a sink.
fn write_to<S: Source, K: Sink>(
    alloc: Global,
    ty: &WellTyped,
    from: Rule,
    to: Option<Canonical>,
    source: &mut S,
    sink: &mut K,
) -> Result<u64, Stopped>
    requires source { S.failures source.old ≡ 0 }
    requires sink { K.failures sink.old ≡ 0 }
    ensures done { IfOk result (λ _. IsDone (writing to) false (rule_of from) (ty_view ty.now) (S.left source.old) (K.taken sink.old) (K.taken sink.new)) }
    ensures stopped { IfErr result (λ stopped. IsTaskStopped (writing to) false (rule_of from) (ty_view ty.now) stopped.done stopped.refusal (S.left source.old) (K.taken sink.old) (K.taken sink.new)) }
{
    match to {
        Some(to) => convert(alloc, ty, from, to, source, sink),
        None => list(alloc, ty, from, source, sink),
    }
}

// Prints how many values there were: a line that is written at once, unless memory runs out.
fn print_count<'a, W: Write>(alloc: Global, count: u64, out: &mut W) -> Result<(), Fault<'a>>
    ensures written { OnOk result (Appends (W.contents out.old) (W.contents out.new) (count_line count)) }
    ensures stopped { IfErr result (λ fault. fault ≡ Fault.Refused Refusal.SinkFault count) }
    ensures status { IfErr result IsFaultOfInput }
{
    let written = match format!(in alloc; "ok {count}\n") {
        Ok(line) => out.write_all(line.as_bytes()),
        Err(_) => writeln!(out, "ok {count}"),
    };
    match written {
        Ok(()) => Ok(()),
        Err(_) => Err(not_printed(count)),
    }
}

// Prints the encodings of values as hexadecimal text and, if there are any, a line feed.
fn convert_to_text<'a, S: Source, W: Write>(
    alloc: Global,
    ty: &WellTyped,
    from: Rule,
    to: Canonical,
    source: &mut S,
    out: &mut W,
) -> Result<(), Fault<'a>>
    requires { S.failures source.old ≡ 0 }
    ensures { HasPerformed (Task.Convert to) true (rule_of from) (ty_view ty.now) (S.left source.old) (W.contents out.old) (W.contents out.new) result }
{
    let mut sink = HexSink::new(out);
    let result = convert(alloc, ty, from, to, source, &mut sink);
    let out = sink.into_inner();
    match result {
        Ok(count) => end_text(count, out),
        Err(stopped) => {
            if stopped.refusal != Refusal::SinkFault {
                end_text(stopped.done, out)?;
            }
            Err(Fault::from(stopped))
        }
    }
}

// Prints the line feed behind the text of so many values.
fn end_text<'a, W: Write>(count: u64, out: &mut W) -> Result<(), Fault<'a>>
    ensures stopped { IfErr result (λ fault. fault ≡ Fault.Refused Refusal.SinkFault count) }
    ensures status { IfErr result IsFaultOfInput }
{
    if count == 0 {
        return Ok(());
    }
    match out.write_all(b"\n") {
        Ok(()) => Ok(()),
        Err(_) => Err(not_printed(count)),
    }
}

// That what was to be printed behind so many values was not.
fn not_printed<'a>(done: u64) -> Fault<'a>
    ensures { result ≡ Fault.Refused Refusal.SinkFault done }
{
    let refusal = Refusal::SinkFault;
    Fault::Refused { refusal, done }
}
