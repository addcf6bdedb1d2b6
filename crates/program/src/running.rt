//! The program once its files are open.

ghost use Rattle.std.specs.Prelude.{◌≡◌, ◌↔◌, ◌⊎◌, IsSome, IfSome, IfNone, IfOk, IfErr, take};
ghost use Rattle.types.specs.Shape.{Shape};
ghost use Rattle.types.specs.View.{ty_view};
ghost use Rattle.types.specs.WellFormed.{IsWellFormed};
ghost use Rattle.engine.specs.Rule.{rule_of};
ghost use Rattle.program.specs.Fault.{fault_status, IsFaultOfInput};
ghost use Rattle.program.specs.Line.{IsBuiltIn, CanRun, CanType, HasLineType, IsFaultOfType, IsLineType, IsStatus, IsStatusOfInput, IsTask};
ghost use Rattle.program.specs.Run.{IsInputDone, IsInputStopped, IsRun, IsStoppedRun, IsTaskOf};

use crate::fault::{Fault, print_fault};
use crate::tasks::{Task, perform};
use crate::{Line, Verb};
use convert::{MAX_HEX_TEXT, type_from, unhex};
use devices::{FromReader, FromSlice};
use std::alloc::Global;
use std::io::{ErrorKind, Read, Write};
use types::{Refusal, Ty, WellTyped};

/// Runs a command line over its open files and returns the exit status: what is done goes to `out`,
/// one line for a fault to `err`. `module` is the octets of the module's file; of `@builtin` it has none.
pub fn run<R: Read, W: Write, E: Write>(
    alloc: Global,
    line: &Line,
    module: &[u8],
    input: &mut R,
    out: &mut W,
    err: &mut E,
) -> u8
    ensures status { IsStatus result }
    ensures usage { (result ≡ 64) ↔ (¬ CanRun line.now) }
    ensures named { IsStatusOfInput result → HasLineType line.now «module».now }
    ensures refused { (result ≡ 2) → ¬ HasLineType line.now «module».now }
    ensures done { (result ≡ 0) → IsRun line.now «module».now (R.remaining input.old) (W.contents out.old) (W.contents out.new) }
    ensures stopped { (result ≡ 1) → IsStoppedRun 1 line.now «module».now (R.remaining input.old) (W.contents out.old) (W.contents out.new) }
    ensures failed { (result ≡ 3) ⊎ (result ≡ 4) → (W.contents out.new ≡ W.contents out.old)
        ⊎ IsStoppedRun result line.now «module».now (R.remaining input.old) (W.contents out.old) (W.contents out.new) }
    ensures kept { (result ≡ 1) ⊎ (result ≡ 4) → line.now.verb ≡ Verb.Check → W.contents out.new ≡ W.contents out.old }
    ensures quiet { (result ≡ 2) ⊎ (result ≡ 64) → W.contents out.new ≡ W.contents out.old }
{
    let Some(task) = task_of(line) else {
        return 64;
    };
    let ty = match type_of(alloc, line, module) {
        Ok(ty) => ty,
        Err(fault) => return print_fault(alloc, &fault, err),
    };
    match run_over(alloc, &ty, line, task, input, out) {
        Ok(()) => 0,
        Err(fault) => print_fault(alloc, &fault, err),
    }
}

// What the line asks for, where a line to convert names the rule to write by.
fn task_of(line: &Line) -> Option<Task>
    ensures value { IfSome result (IsTaskOf line.now) }
    ensures exact { IsSome result ↔ IsTask line.now }
{
    match line.verb {
        Verb::Show => Some(Task::Show),
        Verb::Check => Some(Task::Check),
        Verb::Convert => line.to.map(Task::Convert),
    }
}

// The type that the line names.
fn type_of<'a>(alloc: Global, line: &Line, module: &[u8]) -> Result<WellTyped, Fault<'a>>
    ensures value { IfOk result (λ ty. IsLineType line.now «module».now (ty_view ty)) }
    ensures named { IfOk result (λ _. CanType line.now) }
    ensures fault { IfErr result (λ fault. IsFaultOfType line.now (fault_status fault)) }
    ensures refused { IfErr result (λ fault. fault_status fault ≡ 2 → ¬ HasLineType line.now «module».now) }
{
    let name = line.name.as_str();
    if line.module.as_str() == "@builtin" {
        return match built_in(name) {
            Some(ty) => Ok(ty),
            None => Err(Fault::NoSuchType),
        };
    }
    match type_from(alloc, module, name) {
        Ok(ty) => Ok(ty),
        Err(fault) => Err(Fault::Module(fault)),
    }
}

// The built-in type of a name, with its universal tag.
fn built_in(name: &str) -> Option<WellTyped>
    ensures value { IfSome result (λ ty. IsBuiltIn name.now (ty_view ty)) }
    ensures well_formed { IfSome result (λ ty. IsWellFormed (ty_view ty)) }
    ensures none { IfNone result ((shape : Shape) → ¬ IsBuiltIn name.now shape) }
{
    let ty = match name {
        "BOOLEAN" => Ty::boolean(),
        "INTEGER" => Ty::integer(),
        "OCTET STRING" => Ty::octets(),
        "NULL" => Ty::null(),
        _ => return None,
    };
    WellTyped::new(ty).ok()
}

// Does what the line asks for over the values of its input.
fn run_over<'a, R: Read, W: Write>(
    alloc: Global,
    ty: &WellTyped,
    line: &'a Line,
    task: Task,
    input: &mut R,
    out: &mut W,
) -> Result<(), Fault<'a>>
    ensures done { IfOk result (λ _. IsInputDone line.now.hex task (rule_of line.now.from) (ty_view ty.now) (R.remaining input.old) (W.contents out.old) (W.contents out.new)) }
    ensures stopped { IfErr result (λ fault. ((¬ (fault_status fault ≡ 1)) × (W.contents out.new ≡ W.contents out.old)) ⊎
        IsInputStopped (fault_status fault) line.now.hex task (rule_of line.now.from) (ty_view ty.now) (R.remaining input.old) (W.contents out.old) (W.contents out.new)) }
    ensures kept { IfErr result (λ fault. ¬ (fault_status fault ≡ 3) → task ≡ Task.Check → W.contents out.new ≡ W.contents out.old) }
    ensures status { IfErr result IsFaultOfInput }
{
    if !line.hex {
        return perform(alloc, ty, line, task, &mut FromReader::new(input), out);
    }
    let text = read_text(alloc, line.input.as_str(), input)?;
    let octets = unhex(alloc, text.as_slice())?;
    let mut source = FromSlice::new(octets.as_slice());
    perform(alloc, ty, line, task, &mut source, out)
}

// The whole of a file of text, or so much of it that it is seen to be too long.
fn read_text<'a, R: Read>(alloc: Global, path: &'a str, input: &mut R) -> Result<Vec<u8>, Fault<'a>>
    ensures text { IfOk result (λ text. IfSome (R.remaining input.old) (λ left. text.items ≡ take 4_194_305 left)) }
    ensures status { IfErr result IsFaultOfInput }
    ensures kind { IfErr result (λ fault. ¬ (fault_status fault ≡ 1)) }
{
    let mut text = Vec::new(alloc);
    match input.take(MAX_HEX_TEXT as u64 + 1).read_to_end(&mut text) {
        Ok(_) => Ok(text),
        Err(error) if error.kind() == ErrorKind::OutOfMemory => {
            Err(Fault::from(Refusal::NoMemory))
        }
        Err(_) => Err(Fault::CannotRead(path)),
    }
}
