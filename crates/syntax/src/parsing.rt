//! Module texts, from octets to trees.

ghost use Rattle.std.specs.Prelude.{◌≡◌, ◌≢◌, ◌⊎◌, IfOk, IfErr, map};
ghost use Rattle.syntax.specs.Tree.{Tree};
ghost use Rattle.syntax.specs.View.{tree};
ghost use Rattle.syntax.specs.Grammar.{IsSpelling};
ghost use Rattle.syntax.specs.Limits.{FitsTree};
ghost use Rattle.syntax.specs.Reading.{IsRefusal, terminal_sign};
ghost use Rattle.syntax.specs.ModuleText.{IsModuleText, IsModuleFault};

use crate::modules::module_at;
use crate::refusing::{Wanted, refuse};
use crate::stop::{Cause, Stop};
use crate::terminal::Terminal;
use crate::terminals::terminals;
use crate::tree::Module;
use lexis::{Fault, fault_at, tokens};
use std::alloc::Global;

/// The module that the text spells. A lexical fault is named before a fault of the grammar; of each kind
/// the first from the left.
pub fn parse(alloc: Global, text: &str) -> Result<Module, Fault>
    ensures value { IfOk result (λ parsed. IsModuleText text.now (tree parsed)) }
    ensures only { IfOk result (λ parsed. (other : Tree) → IsModuleText text.now other → other ≡ tree parsed) }
    ensures refused { IfErr result (λ fault. fault.number ≢ 33 → (other : Tree) → ¬ IsModuleText text.now other) }
    ensures numbers { IfErr result IsModuleFault }
{
    let found = tokens(alloc, text)?;
    let terminals = terminals(alloc, text, &found)?;
    match module_of(alloc, &terminals) {
        Ok(module) => Ok(module),
        Err(stop) => Err(fault_of(text, &terminals, stop)),
    }
}

/// The module that the terminals spell.
fn module_of(alloc: Global, terminals: &[Terminal]) -> Result<Module, Stop>
    ensures value { IfOk result (λ parsed. IsSpelling (tree parsed) (map terminal_sign terminals.now) × FitsTree (tree parsed)) }
    ensures only { IfOk result (λ parsed. (other : Tree) → IsSpelling other (map terminal_sign terminals.now) → FitsTree other → other ≡ tree parsed) }
    ensures refused { IfErr result (λ stop. IsRefusal stop → (other : Tree) → IsSpelling other (map terminal_sign terminals.now) → ¬ FitsTree other) }
{
    let (module, next) = module_at(alloc, terminals)?;
    if next < terminals.len() {
        return Err(refuse(terminals, next, Wanted::Other));
    }
    Ok(module)
}

/// The fault with which the text of these terminals is refused.
fn fault_of(text: &str, terminals: &[Terminal], stop: Stop) -> Fault
    ensures refused { result.number ≢ 33 → IsRefusal stop }
    ensures numbers { IsModuleFault result }
{
    match stop {
        Stop::NoMemory => fault_at(33, text, 0),
        Stop::Refused(cause, at) => {
            let number = number_of(cause);
            match terminals.get(at) {
                Some(terminal) => Fault {
                    number,
                    line: terminal.line,
                    column: terminal.column,
                },
                None => fault_at(number, text, text.len()),
            }
        }
    }
}

fn number_of(cause: Cause) -> u32
    ensures { (result ≡ 22) ⊎ (result ≡ 23) ⊎ (result ≡ 31) ⊎ (result ≡ 32) }
{
    match cause {
        Cause::Syntax => 22,
        Cause::Reserved => 23,
        Cause::TooLarge => 31,
        Cause::NotInProfile => 32,
    }
}
