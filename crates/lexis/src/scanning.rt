//! The tokens of a text, from left to right.

ghost use Rattle.std.specs.Prelude.{◌≡◌, ◌≢◌, ◌≤◌, List, All, length, IfOk, IfErr, ◌⊎◌};
ghost use Rattle.lexis.specs.declared.token.Token.{Token};
ghost use Rattle.lexis.specs.Fronts.{AnswersNext, HasNoNext};
ghost use Rattle.lexis.specs.Tokens.{IsTokens, IsSpan, IsTextFault};

use crate::front::token_in_front;
use crate::gap::gap;
use crate::{Fault, MAX_TEXT, Token, fault_at};
use std::alloc::Global;

/// The tokens of a module's text, in order. Of several faults the first from the left is named.
pub fn tokens(alloc: Global, text: &str) -> Result<Vec<Token>, Fault>
    ensures lexed { IfOk result (λ found. IsTokens text.now found.items) }
    ensures only { IfOk result (λ found.
        (others : List Token) → IsTokens text.now others → others ≡ found.items) }
    ensures spans { IfOk result (λ found. All (IsSpan text.now) found.items) }
    ensures refused { IfErr result (λ fault.
        fault.number ≢ 33 → (others : List Token) → ¬ IsTokens text.now others) }
    ensures numbers { IfErr result IsTextFault }
{
    if text.len() > MAX_TEXT {
        return Err(fault_at(31, text, 0));
    }
    let mut found = Vec::new(alloc);
    let mut at = 0;
    'next: loop {
        match next_token(text, at) {
            Ok(Some(token)) => {
                at = token.end;
                found.push(token)?;
            }
            Ok(None) => return Ok(found),
            Err(fault) => return Err(fault),
        }
    }
}

// The token that stands next behind the first `at` octets of the text. None: no more stands there than a
// gap.
fn next_token(text: &str, at: usize) -> Result<Option<Token>, Fault>
    requires { at ≤ length text.now }
    ensures found { IfOk result (AnswersNext text.now at) }
    ensures refused { IfErr result (λ _. HasNoNext text.now at) }
    ensures numbers { IfErr result (λ fault. (fault.number ≡ 21) ⊎ (fault.number ≡ 31)) }
{
    let octets = text.as_bytes();
    let start = at + gap(&octets[at..]);
    if start == octets.len() {
        return Ok(None);
    }
    match token_in_front(&octets[start..]) {
        Ok((kind, used)) => Ok(Some(Token {
            kind,
            start,
            end: start + used,
        })),
        Err(refused) => Err(fault_at(refused.fault_number(), text, start)),
    }
}
