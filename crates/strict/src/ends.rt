//! Where the contents octets of a constructed encoding end.

ghost use Rattle.std.specs.Prelude.{◌⊎◌, IfOk, IfErr};
ghost use Rattle.encoding_parts.specs.Segments.{BeginsAboveZero};
ghost use Rattle.strict.specs.Bars.{RefusesStrictly};
ghost use Rattle.strict.specs.Head.{EndsHere, IsEndKnown, AreFewer};

use types::Refusal;

// Whether the contents octets end here, with room for so many more.
#[inline(always)]
pub fn ends(definite: bool, room: usize, octets: &[u8]) -> Result<bool, Refusal>
    ensures value { IfOk result (λ ended. IsEndKnown ended definite room octets.now) }
    ensures refused { IfErr result (RefusesStrictly (λ o. EndsHere definite room o ⊎ BeginsAboveZero o) (AreFewer definite room) octets.now) }
{
    if definite {
        return Ok(room == 0);
    }
    let Some((&first, others)) = octets.split_first() else {
        return Err(Refusal::Truncated);
    };
    if first != 0 {
        return Ok(false);
    }
    match others.first() {
        Some(0) => Ok(true),
        Some(_) => Err(Refusal::EndOfContents),
        None => Err(Refusal::Truncated),
    }
}
