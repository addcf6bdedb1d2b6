//! Heads: identifier and length octets, or end-of-contents octets.

ghost use Rattle.cutting.specs.Heads.{AnswersHead, IsReadEnd, IsReadUsable};

use crate::found::{Found, Opened};
use octets::{Head, Length, Tag, read_identifier, read_length};
use types::Refusal;

// The head at the front; None where it is cut.
pub(crate) fn head_of(octets: &[u8]) -> Result<Option<Found>, Refusal>
    ensures { AnswersHead octets.now result }
{
    match read_identifier(octets) {
        Head::Done {
            tag,
            constructed,
            used,
        } => {
            if tag == Tag::universal(0) {
                end_behind(octets, constructed, used)
            } else {
                opened_behind(octets, constructed, used)
            }
        }
        Head::More => Ok(None),
        Head::Bad => Err(Refusal::Identifier),
    }
}

// The end-of-contents octets, which are 00 00 (X.690 8.1.5), by what stands behind the identifier octets.
fn end_behind(octets: &[u8], constructed: bool, at: usize) -> Result<Option<Found>, Refusal>
    requires { IsReadEnd octets.now constructed at }
    ensures { AnswersHead octets.now result }
{
    if constructed {
        return Err(Refusal::EndOfContents);
    }
    match octets.get(at) {
        Some(0) => Ok(Some(Found {
            opened: Opened::End,
            used: at + 1,
        })),
        Some(_) => Err(Refusal::EndOfContents),
        None => Ok(None),
    }
}

// The head of an encoding, by the length octets behind its identifier octets.
fn opened_behind(octets: &[u8], constructed: bool, at: usize) -> Result<Option<Found>, Refusal>
    requires { IsReadUsable octets.now constructed at }
    ensures { AnswersHead octets.now result }
{
    match read_length(&octets[at..]) {
        Length::Definite { octets: size, used } => Ok(Some(Found {
            opened: Opened::Definite(size),
            used: at + used,
        })),
        Length::Indefinite { used } if constructed => Ok(Some(Found {
            opened: Opened::Indefinite,
            used: at + used,
        })),
        Length::Indefinite { .. } => Err(Refusal::Form),
        Length::More => Ok(None),
        Length::Bad => Err(Refusal::Length),
    }
}
