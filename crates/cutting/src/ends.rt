//! Where encodings end, by their heads alone.

ghost use Rattle.std.specs.Prelude.{◌≡◌, ◌≤◌, ◌<◌, ◌+◌, ◌^◌, IfOk, IfErr, take};
ghost use Rattle.octets.specs.Front.{HasFront};
ghost use Rattle.types.specs.declared.refusal.Refusal.TheVariants.{StreamTooLong};
ghost use Rattle.cutting.specs.Heads.{IsSomeHead};

use crate::found::{Found, Opened};
use crate::head::head_of;
use types::Refusal;

// One octet more than a head has at most: five identifier octets, and 127 length octets.
const MORE_THAN_A_HEAD: usize = 133;

/// Finds the ends of encodings that come in pieces, one after another. Contents octets are not judged.
#[derive(Drop)]
pub struct Ends {
    // How many encodings of the indefinite form are open.
    open: u64,
    // How many contents octets are to be passed.
    left: usize,
    // How many octets have been passed, those of a head that is cut left out.
    passed: u64,
    // The octets of a head that the end of a piece has cut.
    head: [u8; MORE_THAN_A_HEAD],
    count: usize,
    ghost short: { count ≤ 132 },
    ghost cut: { ¬ HasFront IsSomeHead (take count head) },
    ghost alone: { 0 < left → count ≡ 0 },
    ghost nested: { «open» ≤ passed },
}

impl Ends {
    ghost use Rattle.std.specs.Prelude.{◌≢◌, ◌↔◌, length, IsTrue, IfSome, IfNone, unwrap_or};
    ghost use Rattle.cutting.specs.Inside.{IsBegun, came, Completes, GoesOn, EndsNever};
    ghost use Rattle.cutting.specs.Steps.{TakesHead, HasOpened, HasPassed};
    ghost use Rattle.cutting.specs.Refused.{IsOfHead};

    /// No octet has come.
    pub fn new() -> Ends
        ensures { (¬ IsBegun result) × (came result ≡ 0) }
    {
        Ends {
            open: 0,
            left: 0,
            passed: 0,
            head: [0; MORE_THAN_A_HEAD],
            count: 0,
        }
    }

    /// How many octets have been passed of all encodings. Those of a head that is cut, or refused, are not counted.
    pub fn passed(&self) -> u64
        ensures { result ≡ self.now.passed }
    {
        self.passed
    }

    /// Whether an encoding is begun.
    pub fn is_inside(&self) -> bool
        ensures { IsTrue result ↔ IsBegun self.now }
    {
        self.open > 0 || self.left > 0 || self.count > 0
    }

    /// Takes octets of a piece up to the end of the encoding, and returns how many they are; None where it goes on
    /// behind the piece. Refused where no encoding begins so, or where octets can no longer be counted.
    pub fn take(&mut self, piece: &[u8]) -> Result<Option<usize>, Refusal>
        ensures within { IfOk result (λ found. IfSome found (λ used. (0 < used) × (used ≤ length piece.now))) }
        ensures value { IfOk result (λ found. IfSome found (λ used. Completes self.old (take used piece.now))) }
        ensures ended { IfOk result (λ found. IfSome found (λ used. ¬ IsBegun self.new)) }
        ensures begun { IfOk result (λ found. IfNone found (GoesOn self.old self.new piece.now)) }
        ensures none { IfOk result (λ found. IfNone found (¬ HasFront (Completes self.old) piece.now)) }
        ensures inside { IfOk result (λ found. IfNone found (0 < length piece.now → IsBegun self.new)) }
        ensures counted { IfOk result (λ found. came self.new ≡ came self.old + unwrap_or found (length piece.now)) }
        ensures never { IfErr result (λ refusal. refusal ≢ StreamTooLong → EndsNever self.old piece.now) }
        ensures too_long { IfErr result (λ refusal. refusal ≡ StreamTooLong → 2 ^ 64 ≤ came self.old + length piece.now) }
        ensures numbers { IfErr result IsOfHead }
    {
        let mut at = 0;
        loop {
            match self.take_head(&piece[at..])? {
                Some(used) => at += used,
                None => return Ok(None),
            }
            at += self.pass(piece.len() - at)?;
            if self.left > 0 {
                return Ok(None);
            }
            if self.open == 0 {
                return Ok(Some(at));
            }
        }
    }

    // Passes contents octets, of which so many are there at most, and returns how many they are.
    fn pass(&mut self, there: usize) -> Result<usize, Refusal>
        ensures passed { IfOk result (HasPassed self.old self.new there) }
        ensures too_long { IfErr result (λ _. 2 ^ 64 ≤ self.old.passed + there) }
        ensures numbers { IfErr result (λ refusal. refusal ≡ StreamTooLong) }
    {
        let passed = self.left.min(there);
        self.passed = sum(self.passed, passed as u64)?;
        self.left -= passed;
        Ok(passed)
    }

    // Takes a head at the front, if no contents octets are due, and returns how many octets of it stand there; None
    // where it goes on behind them.
    fn take_head(&mut self, octets: &[u8]) -> Result<Option<usize>, Refusal>
        ensures { TakesHead self.old self.new octets.now result }
    {
        if self.left > 0 {
            return Ok(Some(0));
        }
        if self.count > 0 {
            return self.take_cut_head(octets);
        }
        match head_of(octets)? {
            Some(found) => {
                let used = found.used;
                self.open(found)?;
                Ok(Some(used))
            }
            None => self.take_cut_head(octets),
        }
    }

    // Takes octets of a head that is cut, one by one.
    fn take_cut_head(&mut self, octets: &[u8]) -> Result<Option<usize>, Refusal>
        requires { self.old.left ≡ 0 }
        ensures { TakesHead self.old self.new octets.now result }
    {
        for (place, octet) in octets.iter().enumerate() {
            self.head[self.count] = *octet;
            let count = self.count + 1;
            match head_of(&self.head[..count])? {
                Some(found) => {
                    self.count = 0;
                    self.open(Found {
                        opened: found.opened,
                        used: count,
                    })?;
                    return Ok(Some(place + 1));
                }
                None => self.count = count,
            }
        }
        Ok(None)
    }

    // Passes a head.
    fn open(&mut self, found: Found) -> Result<(), Refusal>
        requires { self.old.count ≡ 0 }
        ensures { HasOpened found self.old self.new result }
    {
        let passed = sum(self.passed, found.used as u64)?;
        match found.opened {
            Opened::Definite(contents) => self.left = contents,
            Opened::Indefinite => self.open += 1,
            Opened::End if self.open == 0 => return Err(Refusal::EndOfContents),
            Opened::End => self.open -= 1,
        }
        self.passed = passed;
        Ok(())
    }
}

fn sum(count: u64, more: u64) -> Result<u64, Refusal>
    ensures value { IfOk result (λ sum. sum ≡ count + more) }
    ensures too_long { IfErr result (λ _. 2 ^ 64 ≤ count + more) }
    ensures numbers { IfErr result (λ refusal. refusal ≡ StreamTooLong) }
{
    match count.checked_add(more) {
        Some(sum) => Ok(sum),
        None => Err(Refusal::StreamTooLong),
    }
}
