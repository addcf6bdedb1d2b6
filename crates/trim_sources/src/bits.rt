//! Named bits (X.680 clause 22).

use crate::sources::Sources;
use crate::values::Budget;
use published::{NamedNumber, Word};
use std::alloc::{AllocError, Global};
use trim_rules::MAX_PARTS;

/// The greatest number of a named bit in the profile.
const MAX_BIT: u32 = 65_535;

impl<'a> Sources<'a> {
    /// The number of a named bit, where the profile has it.
    pub fn bit_of(&self, module: usize, bit: &'a NamedNumber, budget: &mut Budget) -> Option<u32> {
        let number = self.number_of(module, &bit.number, budget)?;
        if number.negative {
            return None;
        }
        let number = u32::try_from(number.magnitude).ok()?;
        if number <= MAX_BIT {
            Some(number)
        } else {
            None
        }
    }

    /// The binary string in which these bits are 1, and no bit is behind the last of them. None: one is not
    /// named.
    pub fn bits_of(
        &self,
        alloc: Global,
        module: usize,
        named: &'a [NamedNumber],
        bits: &'a [Word],
        budget: &mut Budget,
    ) -> Result<Option<String>, AllocError> {
        if named.len() > MAX_PARTS || bits.len() > MAX_PARTS {
            return Ok(None);
        }
        let mut set = Vec::new(alloc);
        for word in bits {
            let Some(bit) = named.iter().find(|bit| bit.name.name == word.name) else {
                return Ok(None);
            };
            match self.bit_of(module, bit, budget) {
                Some(number) => set.push(number)?,
                None => return Ok(None),
            }
        }
        set.sort_unstable();
        Ok(Some(binary_string(alloc, set.as_slice())?))
    }
}

// The binary string in which these bits are 1, which ascend.
fn binary_string(alloc: Global, set: &[u32]) -> Result<String, AllocError> {
    let mut text = String::from_str(alloc, "'")?;
    let mut next = 0;
    for bit in set {
        for _zero in next..*bit {
            text.push('0')?;
        }
        if next <= *bit {
            text.push('1')?;
            next = bit.saturating_add(1);
        }
    }
    text.push_str("'B")?;
    Ok(text)
}
