//! BIT STRING with named bits (X.680 clause 22).

use crate::trimmer::{Draft, Trimmer};
use published::{NamedNumber, Place};
use std::alloc::{AllocError, Global};
use syntax::{Expr, NamedBit};
use trim_rules::MAX_PARTS;
use trim_sources::{Cause, identifier};

impl<'a> Trimmer<'a> {
    /// Named bits. They are kept: bits 0 at the end mean nothing where there are names (X.690 11.2.2).
    pub fn named_bits(
        &mut self,
        alloc: Global,
        place: Place,
        bits: &'a [NamedNumber],
    ) -> Result<Draft, AllocError> {
        if bits.is_empty() || bits.len() > MAX_PARTS {
            return self.refuse(alloc, place, Cause::Parts);
        }
        let mut made = Vec::new(alloc);
        for bit in bits {
            match self.sources.bit_of(self.work.module, bit, &mut self.budget) {
                Some(number) => made.push(NamedBit {
                    name: identifier(alloc, &bit.name.name)?,
                    number,
                })?,
                None => return self.refuse(alloc, bit.name.place, Cause::Number),
            }
        }
        Ok(Draft::whole(Expr::NamedBits(made)))
    }
}
