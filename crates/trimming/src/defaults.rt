//! Values behind DEFAULT (X.680 clause 25).

use crate::trimmer::Trimmer;
use published::{Place, Type, Value};
use std::alloc::{AllocError, Global};
use std::mem::drop;
use syntax::DefaultValue;
use trim_sources::Cause;

impl<'a> Trimmer<'a> {
    /// The DEFAULT of a component of this type as a literal. None: the profile has none for it.
    pub fn literal(
        &mut self,
        alloc: Global,
        body: &'a Type,
        value: &'a Value,
    ) -> Result<Option<DefaultValue>, AllocError> {
        let module = self.work.module;
        let Ok(base) = self.sources.base_of(module, body) else {
            return Ok(None);
        };
        match self.sources.value_of(base, module, value, &mut self.budget) {
            Some(found) => {
                let literal = self.sources.literal_of(alloc, found, &mut self.budget)?;
                self.counted(alloc, value.place, literal)
            }
            None => Ok(None),
        }
    }

    // The literal, which is counted by its length. Where that is too much, it is noted.
    fn counted(
        &mut self,
        alloc: Global,
        place: Place,
        literal: Option<DefaultValue>,
    ) -> Result<Option<DefaultValue>, AllocError> {
        let is_taken = match &literal {
            Some(
                DefaultValue::Name(text)
                | DefaultValue::Binary(text)
                | DefaultValue::Hex(text)
                | DefaultValue::Chars(text),
            ) => self.look_at_text(text.as_str()),
            Some(DefaultValue::True | DefaultValue::False | DefaultValue::Number(_)) | None => true,
        };
        if is_taken {
            return Ok(literal);
        }
        drop(literal);
        self.note(alloc, place, Cause::TooLarge)?;
        Ok(Some(DefaultValue::False))
    }
}
