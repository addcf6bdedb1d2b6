//! The body of a module, with what is refused in it.

use crate::MAX_FAULTS;
use crate::assignments::assignment_at;
use crate::imports::{imports_at, skip_exports};
use crate::modules::Published;
use crate::tree::{Assignment, Import, Module};
use lexis::Word as Reserved;
use published_tokens::{Head, Kind, MAX_FILE, Reader, Reason, Stop, Symbol};
use std::alloc::AllocError;
use std::mem::drop;

impl Published {
    /// Adds the module with this head, whose first token stands in front, and what is refused in it. In front
    /// stands then its END, or what ends it without one.
    pub(crate) fn add_module(&mut self, reader: &mut Reader, head: Head) -> Result<(), AllocError> {
        let name = match reader.word_at(head.name) {
            Ok(name) => name,
            Err(stop) => return self.refused(stop),
        };
        let imports = self.imports_of(reader)?;
        let assignments = self.assignments_of(reader)?;
        self.modules.push(Module {
            name,
            tagging: head.tagging,
            is_extensible: head.is_extensible,
            imports,
            assignments,
        })?;
        Ok(())
    }

    // The imports of a module; none where they are refused.
    fn imports_of(&mut self, reader: &mut Reader) -> Result<Vec<Import>, AllocError> {
        match front_at(reader) {
            Ok(imports) => Ok(imports),
            Err(stop) => {
                self.recover(reader, stop)?;
                Ok(Vec::new(reader.alloc))
            }
        }
    }

    // The assignments of a module, up to its end.
    fn assignments_of(&mut self, reader: &mut Reader) -> Result<Vec<Assignment>, AllocError> {
        let mut assignments = Vec::new(reader.alloc);
        self.add_assignments(reader, &mut assignments)?;
        if !reader.is_word(Reserved::End) {
            // The text may end within the last assignment.
            drop(assignments.pop());
            self.refused(reader.stop(Reason::NoEnd))?;
        }
        Ok(assignments)
    }

    // Adds the assignments of a module.
    fn add_assignments(
        &mut self,
        reader: &mut Reader,
        assignments: &mut Vec<Assignment>,
    ) -> Result<(), AllocError> {
        for _turn in 0..=MAX_FILE {
            if ends_module(reader.kind()) || reader.parts == 0 {
                break;
            }
            match assignment_at(reader) {
                Ok(assignment) => assignments.push(assignment)?,
                Err(stop) => self.recover(reader, stop)?,
            }
        }
        Ok(())
    }

    // Keeps what is refused, and passes all up to the next assignment of a type, or to the end of the module.
    fn recover(&mut self, reader: &mut Reader, stop: Stop) -> Result<(), AllocError> {
        self.refused(stop)?;
        let mut is_value = false;
        for _turn in 0..=MAX_FILE {
            let kind = reader.kind();
            if ends_module(kind) || (!is_value && begins_type(reader)) {
                break;
            }
            is_value = kind == Kind::Lower;
            reader.take();
        }
        Ok(())
    }

    // Keeps what is refused.
    fn refused(&mut self, stop: Stop) -> Result<(), AllocError> {
        match stop {
            Stop::NoMemory => Err(AllocError),
            Stop::Refused(fault) => {
                if self.faults.len() < MAX_FAULTS {
                    self.faults.push(fault)?;
                }
                Ok(())
            }
        }
    }
}

// What stands before the assignments.
fn front_at(reader: &mut Reader) -> Result<Vec<Import>, Stop> {
    skip_exports(reader)?;
    imports_at(reader)
}

// Whether the token ends a module: END, or what stands where there is none.
fn ends_module(kind: Kind) -> bool {
    match kind {
        Kind::End => true,
        Kind::Reserved(word) => matches!(word, Reserved::End | Reserved::Definitions),
        _ => false,
    }
}

// Whether a name with a capital letter and `::=` stand in front.
fn begins_type(reader: &Reader) -> bool {
    reader.kind() == Kind::Upper && reader.second() == Kind::Symbol(Symbol::Assignment)
}
