//! The modules of a file.

use crate::tree::Module;
use published_tokens::{Fault, MAX_FILE, MAX_PARTS, Place, Reader, Reason, Scanner, next_head};
use std::alloc::{AllocError, Global};

/// What a file has.
#[derive(Drop)]
pub struct Published {
    /// Its modules, in order of text.
    pub modules: Vec<Module>,
    /// What is refused in them, in order of text, at most `MAX_FAULTS`.
    pub faults: Vec<Fault>,
}

/// The modules of the text, which is the file of this number. What stands outside modules is skipped. Of a module
/// each assignment that is understood comes; a fault stands for each that is not.
pub fn read(alloc: Global, file: u32, text: &[u8]) -> Result<Published, AllocError> {
    let mut published = Published {
        modules: Vec::new(alloc),
        faults: Vec::new(alloc),
    };
    if text.len() > MAX_FILE {
        published.faults.push(too_long(file))?;
        return Ok(published);
    }
    let mut scanner = Scanner::new(text, file);
    let mut parts = MAX_PARTS;
    for _turn in 0..=MAX_PARTS {
        let Some(head) = next_head(&mut scanner) else {
            break;
        };
        let mut reader = Reader::new(alloc, scanner, parts);
        published.add_module(&mut reader, head)?;
        scanner = reader.scanner;
        parts = reader.parts;
        if parts == 0 {
            break;
        }
    }
    Ok(published)
}

// The fault of a file that is too long.
fn too_long(file: u32) -> Fault {
    Fault {
        place: Place {
            file,
            line: 1,
            column: 1,
        },
        reason: Reason::FileTooLong,
    }
}
