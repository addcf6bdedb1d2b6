//! Types from their notation (X.680), which stands for T in a module.

use convert::WellTyped;
use notation::{parse, resolve};
use std::alloc::{AllocError, Global};
use std::test::Fail;

/// The type of a notation, behind which other assignments may stand. Tags are implicit where no keyword says
/// another thing, or as the words say with which the notation begins. Where it begins with `M DEFINITIONS`, it is a
/// module by itself.
pub fn type_of(alloc: Global, text: &str) -> Result<WellTyped, Fail> {
    let module = module_of(alloc, text)?;
    let module = parse(alloc, module.as_str())?;
    Ok(resolve(alloc, &module, "T")?)
}

// The module that has the type.
fn module_of(alloc: Global, text: &str) -> Result<String, AllocError> {
    if text.starts_with("M DEFINITIONS") {
        return String::from_str(alloc, text);
    }
    let (tagging, ty) = text.split_once(" TAGS ").unwrap_or(("IMPLICIT", text));
    format!(in alloc; "M DEFINITIONS {tagging} TAGS ::= BEGIN T ::= {ty} END")
}
