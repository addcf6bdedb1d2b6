//! Names of the module that is written.

use lexis::word_of;
use names::Name;
use std::alloc::{AllocError, Global};
use std::collections::BTreeMap;

/// The names that are given so far, each with how often it was asked for.
#[derive(Drop)]
pub struct Naming {
    taken: BTreeMap<String, usize>,
}

impl Naming {
    /// No names.
    pub fn new(alloc: Global) -> Self {
        Naming {
            taken: BTreeMap::new(alloc),
        }
    }

    /// A name for a type of this name that no other has: its own, or one with a number behind it.
    pub fn name_for(&mut self, alloc: Global, name: &str) -> Result<Name, AllocError> {
        let plain = spelled(alloc, name)?;
        if word_of(plain.as_str().as_bytes()).is_none() && self.take(alloc, plain.as_str())? {
            return Name::new(alloc, plain.as_str());
        }
        let mut number = self.taken.get(plain.as_str()).copied().unwrap_or(1);
        for _try in 0..self.taken.len().saturating_add(1) {
            number = number.saturating_add(1);
            let numbered = format!(in alloc; "{plain}-{number}")?;
            if self.take(alloc, numbered.as_str())? {
                break;
            }
        }
        self.taken.insert(plain.clone()?, number)?;
        let numbered = format!(in alloc; "{plain}-{number}")?;
        Name::new(alloc, numbered.as_str())
    }

    // Whether the name was free, which it is no more.
    fn take(&mut self, alloc: Global, name: &str) -> Result<bool, AllocError> {
        if self.taken.get(name).is_some() {
            return Ok(false);
        }
        self.taken.insert(String::from_str(alloc, name)?, 1)?;
        Ok(true)
    }
}

/// The name in letters, digits and single hyphens between these, as X.680 clause 12 has them.
pub fn spelled(alloc: Global, name: &str) -> Result<String, AllocError> {
    let mut text = String::new(alloc);
    let mut is_due = false;
    for c in name.chars() {
        if !c.is_ascii_alphanumeric() {
            is_due = true;
            continue;
        }
        if is_due {
            text.push('-')?;
            is_due = false;
        }
        text.push(c)?;
    }
    Ok(text)
}

/// The name of a component, an alternative, an item or a bit.
pub fn identifier(alloc: Global, name: &Name) -> Result<Name, AllocError> {
    if name.as_str().contains('_') {
        let text = spelled(alloc, name.as_str())?;
        return Name::new(alloc, text.as_str());
    }
    name.clone()
}
