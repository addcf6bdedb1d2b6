//! Lists of components, alternatives and items while they are read.

use crate::tree::{Alternatives, Component, Components, Items};
use published_tokens::Section;
use std::alloc::{AllocError, Global};

impl Components {
    /// No components.
    pub(crate) fn new(alloc: Global) -> Components {
        Components {
            root: Vec::new(alloc),
            marker: None,
            additions: Vec::new(alloc),
            tail: Vec::new(alloc),
        }
    }

    /// Adds a component to this part of the list.
    pub(crate) fn put(&mut self, section: Section, component: Component) -> Result<(), AllocError> {
        let components = match section {
            Section::Root => &mut self.root,
            Section::Additions => &mut self.additions,
            Section::Tail => &mut self.tail,
        };
        components.push(component)?;
        Ok(())
    }
}

impl Alternatives {
    /// No alternatives.
    pub(crate) fn new(alloc: Global) -> Alternatives {
        Alternatives {
            root: Vec::new(alloc),
            marker: None,
            additions: Vec::new(alloc),
        }
    }
}

impl Items {
    /// No items.
    pub(crate) fn new(alloc: Global) -> Items {
        Items {
            root: Vec::new(alloc),
            marker: None,
            additions: Vec::new(alloc),
        }
    }
}
