//! Copies of types of the profile.

use std::alloc::{AllocError, Global};
use syntax::{Alternative, Component, DefaultValue, Expr, Item, NamedBit, Presence, Simple};

/// Makes copies of types, with so many parts at most.
#[derive(Drop)]
pub struct Copier {
    alloc: Global,
    /// How many parts may still be copied. Where there are none, what is made is no copy.
    pub left: usize,
}

impl Copier {
    /// Copies of so many parts.
    pub fn new(alloc: Global, left: usize) -> Self {
        Copier { alloc, left }
    }

    /// A copy of the component.
    #[cycle(copying)]
    pub fn component(&mut self, component: &Component) -> Result<Component, AllocError> {
        let name = component.name.clone()?;
        let body = self.expr(&component.body)?;
        self.presence(&component.presence)
            .map(|presence| Component {
                name,
                body,
                presence,
            })
    }

    // A copy of the type.
    #[cycle(copying)]
    fn expr(&mut self, expr: &Expr) -> Result<Expr, AllocError> {
        self.left = self.left.saturating_sub(1);
        if self.left == 0 {
            return Ok(Expr::Simple(Simple::Null));
        }
        match expr {
            Expr::Tagged(prefix, inner) => Ok(Expr::Tagged(*prefix, self.inner(inner)?)),
            Expr::List(group, components) => Ok(Expr::List(*group, self.components(components)?)),
            Expr::Of(group, inner) => Ok(Expr::Of(*group, self.inner(inner)?)),
            Expr::Choice(alternatives) => Ok(Expr::Choice(self.alternatives(alternatives)?)),
            Expr::Enumerated(items) => self.items(items),
            Expr::NamedBits(bits) => self.bits(bits),
            Expr::Simple(simple) => Ok(Expr::Simple(*simple)),
            Expr::Reference(name) => Ok(Expr::Reference(self.text(name)?)),
        }
    }

    // A copy of a type behind a tag or `OF`.
    #[cycle(copying)]
    fn inner(&mut self, inner: &Expr) -> Result<Box<Expr>, AllocError> {
        let copy = self.expr(inner)?;
        Ok(Box::new(self.alloc, copy)?)
    }

    // A copy of the components of a list.
    #[cycle(copying)]
    fn components(&mut self, components: &[Component]) -> Result<Vec<Component>, AllocError> {
        let mut copies = Vec::new(self.alloc);
        for component in components {
            copies.push(self.component(component)?)?;
        }
        Ok(copies)
    }

    // A copy of the alternatives of a CHOICE.
    #[cycle(copying)]
    fn alternatives(
        &mut self,
        alternatives: &[Alternative],
    ) -> Result<Vec<Alternative>, AllocError> {
        let mut copies = Vec::new(self.alloc);
        for alternative in alternatives {
            let name = alternative.name.clone()?;
            let body = self.expr(&alternative.body)?;
            copies.push(Alternative { name, body })?;
        }
        Ok(copies)
    }

    // A copy of an ENUMERATED with these items.
    fn items(&mut self, items: &[Item]) -> Result<Expr, AllocError> {
        self.left = self.left.saturating_sub(items.len());
        let mut copies = Vec::new(self.alloc);
        for item in items {
            copies.push(Item {
                name: item.name.clone()?,
                number: item.number,
            })?;
        }
        Ok(Expr::Enumerated(copies))
    }

    // A copy of a BIT STRING with these bits.
    fn bits(&mut self, bits: &[NamedBit]) -> Result<Expr, AllocError> {
        self.left = self.left.saturating_sub(bits.len());
        let mut copies = Vec::new(self.alloc);
        for bit in bits {
            copies.push(NamedBit {
                name: bit.name.clone()?,
                number: bit.number,
            })?;
        }
        Ok(Expr::NamedBits(copies))
    }

    fn presence(&mut self, presence: &Presence) -> Result<Presence, AllocError> {
        match presence {
            Presence::Required => Ok(Presence::Required),
            Presence::Optional => Ok(Presence::Optional),
            Presence::Default(value) => Ok(Presence::Default(self.value(value)?)),
        }
    }

    fn value(&mut self, value: &DefaultValue) -> Result<DefaultValue, AllocError> {
        match value {
            DefaultValue::True => Ok(DefaultValue::True),
            DefaultValue::False => Ok(DefaultValue::False),
            DefaultValue::Number(number) => Ok(DefaultValue::Number(*number)),
            DefaultValue::Name(name) => Ok(DefaultValue::Name(self.text(name)?)),
            DefaultValue::Binary(text) => Ok(DefaultValue::Binary(self.text(text)?)),
            DefaultValue::Hex(text) => Ok(DefaultValue::Hex(self.text(text)?)),
            DefaultValue::Chars(text) => Ok(DefaultValue::Chars(self.text(text)?)),
        }
    }

    // A copy of the text. A long one counts as several parts.
    fn text(&mut self, text: &String) -> Result<String, AllocError> {
        self.left = self.left.saturating_sub(parts_in(text.as_str()));
        if self.left == 0 {
            return Ok(String::new(self.alloc));
        }
        String::from_str(self.alloc, text.as_str())
    }
}

/// As how many parts a text counts besides what it stands in.
pub fn parts_in(text: &str) -> usize {
    text.len() / 16
}
