//! Which part of what holds it an encoding is, and how it is named.

use encoding_parts::begins;
use itoa::Buffer;
use octets::{NoMemory, Tag};
use std::string::String;
use types::Ty;

/// How a part is named in what holds it.
#[derive(Clone, Copy)]
pub enum Step<'a> {
    /// The value itself, what an explicit tag stands around, or a segment.
    Whole,
    /// The component of this name.
    Component(&'a str),
    /// The item with this number, counted from 0.
    Item(usize),
}

/// A part that has come.
#[derive(Clone, Copy)]
pub struct Part<'a> {
    /// How it is named in what holds it.
    pub step: Step<'a>,
    /// Its type.
    pub ty: &'a Ty,
    /// The type itself, or the alternative of a CHOICE that begins with the tag.
    pub node: &'a Ty,
    /// The tag that stands there.
    pub tag: Tag,
}

impl Part<'_> {
    /// Appends the part's name: `.name` of a component, `[0]` of an item, and `.name` of each alternative that is
    /// chosen.
    #[inline(always)]
    pub fn put_name(&self, out: &mut String) -> Result<(), NoMemory> {
        match self.step {
            Step::Whole => {}
            Step::Component(name) => put_dotted(name, out)?,
            Step::Item(number) => put_number(number, out)?,
        }
        match self.ty {
            Ty::Choice(_) => put_alternatives(self.ty, self.tag, out),
            _ => Ok(()),
        }
    }
}

// Appends the names of the alternatives that begin with the tag.
fn put_alternatives(ty: &Ty, tag: Tag, out: &mut String) -> Result<(), NoMemory> {
    let Ty::Choice(alternatives) = ty else {
        return Ok(());
    };
    for alternative in alternatives {
        if begins(&alternative.ty, tag) {
            put_dotted(alternative.name.as_str(), out)?;
            return put_alternatives(&alternative.ty, tag, out);
        }
    }
    Ok(())
}

fn put_number(number: usize, out: &mut String) -> Result<(), NoMemory> {
    let mut buffer = Buffer::new();
    out.push('[')?;
    out.push_str(buffer.format(number))?;
    out.push(']')?;
    Ok(())
}

fn put_dotted(name: &str, out: &mut String) -> Result<(), NoMemory> {
    out.push('.')?;
    out.push_str(name)?;
    Ok(())
}
