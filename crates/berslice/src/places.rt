//! Where alternatives of a CHOICE stand that have come in a list.

ghost use Rattle.std.specs.Prelude.{◌≡◌, ◌<◌, length, get_or, IfSome};
ghost use Rattle.types.specs.Leaf.{IsLeaf, tag_of};
ghost use Rattle.types.specs.View.{ty_view};

use encoding_parts::{by_tag, can_begin};
use octets::Tag;
use types::{Alternative, Ty};

/// The place of the alternative that came last of each number of a tag, by the number's last eight bits. A place is a
/// guess, and is looked at before it is taken.
#[derive(Drop)]
pub struct Places {
    each: [u8; 256],
}

impl Places {
    // Those of a list of this type: none have come; None unless it is a CHOICE.
    pub fn of(ty: &Ty) -> Option<Places> {
        if matches!(ty, Ty::Choice(_)) {
            Some(Places { each: [0; 256] })
        } else {
            None
        }
    }

    // The alternative that has come with the tag, and its place; None unless it is one without parts.
    #[inline(always)]
    pub fn leaf_of<'a>(
        &self,
        alternatives: &'a [Alternative],
        tag: Tag,
    ) -> Option<(usize, &'a Alternative)>
        ensures there { IfSome result (λ p. (p.0 < length alternatives.now) × (p.1.now ≡ get_or alternatives.now p.0 p.1.now)) }
        ensures leaf { IfSome result (λ p. IsLeaf (ty_view p.1.now.ty) × (tag_of (ty_view p.1.now.ty) ≡ tag)) }
    {
        let which = usize::from(self.each[(tag.number % 256) as usize]);
        if which >= alternatives.len() {
            return None;
        }
        let alternative = &alternatives[which];
        match alternative.ty.leaf_tag() {
            Some(own) if own == tag => Some((which, alternative)),
            _ => None,
        }
    }

    // The place of the alternative that begins with the tag. Those that have come are not searched
    // for.
    pub fn place_of(&mut self, alternatives: &[Alternative], tag: Tag) -> Option<usize>
        ensures { IfSome result (λ which. which < length alternatives.now) }
    {
        let number = (tag.number % 256) as usize;
        let guess = usize::from(self.each[number]);
        if guess < alternatives.len() && can_begin(&alternatives[guess].ty, tag) {
            return Some(guess);
        }
        let (which, _) = by_tag(alternatives, tag)?;
        if which < 256 {
            self.each[number] = which as u8;
        }
        Some(which)
    }
}
