//! ENUMERATED (X.680 clause 20).

use crate::trimmer::{Draft, Trimmer};
use published::{Item as Written, Items, Place};
use std::alloc::{AllocError, Global};
use syntax::{Expr, Item, SignedNumber};
use trim_rules::{MAX_PARTS, Section, next_free};
use trim_sources::{Cause, identifier};

/// Items with their numbers.
#[derive(Drop)]
struct Numbered {
    /// The items.
    items: Vec<Item>,
    /// The numbers that no item without one may get, of those that are not negative.
    used: Vec<u128>,
    /// The least number that the next item without one may get; None: a negative one came before it.
    next: Option<u128>,
}

impl<'a> Trimmer<'a> {
    /// The items, each with its number, additions behind the root.
    pub fn enumerated(
        &mut self,
        alloc: Global,
        place: Place,
        items: &'a Items,
    ) -> Result<Draft, AllocError> {
        let count = items.root.len().saturating_add(items.additions.len());
        if count == 0 || count > MAX_PARTS {
            return self.refuse(alloc, place, Cause::Parts);
        }
        if let Some(marker) = items.marker {
            self.drop_part(alloc, marker, "an extension marker")?;
        }
        match self.numbered(alloc, items)? {
            Some(items) => Ok(Draft::whole(Expr::Enumerated(items))),
            None => self.refuse(alloc, place, Cause::Number),
        }
    }

    // The items with their numbers. None: one has no number.
    fn numbered(
        &mut self,
        alloc: Global,
        items: &'a Items,
    ) -> Result<Option<Vec<Item>>, AllocError> {
        let mut root = Numbered {
            items: Vec::new(alloc),
            used: self.written_numbers(alloc, &items.root)?,
            next: Some(0),
        };
        if !self.number_all(alloc, &items.root, Section::Root, &mut root)? {
            return Ok(None);
        }
        root.used = used_by(alloc, &root.items)?;
        root.next = Some(0);
        if !self.number_all(alloc, &items.additions, Section::Additions, &mut root)? {
            return Ok(None);
        }
        Ok(Some(root.items))
    }

    // The numbers that are written and not negative.
    fn written_numbers(
        &mut self,
        alloc: Global,
        items: &'a [Written],
    ) -> Result<Vec<u128>, AllocError> {
        let mut numbers = Vec::new(alloc);
        for item in items {
            if let Some(number) = self.written_number(item) {
                if !number.negative {
                    numbers.push(number.magnitude)?;
                }
            }
        }
        Ok(numbers)
    }

    // The number that is written behind an item.
    fn written_number(&mut self, item: &'a Written) -> Option<SignedNumber> {
        match &item.number {
            Some(number) => self
                .sources
                .number_of(self.work.module, number, &mut self.budget),
            None => None,
        }
    }

    // Numbers the items of the root or the additions. Those without a number get, in the root, the successive
    // numbers from 0 that are not written there, and among additions the least one above the additions before
    // them that the root does not have. Whether each has one.
    fn number_all(
        &mut self,
        alloc: Global,
        items: &'a [Written],
        section: Section,
        numbered: &mut Numbered,
    ) -> Result<bool, AllocError> {
        for item in items {
            let written = self.written_number(item);
            if item.number.is_some() && written.is_none() {
                return Ok(false);
            }
            let goes_on = section != Section::Root || written.is_none();
            if !numbered.add(alloc, item, written, goes_on)? {
                return Ok(false);
            }
        }
        Ok(true)
    }
}

impl Numbered {
    // Adds an item with the number that is written, or the next free one, which the next one comes behind
    // if that is asked. Whether there is one.
    fn add(
        &mut self,
        alloc: Global,
        item: &Written,
        written: Option<SignedNumber>,
        goes_on: bool,
    ) -> Result<bool, AllocError> {
        let number = match written {
            Some(number) => number,
            None => match self.next.and_then(|from| next_free(&self.used, from)) {
                Some(magnitude) => SignedNumber {
                    negative: false,
                    magnitude,
                },
                None => return Ok(false),
            },
        };
        if goes_on {
            self.next = behind(number);
        }
        self.items.push(Item {
            name: identifier(alloc, &item.name.name)?,
            number: Some(SignedNumber {
                negative: number.negative && number.magnitude > 0,
                magnitude: number.magnitude,
            }),
        })?;
        Ok(true)
    }
}

// The number behind one that is not negative.
fn behind(number: SignedNumber) -> Option<u128> {
    if number.negative {
        None
    } else {
        number.magnitude.checked_add(1)
    }
}

// The numbers of items that are not negative.
fn used_by(alloc: Global, items: &[Item]) -> Result<Vec<u128>, AllocError> {
    let mut used = Vec::new(alloc);
    for item in items {
        if let Some(number) = item.number {
            if !number.negative {
                used.push(number.magnitude)?;
            }
        }
    }
    Ok(used)
}
