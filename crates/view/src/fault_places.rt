//! Where in an assigned type the name, the tag or the default stands for which `resolve` refuses it.
//!
//! The judge is `resolve` itself: a part of the type is assigned in the place of the whole, and where it is refused
//! alike, the fault stands in that part. So no rule of X.680 is stated here.

use crate::module_text::{ModuleText, Part};
use notation::{parse, resolve};
use octets::NoMemory;
use std::alloc::Global;

// How many types may nest that are looked into.
const MOST_NESTED: usize = 128;

/// Looks for the places of faults.
#[derive(Drop)]
pub struct FaultPlaces<'a, 'b> {
    pub alloc: Global,
    pub module: &'b ModuleText<'a>,
    /// How many times the module may still be judged.
    pub left: usize,
}

// Tokens, from the first to before the end.
#[derive(Clone, Copy)]
struct Span {
    first: usize,
    end: usize,
}

// Why nothing more is judged.
enum Stop {
    // A growth was refused.
    NoMemory,
    // The module was judged as many times as it may be.
    Exhausted,
}

impl From<NoMemory> for Stop {
    fn from(_refused: NoMemory) -> Stop {
        Stop::NoMemory
    }
}

// What is known of the place of a fault.
enum Search {
    // It stands in this part of the type.
    Within(Span),
    // It stands at this token.
    At(usize),
    // It is another assignment's.
    Elsewhere,
}

impl FaultPlaces<'_, '_> {
    /// The token at which the assigned type is refused with the number, or the assignment's name where that is not
    /// known; None where the fault is another assignment's.
    pub fn find(&mut self, part: &Part, number: u32) -> Result<Option<usize>, NoMemory> {
        match self.search(part, number) {
            Ok(found) => Ok(found),
            Err(Stop::Exhausted) => Ok(Some(part.first)),
            Err(Stop::NoMemory) => Err(NoMemory),
        }
    }

    // The token at which the assigned type is refused with the number; None where the fault is another assignment's.
    fn search(&mut self, part: &Part, number: u32) -> Result<Option<usize>, Stop> {
        let mut span = Span {
            first: part.first.saturating_add(2),
            end: part.end,
        };
        for _ in 0..MOST_NESTED {
            match self.look_into(part, span, number)? {
                Search::Within(inner) => span = inner,
                Search::At(token) => return Ok(Some(token)),
                Search::Elsewhere => return Ok(None),
            }
        }
        Ok(Some(span.first))
    }

    // Looks into the type of these tokens, which is refused.
    fn look_into(&mut self, part: &Part, span: Span, number: u32) -> Result<Search, Stop> {
        let next = span.first.saturating_add(1);
        match self.module.spelling(span.first) {
            "[" => {
                let first = self.module.behind_tag(span.first);
                self.look_behind(part, span, first, number)
            }
            "SEQUENCE" | "SET" if self.module.spelling(next) == "OF" => {
                self.look_behind(part, span, next.saturating_add(1), number)
            }
            "SEQUENCE" | "SET" | "CHOICE" | "ENUMERATED" => {
                self.look_into_list(part, span, next, number)
            }
            "BIT" => self.look_into_list(part, span, next.saturating_add(1), number),
            name if self.module.is_type_name(span.first) => {
                self.look_up(part, name, span.first, number)
            }
            _ => Ok(Search::At(span.first)),
        }
    }

    // Looks at the type behind a tag or behind OF.
    fn look_behind(
        &mut self,
        part: &Part,
        span: Span,
        first: usize,
        number: u32,
    ) -> Result<Search, Stop> {
        let inner = Span {
            first,
            end: span.end,
        };
        if self.is_refused(part, inner, "", number)? {
            return Ok(Search::Within(inner));
        }
        Ok(Search::At(span.first))
    }

    // Looks at each type in the braces, and then for the fewest items that are refused: the last of them is the one.
    fn look_into_list(
        &mut self,
        part: &Part,
        span: Span,
        brace: usize,
        number: u32,
    ) -> Result<Search, Stop> {
        let items = self.items(Span {
            first: brace.saturating_add(1),
            end: span.end.saturating_sub(1),
        })?;
        for item in items.iter() {
            let inner = self.type_in(*item);
            if inner.first < inner.end && self.is_refused(part, inner, "", number)? {
                return Ok(Search::Within(inner));
            }
        }
        for item in items.iter() {
            let first = Span {
                first: span.first,
                end: item.end,
            };
            if self.is_refused(part, first, " }", number)? {
                return Ok(Search::At(self.token_in(*item, number)));
            }
        }
        Ok(Search::At(span.first))
    }

    // Looks at the assignment of a name that stands in the type.
    fn look_up(
        &mut self,
        part: &Part,
        name: &str,
        token: usize,
        number: u32,
    ) -> Result<Search, Stop> {
        let nothing = Span { first: 0, end: 0 };
        let refused = if number == 25 {
            self.judge(part, nothing, "NULL", name)?
        } else {
            let whole = Span {
                first: part.first.saturating_add(2),
                end: part.end,
            };
            self.judge(part, whole, "", name)?
        };
        Ok(match refused {
            Some(_) => Search::Elsewhere,
            None => Search::At(token),
        })
    }

    // The tokens of the items, which commas separate.
    fn items(&self, span: Span) -> Result<Vec<Span>, NoMemory> {
        let mut items = Vec::new(self.alloc);
        let mut first = span.first;
        let mut depth = 0usize;
        for which in span.first..span.end {
            match self.module.spelling(which) {
                "{" => depth = depth.saturating_add(1),
                "}" => depth = depth.saturating_sub(1),
                "," if depth == 0 => {
                    items.push(Span { first, end: which })?;
                    first = which.saturating_add(1);
                }
                _ => {}
            }
        }
        items.push(Span {
            first,
            end: span.end,
        })?;
        Ok(items)
    }

    // The tokens of the type behind an item's name; none where a number stands there.
    fn type_in(&self, item: Span) -> Span {
        let first = item.first.saturating_add(1);
        let end = if self.module.spelling(first) == "(" {
            first
        } else {
            self.behind_type(item)
        };
        Span { first, end }
    }

    // The token behind the type of a component: OPTIONAL, DEFAULT, or what stands behind the component.
    fn behind_type(&self, item: Span) -> usize {
        let mut depth = 0usize;
        for which in item.first..item.end {
            match self.module.spelling(which) {
                "{" => depth = depth.saturating_add(1),
                "}" => depth = depth.saturating_sub(1),
                "OPTIONAL" | "DEFAULT" if depth == 0 => return which,
                _ => {}
            }
        }
        item.end
    }

    // The token of an item for which a list is refused: its tag, its number, its default or its name.
    fn token_in(&self, item: Span, number: u32) -> usize {
        let next = item.first.saturating_add(1);
        match (number, self.module.spelling(next)) {
            (28, "[") => next,
            (27, "(") => next.saturating_add(1),
            (30, _) => self.behind_type(item).saturating_add(1),
            _ => item.first,
        }
    }

    // Whether the name is refused with the number, if it is assigned these tokens and `more`.
    fn is_refused(
        &mut self,
        part: &Part,
        span: Span,
        more: &str,
        number: u32,
    ) -> Result<bool, Stop> {
        let name = self.module.spelling(part.first);
        Ok(self.judge(part, span, more, name)? == Some(number))
    }

    // With which number a name is refused, if these tokens and `more` are assigned in the place of the part's type.
    fn judge(
        &mut self,
        part: &Part,
        span: Span,
        more: &str,
        name: &str,
    ) -> Result<Option<u32>, Stop> {
        if self.left == 0 {
            return Err(Stop::Exhausted);
        }
        self.left -= 1;
        let text = self
            .module
            .text_with(self.alloc, part, span.first, span.end, more)?;
        let refused = match parse(self.alloc, text.as_str()) {
            Ok(module) => resolve(self.alloc, &module, name).err(),
            Err(fault) => Some(fault),
        };
        match refused {
            Some(fault) if fault.number == 33 => Err(Stop::NoMemory),
            Some(fault) => Ok(Some(fault.number)),
            None => Ok(None),
        }
    }
}
