//! The parts of a list of types, and what stands behind each (X.680 clauses 25 and 29).

ghost use Rattle.std.specs.Prelude.{◌≡◌};
ghost use Rattle.syntax.specs.View.{form, alternative};
ghost use Rattle.syntax.specs.Reading.{Gives, signs_from};
ghost use Rattle.syntax.specs.PartReading.{listed, whole, part_behind};

use crate::reading::end_at;
use crate::stop::Stop;
use crate::terminal::Terminal;
use crate::tree::{Alternative, Component, Expr, Group};
use crate::values::ending_at;
use std::alloc::Global;

/// The parts of a list that are read so far.
#[derive(Drop)]
pub enum Parts {
    /// Components of a SEQUENCE or SET.
    Components(Group, Vec<Component>),
    /// Alternatives of a CHOICE.
    Alternatives(Vec<Alternative>),
}

impl Parts {
    /// These parts and one more, which has this name and type, and whether it is the last of its list. What
    /// stands behind the type is read.
    #[tactic(auto, unfolding(crate::specs::PartReading::part_behind))]
    pub fn with(
        self,
        alloc: Global,
        named: Alternative,
        terminals: &[Terminal],
        at: usize,
    ) -> Result<(Parts, bool, usize), Stop>
        ensures { Gives (λ r. ((listed r.0, r.1), signs_from r.2 terminals.now)) result (part_behind (listed self) (alternative named) (signs_from at terminals.now)) }
    {
        match self {
            Parts::Components(group, mut components) => {
                let (presence, next) = ending_at(alloc, terminals, at)?;
                let (is_last, next) = end_at(terminals, next)?;
                let Alternative { name, body } = named;
                components.push(Component {
                    name,
                    body,
                    presence,
                })?;
                Ok((Parts::Components(group, components), is_last, next))
            }
            Parts::Alternatives(mut alternatives) => {
                let (is_last, next) = end_at(terminals, at)?;
                alternatives.push(named)?;
                Ok((Parts::Alternatives(alternatives), is_last, next))
            }
        }
    }

    /// The type that has these parts.
    pub fn into_expr(self) -> Expr
        ensures { form result ≡ whole (listed self) }
    {
        match self {
            Parts::Components(group, components) => Expr::List(group, components),
            Parts::Alternatives(alternatives) => Expr::Choice(alternatives),
        }
    }
}
