//! The names that a type expression refers to.

ghost use Rattle.std.specs.Prelude.{◌≡◌, ◌++◌, IfOk, OnOk, map};
ghost use Rattle.syntax.specs.View.{form};
ghost use Rattle.notation.specs.References.{names_in};

use std::alloc::{AllocError, Global};
use syntax::Expr;

/// The names in the expression, in order of text, one that stands twice taken twice.
pub fn references_of<'a>(alloc: Global, expr: &'a Expr) -> Result<Vec<&'a str>, AllocError>
    ensures { IfOk result (λ names. map (λ n. n.now) names.items ≡ names_in (form expr.now)) }
{
    let mut names = Vec::new(alloc);
    gather(expr, &mut names)?;
    Ok(names)
}

fn gather<'a>(expr: &'a Expr, names: &mut Vec<&'a str>) -> Result<(), AllocError>
    ensures { OnOk result (map (λ n. n.now) names.new.items ≡ map (λ n. n.now) names.old.items ++ names_in (form expr.now)) }
{
    match expr {
        Expr::Tagged(_, inner) => gather(inner, names),
        Expr::List(_, components) => {
            for component in components {
                gather(&component.body, names)?;
            }
            Ok(())
        }
        Expr::Of(_, inner) => gather(inner, names),
        Expr::Choice(alternatives) => {
            for alternative in alternatives {
                gather(&alternative.body, names)?;
            }
            Ok(())
        }
        Expr::Enumerated(_) | Expr::NamedBits(_) | Expr::Simple(_) => Ok(()),
        Expr::Reference(name) => Ok(names.push(name.as_str())?),
    }
}
