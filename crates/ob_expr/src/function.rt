//! The functions of the language, by name. One that is added gets its variant here, and its
//! name in `specs/Functions`.

ghost use Rattle.std.specs.Prelude.{◌≡◌};
ghost use Rattle.ob_expr.specs.Functions.{function_of, over_targets};

use crate::typed::{Aggregate, Extreme};

/// What a name before parentheses stands for.
#[derive(Clone, Copy, Debug, PartialEq, Eq)]
pub enum Function {
    If,
    Cat,
    Text,
    /// The lesser or the greater of two.
    Chosen(Extreme),
    /// Over the targets of its first argument.
    Over(Aggregate),
}

/// The function of a name.
#[tactic(auto, unfolding(crate::specs::Functions::function_of))]
pub fn function_of(name: &str) -> Option<Function>
    ensures { result ≡ function_of name.now }
{
    match name {
        "if" => Some(Function::If),
        "cat" => Some(Function::Cat),
        "text" => Some(Function::Text),
        "min2" => Some(Function::Chosen(Extreme::Least)),
        "max2" => Some(Function::Chosen(Extreme::Greatest)),
        "count" => Some(Function::Over(Aggregate::Count)),
        "any" => Some(Function::Over(Aggregate::Any)),
        "all" => Some(Function::Over(Aggregate::All)),
        "sum" => Some(Function::Over(Aggregate::Sum)),
        "min" => Some(Function::Over(Aggregate::Extreme(Extreme::Least))),
        "max" => Some(Function::Over(Aggregate::Extreme(Extreme::Greatest))),
        _ => None,
    }
}

/// What is made of targets, where the function is over them.
pub fn over_targets(function: Option<Function>) -> Option<Aggregate>
    ensures { result ≡ over_targets function }
{
    let Some(Function::Over(aggregate)) = function else {
        return None;
    };
    Some(aggregate)
}
