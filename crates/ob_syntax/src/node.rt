//! The nodes that frames make of their operands.

ghost use Rattle.std.specs.Prelude.{◌≡◌, ◌++◌, ◌∷◌, [], ◌≤◌, ◌<◌, map, IfOk, IfErr};
ghost use Rattle.ob_base.specs.Limits.{max_expression_depth};
ghost use Rattle.ob_base.specs.declared.expr_fault.ExprFault.TheVariants.{NoMemory as no_memory};
ghost use Rattle.ob_base.specs.Syntax.{given_before, call, no_arguments, tree_of};
ghost use Rattle.ob_syntax.specs.Parsing.{calling, least, made, made_first};
ghost use Rattle.ob_syntax.specs.Waits.{call_pending, pending};

use crate::frame::{Calling, Frame, Operand};
use ob_base::{Expr, ExprFault};
use std::alloc::Global;

/// The node that a prefix or an operator makes of its last operand.
pub fn closed(alloc: Global, frame: Frame, operand: Operand) -> Result<Operand, ExprFault>
    requires { least (pending frame ∷ []) operand.deep ≤ max_expression_depth }
    ensures tree { IfOk result (λ node. tree_of node.expr
        ≡ made (pending frame) (tree_of operand.expr)) }
    ensures first { IfOk result (λ node. node.first
        ≡ made_first (pending frame) operand.first) }
    ensures fault { IfErr result (λ fault. fault ≡ no_memory) }
{
    match frame {
        Frame::Prefix(prefix, first) => Ok(Operand {
            expr: Expr::Prefix(prefix, Box::new(alloc, operand.expr)?, first),
            first,
            deep: operand.deep + 1,
        }),
        Frame::Left(operator, left) => {
            let deep = left.deep.max(operand.deep) + 1;
            let first = left.first;
            let left = Box::new(alloc, left.expr)?;
            let right = Box::new(alloc, operand.expr)?;
            Ok(Operand {
                expr: Expr::Binary(operator, left, right, first),
                first,
                deep,
            })
        }
        Frame::Group(_) | Frame::Call(_) => Ok(operand),
    }
}

/// A call with one argument more.
pub fn with_argument(call: Calling, argument: Operand) -> Result<Calling, ExprFault>
    ensures call { IfOk result (λ more. call_pending more ≡ calling call.name
        (map tree_of call.arguments.items ++ tree_of argument.expr ∷ []) call.first) }
    ensures fault { IfErr result (λ fault. fault ≡ no_memory) }
{
    let Calling {
        name,
        mut arguments,
        deep,
        first,
    } = call;
    arguments.push(argument.expr)?;
    Ok(Calling {
        name,
        arguments,
        deep: deep.max(argument.deep),
        first,
    })
}

/// The operand that a call with all its arguments is.
pub fn called(whole: Calling) -> Operand
    requires { whole.deep < max_expression_depth }
    ensures tree { tree_of result.expr ≡ call whole.name
        (given_before (map tree_of whole.arguments.items) no_arguments) whole.first }
    ensures first { result.first ≡ whole.first }
{
    let Calling {
        name,
        arguments,
        deep,
        first,
    } = whole;
    Operand {
        expr: Expr::Call(name, arguments, first),
        first,
        deep: deep + 1,
    }
}
