//! What is open while a text is read: the operators, parentheses and calls whose last operand
//! isn't there yet. It counts the nodes round the next operand, so that a token is known to be
//! too deep when it comes, in one step.

ghost use Rattle.std.specs.Prelude.{◌≡◌, ◌+◌, ◌<◌, ◌≤◌, ◌∷◌, [], Some, IfOk, IfErr, MatchOption};
ghost use Rattle.ob_base.specs.Limits.{max_expression_depth};
ghost use Rattle.ob_base.specs.declared.expr_fault.ExprFault.TheVariants.{NoMemory as no_memory};
ghost use Rattle.ob_base.specs.Syntax.{tree_of};
ghost use Rattle.ob_syntax.specs.Parsing.{closed as closed_read, closes_at, ended_in, had, least, made, made_first, next_in, takes, wanted, within};
ghost use Rattle.ob_syntax.specs.Waits.{Tells, all_pending, pending, read_of};

use crate::frame::{Frame, Operand};
use crate::node::{called, closed, with_argument};
use ob_base::ExprFault;
use ob_base::limits::MAX_EXPRESSION_DEPTH;
use std::alloc::Global;
use std::marker::Model;

/// What is open, the innermost last, and how many nodes all of it makes round an operand.
#[derive(Drop)]
pub struct Stack {
    frames: Vec<Frame>,
    nodes: usize,
}

impl Model for Stack {
    ghost use Rattle.std.specs.Prelude.{◌≡◌, ◌≤◌, List, reverse};
    ghost use Rattle.ob_base.specs.Limits.{max_expression_depth};
    ghost use Rattle.std.specs.Coded.{codes};
    ghost use Rattle.ob_syntax.specs.contracts.frame.Frame as e;
    ghost use Rattle.ob_syntax.specs.declared.frame.Frame.{Frame};
    ghost use Rattle.ob_syntax.specs.Parsing.{least, nodes_of};
    ghost use Rattle.ob_syntax.specs.Waits.{all_pending};

    ghost Value = { List Frame };

    ghost coded = { Prim.hlevel (codes, e.the_row.coded) };

    ghost view = { λ s. reverse s.frames.items };

    ghost invariant = { λ s. (s.nodes ≡ nodes_of (all_pending (reverse s.frames.items)))
        × (least (all_pending (reverse s.frames.items)) 1 ≤ max_expression_depth) };
}

impl Stack {
    /// Nothing is open.
    pub fn new(alloc: Global) -> Stack
        ensures { result ≡ [] }
    {
        Stack {
            frames: Vec::new(alloc),
            nodes: 0,
        }
    }

    /// How tightly the operand that comes next binds at least.
    pub fn takes(&self) -> usize
        ensures { result ≡ takes (all_pending self.now) }
    {
        match self.frames.last() {
            Some(frame) => frame.takes(),
            None => 0,
        }
    }

    /// Whether the innermost frame's node binds as tightly as a level.
    fn closes(&self, level: usize) -> bool
        ensures { result ≡ closes_at level (all_pending self.now) }
    {
        match self.frames.last() {
            Some(frame) => frame.closes(level),
            None => false,
        }
    }

    /// Opens a frame with the token at an offset, unless the whole then nests too deep with
    /// the least operand.
    pub fn push(&mut self, frame: Frame, at: u32) -> Result<(), ExprFault>
        ensures { Tells result
            (within max_expression_depth at (Some (wanted (pending frame ∷ all_pending self.old))))
            (λ _. wanted (all_pending self.new)) }
    {
        let nodes = self.nodes + frame.nodes();
        if frame.part().max(1) > MAX_EXPRESSION_DEPTH - nodes {
            return Err(ExprFault::TooDeep(at));
        }
        self.frames.push(frame)?;
        self.nodes = nodes;
        Ok(())
    }

    /// Takes the innermost frame.
    pub fn pop(&mut self) -> Option<Frame>
        ensures { MatchOption result
            ((self.old ≡ []) × (self.new ≡ []))
            (λ frame. self.old ≡ frame ∷ self.new) }
    {
        let frame = self.frames.pop()?;
        self.nodes -= frame.nodes();
        Some(frame)
    }

    /// Closes each frame whose node binds as tightly as a level, the innermost first.
    pub fn close(
        &mut self,
        alloc: Global,
        operand: Operand,
        level: usize,
    ) -> Result<Operand, ExprFault>
        requires { least (all_pending self.old) operand.deep ≤ max_expression_depth }
        ensures read { IfOk result (λ operand'. read_of (all_pending self.new) operand'
            ≡ closed_read level (all_pending self.old) (tree_of operand.expr) operand.first) }
        ensures fits { IfOk result (λ operand'. least (all_pending self.new) operand'.deep
            ≤ max_expression_depth) }
        ensures fault { IfErr result (λ fault. fault ≡ no_memory) }
    {
        let mut operand = operand;
        while self.closes(level) {
            let Some(frame) = self.pop() else {
                return Ok(operand);
            };
            operand = closed(alloc, frame, operand)?;
        }
        Ok(operand)
    }

    /// A comma at an offset: an argument has ended, and the next one is wanted.
    pub fn next_argument(&mut self, argument: Operand, at: u32) -> Result<(), ExprFault>
        ensures { Tells result
            (within max_expression_depth at (next_in (all_pending self.old) (tree_of argument.expr)))
            (λ _. wanted (all_pending self.new)) }
    {
        match self.pop() {
            Some(Frame::Call(call)) => {
                let call = with_argument(call, argument)?;
                self.push(Frame::Call(call), at)
            }
            _ => Err(ExprFault::At(at)),
        }
    }

    /// A closing parenthesis at an offset: the operand that the group or the call is.
    pub fn end_group(&mut self, last: Operand, at: u32) -> Result<Operand, ExprFault>
        requires { least (all_pending self.old) last.deep ≤ max_expression_depth }
        ensures { Tells result
            (within max_expression_depth at (ended_in (all_pending self.old) (tree_of last.expr)))
            (λ operand. had (read_of (all_pending self.new) operand)) }
    {
        match self.pop() {
            Some(Frame::Group(first)) => Ok(Operand {
                expr: last.expr,
                first,
                deep: last.deep,
            }),
            Some(Frame::Call(call)) => Ok(called(with_argument(call, last)?)),
            _ => Err(ExprFault::At(at)),
        }
    }
}
