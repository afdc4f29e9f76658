//! Reading a tree from a text: an automaton that takes one token at a time and keeps what is
//! open on a stack of its own, so that no text is too long for the machine's stack. How
//! tightly each operator binds stands in `specs/Grammar`, and the frames in `stack`.

ghost use Rattle.std.specs.Prelude.{ℕ, List, ◌≡◌, ◌≤◌, ◌++◌, ◌∷◌, [], IfErr, IfOk, IsErrOf, MatchResult, Some, length};
ghost use Rattle.ob_base.specs.declared.expr_fault.ExprFault.TheVariants.{NoMemory as no_memory};
ghost use Rattle.ob_base.specs.Limits.{max_expression_bytes, max_expression_depth};
ghost use Rattle.ob_base.specs.Syntax.{Tree, depth, path as a_path, tree_of};
ghost use Rattle.ob_syntax.specs.Grammar.{IsExpression, IsFirstFault, IsFirstTooDeep, SpellAtMostOneTree};
ghost use Rattle.ob_syntax.specs.Lexemes.{Lexeme, lexeme_of, lexemes, offset_of};
ghost use Rattle.ob_syntax.specs.Parsing.{Pending, begun, behind_dot, behind_name, called_by, closed, closing, finished_by, gone_on, joined_by, least, named as a_named, need, parsed, prefixed, stepped, wanted, within};
ghost use Rattle.ob_syntax.specs.Waits.{Tells, all_pending, pending, read_of, state_of};

use crate::frame::{Calling, Frame, Operand, left_operand_level, operator_level, prefix_level};
use crate::lexeme::{Lexer, Token};
use crate::sign::Sign;
use crate::stack::Stack;
use ob_base::{Expr, ExprFault, Operator, Prefix, Word};
use std::alloc::Global;

/// Reads the expression that a text spells.
pub fn parse(alloc: Global, text: &str) -> Result<Expr, ExprFault>
    requires { length text.now ≤ max_expression_bytes }

    ensures spelled { IfOk result (λ expr. IsExpression (tree_of expr) (lexemes text.now)) }
    ensures shallow { IfOk result (λ expr. depth (tree_of expr) ≤ max_expression_depth) }
    ensures complete { (tree : Tree) → IsExpression tree (lexemes text.now)
        → depth tree ≤ max_expression_depth
        → MatchResult result (λ expr. tree_of expr ≡ tree)
        (λ fault. fault ≡ ExprFault.NoMemory) }

    ensures at { (offset : ℕ) → IsErrOf result (ExprFault.At offset)
        → IsFirstFault (length text.now) (lexemes text.now) offset }
    ensures too_deep { (offset : ℕ) → IsErrOf result (ExprFault.TooDeep offset)
        → IsFirstTooDeep (lexemes text.now) offset }
{
    read(alloc, Lexer::new(text))
}

/// No tokens spell two expressions, however deep they nest: so a text spells at most one.
pub fn one_tree()
    ensures { (tokens : List Lexeme) → SpellAtMostOneTree tokens }
{}

/// What the token before leaves.
#[derive(Drop)]
enum State {
    /// An operand is wanted.
    Wanted,
    /// A path, so far; the last token was a name.
    Named(Vec<Word>, u32),
    /// A path, so far; the last token was a dot.
    Dotted(Vec<Word>, u32),
    /// An operand is there.
    Had(Operand),
}

/// Reads the tokens to the end of the text.
fn read(alloc: Global, mut lexer: Lexer<'_>) -> Result<Expr, ExprFault>
    ensures { Tells result
        (parsed max_expression_depth lexer.entry.end lexer.entry.tokens)
        (λ expr. tree_of expr) }
{
    let end = lexer.end();
    let mut stack = Stack::new(alloc);
    let mut state = State::Wanted;
    while let Some(token) = lexer.next() {
        state = step(alloc, &mut stack, state, token)?;
    }
    finish(alloc, &mut stack, state, end)
}

/// One token further.
fn step(
    alloc: Global,
    stack: &mut Stack,
    state: State,
    token: Token<'_>,
) -> Result<State, ExprFault>
    requires { need (state_of (all_pending stack.old) state) ≤ max_expression_depth }
    ensures { Tells result
        (stepped max_expression_depth (state_of (all_pending stack.old) state) (lexeme_of token.entry))
        (λ next. state_of (all_pending stack.new) next) }
{
    match state {
        State::Wanted => begin(alloc, stack, token),
        State::Named(names, first) => name_goes_on(alloc, stack, names, first, token),
        State::Dotted(names, first) => dot_goes_on(alloc, names, first, token),
        State::Had(operand) => operand_goes_on(alloc, stack, operand, token),
    }
}

/// The text has ended.
fn finish(alloc: Global, stack: &mut Stack, state: State, end: u32) -> Result<Expr, ExprFault>
    requires { need (state_of (all_pending stack.old) state) ≤ max_expression_depth }
    ensures { Tells result
        (finished_by end (closing 0 (state_of (all_pending stack.old) state)))
        (λ expr. tree_of expr) }
{
    match state {
        State::Named(names, first) => close_all(alloc, stack, path(names, first), end),
        State::Had(operand) => close_all(alloc, stack, operand, end),
        State::Wanted | State::Dotted(..) => Err(ExprFault::At(end)),
    }
}

/// The text has ended behind an operand: nothing may wait for it.
fn close_all(
    alloc: Global,
    stack: &mut Stack,
    operand: Operand,
    end: u32,
) -> Result<Expr, ExprFault>
    requires { least (all_pending stack.old) operand.deep ≤ max_expression_depth }
    ensures { Tells result
        (finished_by end (Some (closed 0 (all_pending stack.old)
        (tree_of operand.expr) operand.first)))
        (λ expr. tree_of expr) }
{
    let operand = stack.close(alloc, operand, 0)?;
    match stack.pop() {
        None => Ok(operand.expr),
        Some(_) => Err(ExprFault::At(end)),
    }
}

/// The operand that a path is.
fn path(names: Vec<Word>, first: u32) -> Operand
    ensures tree { tree_of result.expr ≡ a_path names.items first }
    ensures first { result.first ≡ first }
    ensures deep { result.deep ≡ 1 }
{
    Operand {
        expr: Expr::Path(names, first),
        first,
        deep: 1,
    }
}

/// A token where an operand is wanted.
fn begin(alloc: Global, stack: &mut Stack, token: Token<'_>) -> Result<State, ExprFault>
    requires { least (all_pending stack.old) 1 ≤ max_expression_depth }
    ensures { Tells result
        (within max_expression_depth (offset_of (lexeme_of token.entry))
        (begun (all_pending stack.old) (lexeme_of token.entry)))
        (λ next. state_of (all_pending stack.new) next) }
{
    let (expr, first) = match token {
        Token::Number(number, at) => (Expr::Integer(number, at), at),
        Token::Text(text, at) => (Expr::Text(Word::from_text(alloc, text)?, at), at),
        Token::Sign(Sign::Truth(flag), at) => (Expr::Truth(flag, at), at),
        Token::Sign(Sign::Unset, at) => (Expr::Unset(at), at),
        Token::Name(name, at) => return named(alloc, Vec::new(alloc), name, at),
        Token::Sign(Sign::Open, at) => return opened(stack, Frame::Group(at), at),
        Token::Sign(Sign::Operator(Operator::Subtract), at) => {
            return before(stack, Prefix::Minus, at);
        }
        Token::Sign(Sign::Not, at) => return before(stack, Prefix::Not, at),
        other => return Err(ExprFault::At(other.offset())),
    };
    Ok(State::Had(Operand {
        expr,
        first,
        deep: 1,
    }))
}

/// Opens a frame.
fn opened(stack: &mut Stack, frame: Frame, at: u32) -> Result<State, ExprFault>
    ensures { Tells result
        (within max_expression_depth at (Some (wanted (pending frame ∷ (all_pending stack.old)))))
        (λ next. state_of (all_pending stack.new) next) }
{
    stack.push(frame, at)?;
    Ok(State::Wanted)
}

/// A prefix where an operand is wanted.
fn before(stack: &mut Stack, prefix: Prefix, at: u32) -> Result<State, ExprFault>
    ensures { Tells result
        (within max_expression_depth at (prefixed prefix at (all_pending stack.old)))
        (λ next. state_of (all_pending stack.new) next) }
{
    if stack.takes() > prefix_level(prefix) {
        return Err(ExprFault::At(at));
    }
    opened(stack, Frame::Prefix(prefix, at), at)
}

/// A path with one name more.
fn named(alloc: Global, mut names: Vec<Word>, name: &str, first: u32) -> Result<State, ExprFault>
    ensures path { IfOk result (λ state. (waiting : List Pending) → state_of waiting state
        ≡ a_named waiting (names.items ++ name.now ∷ []) first) }
    ensures fault { IfErr result (λ fault. fault ≡ no_memory) }
{
    names.push(Word::from_text(alloc, name)?)?;
    Ok(State::Named(names, first))
}

/// A token behind a name: the path goes on, a function has its arguments, or an operand ends.
fn name_goes_on(
    alloc: Global,
    stack: &mut Stack,
    names: Vec<Word>,
    first: u32,
    token: Token<'_>,
) -> Result<State, ExprFault>
    requires { least (all_pending stack.old) 1 ≤ max_expression_depth }
    ensures { Tells result
        (within max_expression_depth (offset_of (lexeme_of token.entry))
        (behind_name (all_pending stack.old) names.items first (lexeme_of token.entry)))
        (λ next. state_of (all_pending stack.new) next) }
{
    match token {
        Token::Sign(Sign::Dot, _) => Ok(State::Dotted(names, first)),
        Token::Sign(Sign::Open, at) => call(alloc, stack, names, first, at),
        token => operand_goes_on(alloc, stack, path(names, first), token),
    }
}

/// A parenthesis behind a name: a function has one name.
fn call(
    alloc: Global,
    stack: &mut Stack,
    mut names: Vec<Word>,
    first: u32,
    at: u32,
) -> Result<State, ExprFault>
    ensures { Tells result
        (within max_expression_depth at (called_by (all_pending stack.old) names.items first))
        (λ next. state_of (all_pending stack.new) next) }
{
    match names.pop() {
        Some(name) if names.is_empty() => {
            let call = Calling {
                name,
                arguments: Vec::new(alloc),
                deep: 0,
                first,
            };
            opened(stack, Frame::Call(call), at)
        }
        _ => Err(ExprFault::At(at)),
    }
}

/// A token behind a dot: a name.
fn dot_goes_on(
    alloc: Global,
    names: Vec<Word>,
    first: u32,
    token: Token<'_>,
) -> Result<State, ExprFault>
    ensures { (waiting : List Pending) → least waiting 1 ≤ max_expression_depth
        → Tells result
        (within max_expression_depth (offset_of (lexeme_of token.entry))
        (behind_dot waiting names.items first (lexeme_of token.entry)))
        (λ next. state_of waiting next) }
{
    match token {
        Token::Name(name, _) => named(alloc, names, name, first),
        other => Err(ExprFault::At(other.offset())),
    }
}

/// A token behind an operand.
fn operand_goes_on(
    alloc: Global,
    stack: &mut Stack,
    operand: Operand,
    token: Token<'_>,
) -> Result<State, ExprFault>
    requires { least (all_pending stack.old) operand.deep ≤ max_expression_depth }
    ensures { Tells result
        (within max_expression_depth (offset_of (lexeme_of token.entry))
        (gone_on (read_of (all_pending stack.old) operand) (lexeme_of token.entry)))
        (λ next. state_of (all_pending stack.new) next) }
{
    match token {
        Token::Sign(Sign::Operator(operator), at) => {
            let left = stack.close(alloc, operand, left_operand_level(operator))?;
            join(stack, operator, left, at)
        }
        Token::Sign(Sign::Comma, at) => {
            let last = stack.close(alloc, operand, 0)?;
            stack.next_argument(last, at)?;
            Ok(State::Wanted)
        }
        Token::Sign(Sign::Close, at) => {
            let last = stack.close(alloc, operand, 0)?;
            Ok(State::Had(stack.end_group(last, at)?))
        }
        other => Err(ExprFault::At(other.offset())),
    }
}

/// An operator behind its left operand.
fn join(stack: &mut Stack, operator: Operator, left: Operand, at: u32) -> Result<State, ExprFault>
    ensures { Tells result
        (within max_expression_depth at (joined_by operator (read_of (all_pending stack.old) left)))
        (λ next. state_of (all_pending stack.new) next) }
{
    if stack.takes() > operator_level(operator) {
        return Err(ExprFault::At(at));
    }
    opened(stack, Frame::Left(operator, left), at)
}
