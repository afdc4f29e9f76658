//! Names and kinds: what an expression means in a scope, or where it means nothing.
//! A checked expression is well kinded, so that evaluation needs no test of kinds.
//! A new form of the tree gets its rule here, and in `specs/Checking`.

ghost use Rattle.std.specs.Prelude.{◌≡◌, ◌≢◌, [], ◌∷◌, ◌++◌, length, IfOk, IfErr, MatchOption, MatchResult, Ok, Err, Some, map};
ghost use Rattle.ob_expr.specs.declared.checker.TypeFault.TheVariants.{NoMemory as no_memory};
ghost use Rattle.ob_expr.specs.Chain.{each};
ghost use Rattle.ob_expr.specs.Checking.{AreFound, beside, both, called, counted, gathered, is_row_id, links_of, of_kind, operated, part_of, part_over, prefixed, route_of, step_of, step_route, targets_of, typed_of, unset_beside};
ghost use Rattle.ob_expr.specs.Parts.{TellsParts, TellsTree, given_of};
ghost use Rattle.ob_expr.specs.Told.{TellsPair, TellsPart, part_tree};
ghost use Rattle.ob_expr.specs.TypedTree.{IsWellKinded, typed_tree_of};
ghost use Rattle.ob_base.specs.Syntax.{tree_of};

use crate::function::{Function, function_of, over_targets};
use crate::kind::{Found, Kind, Scope};
use crate::operand::{prefix_kind, takes};
use crate::typed::{Aggregate, Extreme, Link, Path, Typed};
use ob_base::{Expr, FieldNo, ModelNo, NoMemory, Operator, Prefix, Word, call_order};
use std::alloc::{AllocFailed, Global};
use thiserror::Error;

/// Why an expression means nothing in a scope. A fault names the offset of a token.
#[derive(Clone, Copy, Debug, PartialEq, Eq, Error)]
pub enum TypeFault {
    /// The name stands for no field that may be used here, or for no function.
    #[error("no such name at byte {0}")]
    Name(u32),
    /// The part that begins here has parts of other kinds than it takes.
    #[error("wrong kind at byte {0}")]
    Kind(u32),
    #[error("no memory")]
    NoMemory,
}

impl From<NoMemory> for TypeFault {
    ghost from_gives = { λ _ fault. fault ≡ no_memory };

    fn from(_error: NoMemory) -> TypeFault {
        TypeFault::NoMemory
    }
}

impl<T: Drop> From<AllocFailed<T>> for TypeFault {
    ghost from_gives = { λ _ fault. fault ≡ no_memory };

    fn from(_error: AllocFailed<T>) -> TypeFault {
        TypeFault::NoMemory
    }
}

/// Resolves the names of an expression over the fields of a model, and checks kinds.
/// The first wrong part is told, parts before the whole and from the left: a path at a name
/// that stands for nothing there, any other part where its parts' kinds don't fit.
pub fn check<S: Scope>(
    alloc: Global,
    expr: &Expr,
    scope: &S,
    model: ModelNo,
) -> Result<Typed, TypeFault>
    ensures typed { IfOk result
        (λ typed. typed_of (S.finds scope.now) model (tree_of expr.now) ≡ Ok (typed_tree_of typed)) }
    ensures fault { IfErr result
        (λ fault. fault ≢ no_memory
        → typed_of (S.finds scope.now) model (tree_of expr.now) ≡ Err fault) }

    // What follows for whoever evaluates it.
    ensures kinded { IfOk result (λ typed. IsWellKinded (typed_tree_of typed)) }
    ensures found { IfOk result (λ typed. AreFound (S.finds scope.now) model (typed_tree_of typed)) }
{
    let Some(typed) = check_part(alloc, expr, scope, model)? else {
        return Err(TypeFault::Kind(expr.first()));
    };
    Ok(typed)
}

/// The checked part; none for `unset`, which has no kind of its own.
#[cycle(parts)]
fn check_part<S: Scope>(
    alloc: Global,
    expr: &Expr,
    scope: &S,
    model: ModelNo,
) -> Result<Option<Typed>, TypeFault>
    ensures { TellsPart result (part_of (S.finds scope.now) model (tree_of expr.now)) }
{
    match expr {
        Expr::Integer(number, _) => Ok(Some(Typed::Integer(*number))),
        Expr::Text(text, _) => Ok(Some(Typed::Text(text.try_clone(alloc)?))),
        Expr::Truth(flag, _) => Ok(Some(Typed::Truth(*flag))),
        Expr::Unset(_) => Ok(None),
        Expr::Path(names, at) => {
            if is_row_id(names) {
                return Ok(Some(Typed::Id));
            }
            let path = check_path(alloc, names, *at, scope, model)?;
            Ok(Some(Typed::Path(path)))
        }
        Expr::Prefix(prefix, inner, at) => {
            let inner = check_part(alloc, inner, scope, model)?;
            prefixed(alloc, *prefix, inner, *at)
        }
        Expr::Binary(operator, left, right, at) => {
            let left = check_part(alloc, left, scope, model)?;
            let right = check_part(alloc, right, scope, model)?;
            operated(alloc, *operator, left, right, *at)
        }
        Expr::Call(name, arguments, at) => {
            // The law that a call's tree has its arguments in their order.
            call_order();
            let function = function_of(name.as_str());
            if let Some(aggregate) = over_targets(function) {
                return check_over(alloc, aggregate, arguments, *at, scope, model);
            }
            let parts = check_all(alloc, arguments, scope, model)?;
            called(alloc, function, parts, *at)
        }
    }
}

/// The checked arguments, in their turn.
#[cycle(parts)]
fn check_all<S: Scope>(
    alloc: Global,
    arguments: &[Expr],
    scope: &S,
    model: ModelNo,
) -> Result<Vec<Option<Typed>>, TypeFault>
    ensures { TellsParts result
        (each (λ argument. part_of (S.finds scope.now) model (tree_of argument)) arguments.now) }
{
    let mut parts = Vec::new(alloc);
    for argument in arguments {
        parts.push(check_part(alloc, argument, scope, model)?)?;
    }
    Ok(parts)
}

/// A call of a function over targets: its second argument is checked in their model.
#[cycle(parts)]
fn check_over<S: Scope>(
    alloc: Global,
    aggregate: Aggregate,
    arguments: &[Expr],
    at: u32,
    scope: &S,
    model: ModelNo,
) -> Result<Option<Typed>, TypeFault>
    ensures { TellsPart result (part_over (S.finds scope.now) aggregate model (given_of arguments.now) at) }
{
    let [first, rest @ ..] = arguments else {
        return Err(TypeFault::Kind(at));
    };
    let targets = check_part(alloc, first, scope, model)?;
    let (path, target) = targets_of(targets, at)?;
    let [inner, more @ ..] = rest else {
        return counted(alloc, aggregate, path, target, at);
    };
    let inner = check_part(alloc, inner, scope, target)?;
    if !more.is_empty() {
        return Err(TypeFault::Kind(at));
    }
    gathered(alloc, aggregate, path, target, inner, at)
}

/// Whether names are `id` alone.
fn is_row_id(names: &[Word]) -> bool
    ensures { result ≡ is_row_id names.now }
{
    match names {
        [name] => name.as_str() == "id",
        _ => false,
    }
}

/// The path that names stand for, from a model on.
fn check_path<S: Scope>(
    alloc: Global,
    names: &[Word],
    at: u32,
    scope: &S,
    model: ModelNo,
) -> Result<Path, TypeFault>
    ensures { MatchResult result
        (λ path. route_of (S.finds scope.now) at model names.now ≡ Ok path)
        (λ fault. fault ≢ no_memory → route_of (S.finds scope.now) at model names.now ≡ Err fault) }
{
    let mut links = Vec::new(alloc);
    let mut model = model;
    let mut rest = names;
    while let [name, behind @ ..] = rest {
        let found = usable(scope.field(model, name.as_str()), at)?;
        add_link(&mut links, found.via)?;
        if behind.is_empty() {
            return Ok(Path::new(links, found.field, found.kind));
        }
        let Kind::Ref(target) = found.kind else {
            return Err(TypeFault::Kind(at));
        };
        links.push(Link {
            field: found.field,
            target,
        })?;
        model = target;
        rest = behind;
    }
    Err(TypeFault::Name(at))
}

/// Adds the link of a delegated field.
fn add_link(links: &mut Vec<Link>, via: Option<(FieldNo, ModelNo)>) -> Result<(), TypeFault>
    ensures { MatchResult result
        (λ _. links.new.items ≡ links.old.items ++ links_of via)
        (λ fault. fault ≡ no_memory) }
{
    if let Some((field, target)) = via {
        links.push(Link { field, target })?;
    }
    Ok(())
}

/// What a name stands for, where expressions may name it.
fn usable(found: Option<Found>, at: u32) -> Result<Found, TypeFault>
    ensures { MatchResult result
        (λ f. step_of at found ≡ Ok (step_route f))
        (λ fault. step_of at found ≡ Err fault) }
{
    match found {
        Some(found) if found.usable => Ok(found),
        _ => Err(TypeFault::Name(at)),
    }
}

/// A part of a kind.
fn of_kind(part: Option<Typed>, kind: Kind, at: u32) -> Result<Typed, TypeFault>
    ensures { TellsTree result (of_kind at kind (part_tree part)) }
{
    let Some(part) = part else {
        return Err(TypeFault::Kind(at));
    };
    if part.kind() == kind {
        Ok(part)
    } else {
        Err(TypeFault::Kind(at))
    }
}

/// A prefix before its operand.
fn prefixed(
    alloc: Global,
    prefix: Prefix,
    inner: Option<Typed>,
    at: u32,
) -> Result<Option<Typed>, TypeFault>
    ensures { TellsPart result (prefixed at prefix (part_tree inner)) }
{
    let inner = of_kind(inner, prefix_kind(prefix), at)?;
    Ok(Some(Typed::Prefix(prefix, Box::new(alloc, inner)?)))
}

/// An operator between its operands.
fn operated(
    alloc: Global,
    operator: Operator,
    left: Option<Typed>,
    right: Option<Typed>,
    at: u32,
) -> Result<Option<Typed>, TypeFault>
    ensures { TellsPart result (operated at operator (part_tree left) (part_tree right)) }
{
    let (left, right) = match operator {
        Operator::Equal | Operator::NotEqual => beside(left, right, at)?,
        _ => both(left, right, at)?,
    };
    if !takes(operator, left.kind()) {
        return Err(TypeFault::Kind(at));
    }
    let left = Box::new(alloc, left)?;
    let right = Box::new(alloc, right)?;
    Ok(Some(Typed::Binary(operator, left, right)))
}

/// Two operands of one kind.
fn both(left: Option<Typed>, right: Option<Typed>, at: u32) -> Result<(Typed, Typed), TypeFault>
    ensures { TellsPair result (both at (part_tree left) (part_tree right)) }
{
    let Some(left) = left else {
        return Err(TypeFault::Kind(at));
    };
    let Some(right) = right else {
        return Err(TypeFault::Kind(at));
    };
    if left.kind() == right.kind() {
        Ok((left, right))
    } else {
        Err(TypeFault::Kind(at))
    }
}

/// Two operands of one kind, or one beside `unset`.
fn beside(left: Option<Typed>, right: Option<Typed>, at: u32) -> Result<(Typed, Typed), TypeFault>
    ensures { TellsPair result (beside at (part_tree left) (part_tree right)) }
{
    match (left, right) {
        (Some(left), None) => {
            let unset = unset_beside(&left, at)?;
            Ok((left, unset))
        }
        (None, Some(right)) => {
            let unset = unset_beside(&right, at)?;
            Ok((unset, right))
        }
        (left, right) => both(left, right, at),
    }
}

/// `unset`, of the kind of what it stands beside.
fn unset_beside(part: &Typed, at: u32) -> Result<Typed, TypeFault>
    ensures { TellsTree result (unset_beside at (typed_tree_of part.now)) }
{
    if part.kind().can_be_unset() {
        Ok(Typed::Unset(part.kind()))
    } else {
        Err(TypeFault::Kind(at))
    }
}

/// A call of a function that takes values.
fn called(
    alloc: Global,
    function: Option<Function>,
    parts: Vec<Option<Typed>>,
    at: u32,
) -> Result<Option<Typed>, TypeFault>
    ensures { TellsPart result (called at function (map part_tree parts.items)) }
{
    match function {
        None => Err(TypeFault::Name(at)),
        Some(Function::Cat) => joined(alloc, parts, at),
        Some(Function::If) => chosen_part(alloc, parts, at),
        Some(Function::Text) => digits(alloc, parts, at),
        Some(Function::Chosen(which)) => extreme(alloc, which, parts, at),
        Some(Function::Over(_)) => Err(TypeFault::Kind(at)),
    }
}

/// `cat` with its texts.
fn joined(alloc: Global, parts: Vec<Option<Typed>>, at: u32) -> Result<Option<Typed>, TypeFault>
    ensures { TellsPart result (called at (Some Function.Cat) (map part_tree parts.items)) }
{
    let mut texts = Vec::new(alloc);
    for part in parts {
        texts.push(of_kind(part, Kind::Word, at)?)?;
    }
    Ok(Some(Typed::Joined(texts)))
}

/// `if` with its condition and two parts of one kind.
fn chosen_part(
    alloc: Global,
    parts: Vec<Option<Typed>>,
    at: u32,
) -> Result<Option<Typed>, TypeFault>
    ensures { TellsPart result (called at (Some Function.If) (map part_tree parts.items)) }
{
    let Some((condition, first, second)) = three_of(parts) else {
        return Err(TypeFault::Kind(at));
    };
    let condition = of_kind(condition, Kind::Bool, at)?;
    let (first, second) = beside(first, second, at)?;
    Ok(Some(Typed::If(
        Box::new(alloc, condition)?,
        Box::new(alloc, first)?,
        Box::new(alloc, second)?,
    )))
}

/// `text` with its integer.
fn digits(alloc: Global, parts: Vec<Option<Typed>>, at: u32) -> Result<Option<Typed>, TypeFault>
    ensures { TellsPart result (called at (Some Function.Text) (map part_tree parts.items)) }
{
    let Some(number) = one_of(parts) else {
        return Err(TypeFault::Kind(at));
    };
    let number = of_kind(number, Kind::Int, at)?;
    Ok(Some(Typed::Digits(Box::new(alloc, number)?)))
}

/// `min2` or `max2` with its two integers.
fn extreme(
    alloc: Global,
    which: Extreme,
    parts: Vec<Option<Typed>>,
    at: u32,
) -> Result<Option<Typed>, TypeFault>
    ensures { TellsPart result (called at (Some (Function.Chosen which)) (map part_tree parts.items)) }
{
    let Some((first, second)) = two_of(parts) else {
        return Err(TypeFault::Kind(at));
    };
    let first = of_kind(first, Kind::Int, at)?;
    let second = of_kind(second, Kind::Int, at)?;
    let first = Box::new(alloc, first)?;
    Ok(Some(Typed::Chosen(which, first, Box::new(alloc, second)?)))
}

/// The one part.
fn one_of(parts: Vec<Option<Typed>>) -> Option<Option<Typed>>
    ensures { MatchOption result (length parts.items ≢ 1) (λ one. parts.items ≡ one ∷ []) }
{
    let mut parts = parts.into_iter();
    let one = parts.next()?;
    if parts.len() == 0 { Some(one) } else { None }
}

/// The two parts.
fn two_of(parts: Vec<Option<Typed>>) -> Option<(Option<Typed>, Option<Typed>)>
    ensures { MatchOption result (length parts.items ≢ 2) (λ two. parts.items ≡ two.0 ∷ two.1 ∷ []) }
{
    let mut parts = parts.into_iter();
    let first = parts.next()?;
    let second = parts.next()?;
    if parts.len() == 0 {
        Some((first, second))
    } else {
        None
    }
}

/// The three parts.
fn three_of(parts: Vec<Option<Typed>>) -> Option<(Option<Typed>, Option<Typed>, Option<Typed>)>
    ensures { MatchOption result (length parts.items ≢ 3)
        (λ three. parts.items ≡ three.0 ∷ three.1 ∷ three.2 ∷ []) }
{
    let mut parts = parts.into_iter();
    let first = parts.next()?;
    let second = parts.next()?;
    let third = parts.next()?;
    if parts.len() == 0 {
        Some((first, second, third))
    } else {
        None
    }
}

/// The path to targets, and their model.
fn targets_of(part: Option<Typed>, at: u32) -> Result<(Path, ModelNo), TypeFault>
    ensures { result ≡ targets_of at (part_tree part) }
{
    let Some(Typed::Path(path)) = part else {
        return Err(TypeFault::Kind(at));
    };
    let Kind::Refs(target) = path.kind() else {
        return Err(TypeFault::Kind(at));
    };
    Ok((path, target))
}

/// What is made of targets alone: `count` counts them all.
fn counted(
    alloc: Global,
    aggregate: Aggregate,
    path: Path,
    target: ModelNo,
    at: u32,
) -> Result<Option<Typed>, TypeFault>
    ensures { TellsPart result (counted at aggregate path target) }
{
    match aggregate {
        Aggregate::Count => {
            let each = Box::new(alloc, Typed::Truth(true))?;
            Ok(Some(Typed::Over(Aggregate::Count, path, target, each)))
        }
        _ => Err(TypeFault::Kind(at)),
    }
}

/// What is made of values at targets.
fn gathered(
    alloc: Global,
    aggregate: Aggregate,
    path: Path,
    target: ModelNo,
    inner: Option<Typed>,
    at: u32,
) -> Result<Option<Typed>, TypeFault>
    ensures { TellsPart result (gathered at aggregate path target (part_tree inner)) }
{
    match inner {
        Some(inner) if aggregate.gathers(inner.kind()) => {
            let inner = Box::new(alloc, inner)?;
            Ok(Some(Typed::Over(aggregate, path, target, inner)))
        }
        _ => Err(TypeFault::Kind(at)),
    }
}
