//! Expressions: whether a text is one, its tree, and what it means over the models of
//! `fields`. `evaluations` asks for their values. A further call of ob_syntax or ob_expr gets
//! its word here.

ghost use Rattle.std.specs.Prelude.{◌≡◌, IfSome};
ghost use Rattle.ob_expr.specs.Checking.{AreFound};
ghost use Rattle.ob_expr.specs.TypedTree.{IsWellKinded, typed_tree_of};

use crate::fields::{Fields, Swapped, model_name, model_of};
use crate::told::joined;
use ob_base::limits::MAX_EXPRESSION_BYTES;
use ob_base::{Expr, ExprFault, ModelNo};
use ob_expr::{Kind, Path, Scope, TypeFault, Typed, check};
use ob_syntax::parse;
use probe_parts::told::Told;
use probe_parts::words::unescaped;
use std::alloc::Global;

/// Adds whether a text is an expression, or why it is none.
pub(crate) fn put_expression(alloc: Global, told: &mut Told, times: u32, text: &str) {
    let text = unescaped(alloc, told, text);
    for _ in 1..times {
        let _ = parsed(alloc, &mut Told::new(alloc), text.as_str());
    }
    if parsed(alloc, told, text.as_str()).is_some() {
        told.put("read");
    }
}

/// Adds whether pieces make an expression, or why they make none.
pub(crate) fn put_long_expression(alloc: Global, told: &mut Told, pieces: &str) {
    let text = joined(alloc, told, pieces);
    put_expression(alloc, told, 1, text.as_str());
}

/// Adds the offset of an expression's first token, how many names it is of, and its tree.
pub(crate) fn put_tree(alloc: Global, told: &mut Told, text: &str) {
    let text = unescaped(alloc, told, text);
    if let Some(expr) = parsed(alloc, told, text.as_str()) {
        put_parsed(told, &expr);
    }
}

/// Adds the offset of a tree's first token, how many names it is of, and the tree.
fn put_parsed(told: &mut Told, expr: &Expr) {
    let names = match expr.as_path() {
        Some(names) => names.len(),
        None => 0,
    };
    told.put_shown(&expr.first());
    told.put(" ");
    told.put_shown(&names);
    told.put(" ");
    told.put_debug(expr);
}

/// The expression that a text is; adds why it is none.
fn parsed(alloc: Global, told: &mut Told, text: &str) -> Option<Expr> {
    if text.len() > MAX_EXPRESSION_BYTES {
        told.put("too long");
        return None;
    }
    match parse(alloc, text) {
        Ok(expr) => Some(expr),
        Err(ExprFault::NoMemory) => {
            told.lack();
            None
        }
        Err(fault) => {
            told.put_shown(&fault);
            None
        }
    }
}

/// Adds the kind of an expression of a model, and the paths that it reads; where they are
/// swapped, `qty` and `price` have changed places in it.
pub(crate) fn put_kinds(
    alloc: Global,
    told: &mut Told,
    fields: &Fields,
    times: u32,
    is_swapped: bool,
    asked: &str,
) {
    let Some((model, text)) = asked.split_once(' ') else {
        return told.put("not asked");
    };
    let Some(model) = model_of(model) else {
        return told.put("not asked");
    };
    let text = unescaped(alloc, told, text);
    for _ in 1..times {
        let _ = checked(alloc, &mut Told::new(alloc), fields, model, text.as_str());
    }
    if let Some(mut typed) = checked(alloc, told, fields, model, text.as_str()) {
        if is_swapped {
            typed.renumber(&Swapped, model);
        }
        put_kind_and_paths(alloc, told, fields, &typed);
    }
}

/// What a text means in a model; adds why it means nothing.
pub(crate) fn checked(
    alloc: Global,
    told: &mut Told,
    fields: &Fields,
    model: ModelNo,
    text: &str,
) -> Option<Typed>
    ensures kinded { IfSome result (λ typed. IsWellKinded (typed_tree_of typed)) }
    ensures found { IfSome result (λ typed. AreFound (⟦<Fields as Scope>⟧.finds fields.now) model (typed_tree_of typed)) }
{
    let expr = parsed(alloc, told, text)?;
    match check(alloc, &expr, fields, model) {
        Ok(typed) => Some(typed),
        Err(TypeFault::NoMemory) => {
            told.lack();
            None
        }
        Err(fault) => {
            told.put_shown(&fault);
            None
        }
    }
}

/// Adds a kind, and the paths that are read.
fn put_kind_and_paths(alloc: Global, told: &mut Told, fields: &Fields, typed: &Typed) {
    put_kind(told, typed.kind());
    match typed.paths(alloc) {
        Ok(paths) => put_paths(told, fields, paths.as_slice()),
        Err(_) => told.lack(),
    }
}

/// Adds paths.
fn put_paths(told: &mut Told, fields: &Fields, paths: &[Path]) {
    for path in paths {
        put_path(told, fields, path);
    }
}

/// Adds a kind.
pub(crate) fn put_kind(told: &mut Told, kind: Kind) {
    match kind {
        Kind::Bool => told.put("Bool"),
        Kind::Int => told.put("Int"),
        Kind::Word => told.put("Word"),
        Kind::Day => told.put("Day"),
        Kind::Moment => told.put("Moment"),
        Kind::Ref(model) => put_of_model(told, "Ref:", model),
        Kind::Refs(model) => put_of_model(told, "Refs:", model),
    }
}

/// Adds a model's name behind a word.
fn put_of_model(told: &mut Told, word: &str, model: ModelNo) {
    told.put(word);
    told.put(model_name(model));
}

/// Adds a path, with a dot behind each link.
fn put_path(told: &mut Told, fields: &Fields, path: &Path) {
    told.put(" ");
    for link in path.links() {
        told.put(fields.name_of(link.field));
        told.put(".");
    }
    told.put(fields.name_of(path.field()));
}
