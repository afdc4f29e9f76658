//! The expressions of computed fields, checked, with the paths on which their values depend;
//! and what is wrong with them. What the language gains, it gains in `ob_expr`.

ghost use Rattle.std.specs.Prelude.{◌≡◌, ◌↔◌, ◌<◌, [], Any, IfOk, IsSome, IsTrue, MatchResult, Some, length, map, option_map, true, unwrap_or};
ghost use Rattle.ob_base.specs.Limits.{max_path_steps};
ghost use Rattle.ob_base.specs.Syntax.{tree_of};
ghost use Rattle.ob_expr.specs.TypedTree.{kind_of, typed_tree_of};
ghost use Rattle.ob_definition.specs.Findings.{Adds, IsFaultAt};
ghost use Rattle.ob_registry.specs.Building.{formula_from};
ghost use Rattle.ob_schema.specs.Finds.{kind_of_field};
ghost use Rattle.ob_schema.specs.Formulas.{HasFormula, HasTree, IsCovered, expression_text, paths_by_role};
ghost use Rattle.ob_definition.specs.Members.{is_own_computed, model_at};
ghost use Rattle.ob_registry.specs.ModelFields.{member_of};
ghost use Rattle.ob_schema.specs.Paths.{BeginsWith, path_from, split_path, steps_of_route};
ghost use Rattle.ob_registry.specs.Telling.{IsChecked, IsCoverWrong, IsFormulaFault, IsFormulaOf, IsPathWrong, IsReadingWrong, IsTextWrong, IsTreeOf, names_by, names_in, paths_by_names, reads_by, spot_of, steps_in, texts_in};

use crate::model::{Member, Role};
use crate::models::Models;
use crate::paths::{path_of, steps_along};
use ob_base::limits::{MAX_EXPRESSION_BYTES, MAX_PATH_STEPS};
use ob_base::{Expr, ExprFault, ModelNo, NoMemory, Sequence, Word};
use ob_definition::{FieldDef, First, Wrong};
use ob_expr::{TypeFault, Typed, check};
use ob_schema::{Formula, Path};
use ob_syntax::{one_tree, parse};
use std::alloc::Global;

/// What is known of a computed field's formula: the paths on which the field depends, and its
/// expression where that is right.
#[derive(Drop)]
pub(crate) struct DraftFormula {
    pub(crate) depends: Sequence<Path>,
    pub(crate) typed: Option<Typed>,
    pub(crate) stratum: u16,
}

/// The formula of a draft whose expression is right.
pub(crate) fn formula_from(draft: Option<DraftFormula>) -> Option<Formula>
    ensures { result ≡ formula_from draft }
{
    let draft = draft?;
    let typed = draft.typed?;
    Some(Formula {
        typed,
        depends: draft.depends,
        stratum: draft.stratum,
    })
}

/// What is known of the formula of a field of a model, if the field is computed.
pub(crate) fn formula_of(
    alloc: Global,
    models: &Models<'_>,
    number: ModelNo,
    member: &Member<'_>,
    first: &mut First,
) -> Result<Option<DraftFormula>, NoMemory>
    requires { IsSome (model_at models.now number.0) }
    ensures formula { IfOk result (IsFormulaOf
        (record { models = models.now; number = number; member = member_of member.now })) }
    ensures faults { IfOk result (λ _. Adds (IsFormulaFault
        (record { models = models.now; number = number; member = member_of member.now })) first.old first.new) }
{
    if !member.is_computed() {
        return Ok(None);
    }
    one_tree();
    let (expr, typed) = read(alloc, models, number, member, first)?;
    let names = declared_names(alloc, member.def, &expr)?;
    let declared = paths_of(alloc, models, number, member, names.as_slice(), first)?;
    let depends = depends_of(alloc, number, member, declared, &typed, first)?;
    let wrong = has_long(depends.as_slice()).then_some(Wrong::Limit);
    first.at_field(member.entry, member.def.name.as_str(), wrong)?;
    Ok(Some(DraftFormula {
        depends,
        typed,
        stratum: 0,
    }))
}

/// The text of a computed field's expression: its own, or the path of a related field.
fn expression_text(def: &FieldDef) -> &str
    ensures { result.now ≡ unwrap_or (expression_text def.now) [] }
{
    match (&def.compute, &def.related) {
        (Some(text), _) | (None, Some(text)) => text.as_str(),
        (None, None) => "",
    }
}

/// The expression of a computed field as far as it is right: as its text spells it, and
/// checked.
fn read(
    alloc: Global,
    models: &Models<'_>,
    number: ModelNo,
    member: &Member<'_>,
    first: &mut First,
) -> Result<(Option<Expr>, Option<Typed>), NoMemory>
    requires { is_own_computed (member_of member.now) ≡ true }
    ensures spelled { IfOk result
        (λ both. IsTreeOf member.now.def.now (option_map tree_of both.0)) }
    ensures checked { IfOk result (λ both. IsChecked
        (record { models = models.now; number = number; member = member_of member.now })
        (option_map tree_of both.0) (option_map typed_tree_of both.1)) }
    ensures faults { IfOk result (λ _. Adds (IsFaultAt (spot_of (member_of member.now))
        (IsReadingWrong (record { models = models.now; number = number; member = member_of member.now }))) first.old first.new) }
{
    one_tree();
    let name = member.def.name.as_str();
    let expr = match spelled(alloc, models, number, member)? {
        Ok(expr) => expr,
        Err(wrong) => {
            first.at_field(member.entry, name, Some(wrong))?;
            return Ok((None, None));
        }
    };
    match checked(alloc, models, number, member, &expr)? {
        Ok(typed) => Ok((Some(expr), Some(typed))),
        Err(wrong) => {
            first.at_field(member.entry, name, Some(wrong))?;
            Ok((Some(expr), None))
        }
    }
}

/// The expression that a computed field's text spells, or what is wrong with the text.
fn spelled(
    alloc: Global,
    models: &Models<'_>,
    number: ModelNo,
    member: &Member<'_>,
) -> Result<Result<Expr, Wrong>, NoMemory>
    requires { is_own_computed (member_of member.now) ≡ true }
    ensures { IfOk result (λ told. MatchResult told
        (λ expr. HasTree member.now.def.now (tree_of expr))
        (IsTextWrong (record { models = models.now; number = number; member = member_of member.now }))) }
{
    let text = expression_text(member.def);
    if text.len() > MAX_EXPRESSION_BYTES {
        return Ok(Err(Wrong::Limit));
    }
    let expr = match parse(alloc, text) {
        Ok(expr) => expr,
        Err(ExprFault::NoMemory) => return Err(NoMemory),
        Err(why) => return Ok(Err(Wrong::Text(why))),
    };
    if member.def.related.is_some() && expr.as_path().is_none() {
        return Ok(Err(Wrong::Text(ExprFault::At(expr.first()))));
    }
    Ok(Ok(expr))
}

/// The expression of a computed field, checked, or what is wrong with it.
fn checked(
    alloc: Global,
    models: &Models<'_>,
    number: ModelNo,
    member: &Member<'_>,
    expr: &Expr,
) -> Result<Result<Typed, Wrong>, NoMemory>
    requires computed { is_own_computed (member_of member.now) ≡ true }
    requires spelled { HasTree member.now.def.now (tree_of expr.now) }
    ensures { IfOk result (λ told. MatchResult told
        (λ typed. HasFormula (record { models = models.now; number = number; member = member_of member.now }) (tree_of expr.now) (typed_tree_of typed))
        (IsReadingWrong (record { models = models.now; number = number; member = member_of member.now }))) }
{
    let typed = match check(alloc, expr, models, number) {
        Ok(typed) => typed,
        Err(TypeFault::Kind(_)) => return Ok(Err(Wrong::Kind)),
        Err(TypeFault::Name(_)) => return Ok(Err(Wrong::Field)),
        Err(TypeFault::NoMemory) => return Err(NoMemory),
    };
    if has_kind(models, member.def, &typed) {
        Ok(Ok(typed))
    } else {
        Ok(Err(Wrong::Kind))
    }
}

/// Whether an expression is of the kind of a field.
fn has_kind(models: &Models<'_>, def: &FieldDef, typed: &Typed) -> bool
    ensures { IsTrue result ↔ (kind_of_field models.now def.now ≡ Some (kind_of (typed_tree_of typed.now))) }
{
    models.kind(def) == Some(typed.kind())
}

/// The paths that an expression reads, as steps, where it is right.
fn reads_of(
    alloc: Global,
    number: ModelNo,
    typed: &Option<Typed>,
) -> Result<Sequence<Path>, NoMemory>
    ensures { IfOk result
        (λ reads. steps_in reads ≡ reads_by number (option_map typed_tree_of typed.now)) }
{
    match typed {
        Some(typed) => steps_of_each(alloc, number, typed.paths(alloc)?.as_slice()),
        None => Ok(Sequence::new(alloc)),
    }
}

/// These paths as steps.
fn steps_of_each(
    alloc: Global,
    number: ModelNo,
    paths: &[ob_expr::Path],
) -> Result<Sequence<Path>, NoMemory>
    ensures { IfOk result (λ made. steps_in made ≡ map (steps_of_route number) paths.now) }
{
    let mut made = Sequence::new(alloc);
    for path in paths {
        made.push(steps_along(alloc, number, path)?)?;
    }
    Ok(made)
}

/// Whether a path has too many steps.
fn has_long(paths: &[Path]) -> bool
    ensures { IsTrue result ↔ Any (λ steps. max_path_steps < length steps) (steps_in paths.now) }
{
    paths.iter().any(|path| path.steps.len() > MAX_PATH_STEPS)
}

/// The names of the paths that a field declares: of a related field the one that its text
/// spells, if it spells any.
fn declared_names<'a>(
    alloc: Global,
    def: &'a FieldDef,
    expr: &'a Option<Expr>,
) -> Result<Vec<Vec<&'a str>>, NoMemory>
    ensures { IfOk result
        (λ names. names_in names.items ≡ names_by def.now (option_map tree_of expr.now)) }
{
    if def.related.is_none() {
        return split_all(alloc, depends(def));
    }
    let mut all = Vec::new(alloc);
    if let Some(names) = expr.as_ref().and_then(|expr| expr.as_path()) {
        all.push(texts_of(alloc, names)?)?;
    }
    Ok(all)
}

/// These names as texts.
fn texts_of<'a>(alloc: Global, names: &'a [Word]) -> Result<Vec<&'a str>, NoMemory>
    ensures { IfOk result (λ texts. texts_in texts.items ≡ names.now) }
{
    let mut texts = Vec::new(alloc);
    for name in names {
        texts.push(name.as_str())?;
    }
    Ok(texts)
}

/// The paths on which a field says it depends.
fn depends(def: &FieldDef) -> &[Word]
    ensures { result.now ≡ unwrap_or def.now.depends [] }
{
    match &def.depends {
        Some(paths) => paths.as_slice(),
        None => &[],
    }
}

/// The names of each of these paths.
fn split_all<'a>(alloc: Global, paths: &'a [Word]) -> Result<Vec<Vec<&'a str>>, NoMemory>
    ensures { IfOk result (λ all. names_in all.items ≡ map split_path paths.now) }
{
    let mut all = Vec::new(alloc);
    for path in paths {
        all.push(split_path(alloc, path.as_str())?)?;
    }
    Ok(all)
}

/// The names of a path.
fn split_path<'a>(alloc: Global, path: &'a str) -> Result<Vec<&'a str>, NoMemory>
    ensures { IfOk result (λ names. texts_in names.items ≡ split_path path.now) }
{
    let mut names = Vec::new(alloc);
    for name in path.split('.') {
        names.push(name)?;
    }
    Ok(names)
}

/// The paths on which a field depends: the declared ones, or those that a condition reads; and
/// what a right expression reads that is not declared.
fn depends_of(
    alloc: Global,
    number: ModelNo,
    member: &Member<'_>,
    declared: Sequence<Path>,
    typed: &Option<Typed>,
    first: &mut First,
) -> Result<Sequence<Path>, NoMemory>
    ensures paths { IfOk result (λ depends. steps_in depends ≡ paths_by_role
        (member_of member.now).role (reads_by number (option_map typed_tree_of typed.now)) (steps_in declared)) }
    ensures faults { IfOk result (λ depends. Adds (λ why. Any
        (λ read. IsFaultAt (spot_of (member_of member.now)) (IsCoverWrong (steps_in depends) read) why)
        (reads_by number (option_map typed_tree_of typed.now))) first.old first.new) }
{
    let reads = reads_of(alloc, number, typed)?;
    if matches!(member.role, Role::Hidden) {
        return Ok(reads);
    }
    note_uncovered(member, reads.as_slice(), declared.as_slice(), first)?;
    Ok(declared)
}

/// The declared paths that are paths, and what is wrong with the others.
fn paths_of(
    alloc: Global,
    models: &Models<'_>,
    number: ModelNo,
    member: &Member<'_>,
    paths: &[Vec<&str>],
    first: &mut First,
) -> Result<Sequence<Path>, NoMemory>
    requires { IsSome (model_at models.now number.0) }
    ensures paths { IfOk result
        (λ declared. steps_in declared ≡ paths_by_names models.now number (names_in paths.now)) }
    ensures faults { IfOk result (λ _. Adds (λ why. Any
        (λ path. IsFaultAt (spot_of (member_of member.now)) (IsPathWrong (path_from models.now number path)) why)
        (names_in paths.now)) first.old first.new) }
{
    let mut declared = Sequence::new(alloc);
    for names in paths {
        match path_of(alloc, models, number, names.as_slice())? {
            Ok(path) => declared.push(path)?,
            Err(wrong) => {
                first.at_field(member.entry, member.def.name.as_str(), Some(wrong))?;
            }
        }
    }
    Ok(declared)
}

/// Finds what is read and that no declared path covers.
fn note_uncovered(
    member: &Member<'_>,
    reads: &[Path],
    declared: &[Path],
    first: &mut First,
) -> Result<(), NoMemory>
    ensures { IfOk result (λ _. Adds (λ why. Any
        (λ read. IsFaultAt (spot_of (member_of member.now)) (IsCoverWrong (steps_in declared.now) read) why)
        (steps_in reads.now)) first.old first.new) }
{
    for read in reads {
        let is_wrong = !is_covered(read, declared);
        let wrong = is_wrong.then_some(Wrong::Path);
        first.at_field(member.entry, member.def.name.as_str(), wrong)?;
    }
    Ok(())
}

/// Whether one of these paths begins with the steps of a path that is read.
fn is_covered(read: &Path, paths: &[Path]) -> bool
    ensures { IsTrue result ↔ IsCovered (steps_in paths.now) read.now.steps }
{
    paths.iter().any(|path| begins_with(path, read))
}

/// Whether a path begins with the steps of another.
fn begins_with(path: &Path, front: &Path) -> bool
    ensures { IsTrue result ↔ BeginsWith path.now.steps front.now.steps }
{
    path.steps.as_slice().starts_with(front.steps.as_slice())
}
