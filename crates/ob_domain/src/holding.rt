//! Whether a row meets a domain, over facts. It goes through the terms from the last to the
//! first, with the answers of those behind the next on a stack, so that no list of terms is
//! too long for the machine's stack; inner domains nest as deep as their JSON did. What a
//! domain means is defined in `specs/Holding`.

ghost use Rattle.std.specs.Prelude.{◌≡◌, ◌&&◌, ◌||◌, ◌∷◌, [], true, All, Bool, IfErr, IfOk, map, reverse};
ghost use Rattle.std.specs.List.{list_all, list_any};
ghost use Rattle.ob_base.specs.declared.id.RecId.{RecId};
ghost use Rattle.ob_expr.specs.Meaning.{cell_in, row_at};
ghost use Rattle.ob_expr.specs.declared.row.Row.{Row as SpecRow};
ghost use Rattle.ob_schema.specs.Facts.{Asked, FailedBehind, OfAllTold};
ghost use Rattle.ob_schema.specs.Models.{HasField, HasModel};
ghost use Rattle.ob_domain.specs.Holding.{IsHoldFault, answers_from, holds, joined_answers, passes, some_reached};
ghost use Rattle.ob_domain.specs.Over.{AreLinks, IsItemOver, IsOver, IsTestOver, end_of};
ghost use Rattle.ob_domain.specs.Passing.{targets_of};
ghost use Rattle.ob_domain.specs.Trees.{item_of, tree_of, tree_of_domain};

use crate::asked::{Row, is_known, value_in};
use crate::domain::Domain;
use crate::fault::HoldFault;
use crate::operator::Logical;
use crate::passes::{compares, is_one_of, matches_value};
use crate::term::{Term, Test};
use crate::tree::{rows_named, some_below, targets_of};
use ob_base::{FieldNo, ModelNo, NoMemory, RecId};
use ob_expr::Link;
use ob_schema::Facts;
use std::alloc::Global;
use std::collections::BTreeSet;

/// Whether a row meets a domain of its model, for a caller. The row is one that the facts
/// know. The only fault beside want of memory is one that the facts answered.
pub fn holds<F: Facts>(
    alloc: Global,
    domain: &Domain,
    user: RecId,
    model: ModelNo,
    id: RecId,
    facts: &mut F,
) -> Result<bool, HoldFault<F::Fault>>
    requires over { IsOver (F.registry facts.old) model (tree_of_domain domain.now) }
    requires known { OfAllTold (F.tells facts.old) (λ told. told.knows model id ≡ true) }
    ensures holds { IfOk result
        (λ b. OfAllTold (F.tells facts.old) (λ told. b ≡ holds told user (tree_of_domain domain.now) (row_at model id))) }
    ensures fault { IfErr result (IsHoldFault (FailedBehind F.asks F.has_failed facts.old facts.new)) }
    ensures asked { Asked F.asks facts.old facts.new }
    ensures same { F.registry facts.new ≡ F.registry facts.old }
    ensures kept { OfAllTold (F.tells facts.old) (F.tells facts.new) }
    ensures only { OfAllTold (F.tells facts.new) (F.tells facts.old) }
{
    let row = Row { model, id };
    meets(alloc, domain.terms(), user, row, facts)
}

/// Whether a row meets terms.
#[cycle(holding)]
fn meets<F: Facts>(
    alloc: Global,
    terms: &[Term],
    user: RecId,
    row: Row,
    facts: &mut F,
) -> Result<bool, HoldFault<F::Fault>>
    requires over { IsOver (F.registry facts.old) row.model (tree_of terms.now) }
    requires known { OfAllTold (F.tells facts.old) (λ told. told.knows row.model row.id ≡ true) }
    ensures told { IfOk result
        (λ b. OfAllTold (F.tells facts.old) (λ told. b ≡ holds told user (tree_of terms.now) (row_at row.model row.id))) }
    ensures fault { IfErr result (IsHoldFault (FailedBehind F.asks F.has_failed facts.old facts.new)) }
    ensures asked { Asked F.asks facts.old facts.new }
    ensures same { F.registry facts.new ≡ F.registry facts.old }
    ensures kept { OfAllTold (F.tells facts.old) (F.tells facts.new) }
    ensures only { OfAllTold (F.tells facts.new) (F.tells facts.old) }
{
    let mut answers = Vec::new(alloc);
    for place in (0..terms.len()).rev() {
        let answer = answer_of(alloc, &terms[place], &mut answers, user, row, facts)?;
        answers.push(answer)?;
    }
    Ok(are_all_true(answers.as_slice()))
}

/// Whether each of some answers is true.
fn are_all_true(answers: &[bool]) -> bool
    ensures { result ≡ list_all (λ b. b) answers.now }
{
    answers.iter().all(|answer| *answer)
}

/// What a term answers: an operator takes the answers of its terms off those of the terms
/// behind it, the last one's first.
#[cycle(holding)]
fn answer_of<F: Facts>(
    alloc: Global,
    term: &Term,
    answers: &mut Vec<bool>,
    user: RecId,
    row: Row,
    facts: &mut F,
) -> Result<bool, HoldFault<F::Fault>>
    requires over { IsItemOver (F.registry facts.old) row.model (item_of term.now) }
    requires known { OfAllTold (F.tells facts.old) (λ told. told.knows row.model row.id ≡ true) }
    ensures told { IfOk result (λ b. OfAllTold (F.tells facts.old) (λ told. b ∷ reverse answers.new.items
        ≡ answers_from told user (row_at row.model row.id) (item_of term.now) (reverse answers.old.items))) }
    ensures fault { IfErr result (IsHoldFault (FailedBehind F.asks F.has_failed facts.old facts.new)) }
    ensures asked { Asked F.asks facts.old facts.new }
    ensures same { F.registry facts.new ≡ F.registry facts.old }
    ensures kept { OfAllTold (F.tells facts.old) (F.tells facts.new) }
    ensures only { OfAllTold (F.tells facts.new) (F.tells facts.old) }
{
    match term {
        Term::Logical(logical) => Ok(joined(*logical, answers)),
        Term::Constant(truth) => Ok(*truth),
        Term::Criterion(sense, field, test) => {
            Ok(sense.of(passes(alloc, *field, test, user, row, facts)?))
        }
        Term::Any(sense, links, inner) => {
            Ok(sense.of(any_meets(alloc, links, inner, user, row, facts)?))
        }
    }
}

/// What an operator makes of the answers of the terms behind it, the last one's first. Each
/// takes as many as there are; where one were wanting it would count as true.
fn joined(logical: Logical, answers: &mut Vec<bool>) -> bool
    ensures { result ∷ reverse answers.new.items ≡ joined_answers logical (reverse answers.old.items) }
{
    let first = answers.pop().unwrap_or(true);
    match logical {
        Logical::Not => !first,
        Logical::And => answers.pop().unwrap_or(true) && first,
        Logical::Or => answers.pop().unwrap_or(true) || first,
    }
}

/// Whether some row to which links lead meets terms.
#[cycle(holding)]
fn any_meets<F: Facts>(
    alloc: Global,
    links: &[Link],
    terms: &[Term],
    user: RecId,
    row: Row,
    facts: &mut F,
) -> Result<bool, HoldFault<F::Fault>>
    requires links { AreLinks (F.registry facts.old) row.model links.now }
    requires over { IsOver (F.registry facts.old) (end_of row.model links.now) (tree_of terms.now) }
    requires known { OfAllTold (F.tells facts.old) (λ told. told.knows row.model row.id ≡ true) }
    ensures told { IfOk result (λ b. OfAllTold (F.tells facts.old)
        (λ told. b ≡ some_reached told (holds told user (tree_of terms.now)) links.now (row_at row.model row.id))) }
    ensures fault { IfErr result (IsHoldFault (FailedBehind F.asks F.has_failed facts.old facts.new)) }
    ensures asked { Asked F.asks facts.old facts.new }
    ensures same { F.registry facts.new ≡ F.registry facts.old }
    ensures kept { OfAllTold (F.tells facts.old) (F.tells facts.new) }
    ensures only { OfAllTold (F.tells facts.new) (F.tells facts.old) }
{
    let rows = rows_along(alloc, links, row, facts)?;
    for reached in &rows {
        if meets(alloc, terms, user, *reached, facts)? {
            return Ok(true);
        }
    }
    Ok(false)
}

/// The known rows to which links lead, each step through known rows alone.
fn rows_along<F: Facts>(
    alloc: Global,
    links: &[Link],
    row: Row,
    facts: &mut F,
) -> Result<Vec<Row>, HoldFault<F::Fault>>
    requires links { AreLinks (F.registry facts.old) row.model links.now }
    requires known { OfAllTold (F.tells facts.old) (λ told. told.knows row.model row.id ≡ true) }
    ensures told { IfOk result (λ found. OfAllTold (F.tells facts.old) (λ told. (meets : SpecRow → Bool)
        → list_any (λ r. meets (row_at r.model r.id)) found.items ≡ some_reached told meets links.now (row_at row.model row.id))) }
    ensures fault { IfErr result (IsHoldFault (FailedBehind F.asks F.has_failed facts.old facts.new)) }
    ensures asked { Asked F.asks facts.old facts.new }
    ensures known { IfOk result (λ found. OfAllTold (F.tells facts.old) (λ told. All (λ r. told.knows r.model r.id ≡ true) found.items)) }
    ensures end { IfOk result (λ found. All (λ r. r.model ≡ end_of row.model links.now) found.items) }
    ensures same { F.registry facts.new ≡ F.registry facts.old }
    ensures kept { OfAllTold (F.tells facts.old) (F.tells facts.new) }
    ensures only { OfAllTold (F.tells facts.new) (F.tells facts.old) }
{
    let mut rows = Vec::new(alloc);
    rows.push(row)?;
    for link in links {
        rows = rows_behind(alloc, *link, rows.as_slice(), facts)?;
    }
    Ok(rows)
}

/// The known rows that a link of these rows names, each once.
fn rows_behind<F: Facts>(
    alloc: Global,
    link: Link,
    rows: &[Row],
    facts: &mut F,
) -> Result<Vec<Row>, HoldFault<F::Fault>>
    requires field { All (λ r. HasField (F.registry facts.old) r.model link.field) rows.now }
    requires target { HasModel (F.registry facts.old) link.target }
    requires known { OfAllTold (F.tells facts.old) (λ told. All (λ r. told.knows r.model r.id ≡ true) rows.now) }
    ensures told { IfOk result (λ found. OfAllTold (F.tells facts.old) (λ told. (meets : SpecRow → Bool)
        → list_any (λ r. meets (row_at r.model r.id)) found.items
        ≡ list_any (λ r. some_reached told meets (link ∷ []) (row_at r.model r.id)) rows.now)) }
    ensures fault { IfErr result (IsHoldFault (FailedBehind F.asks F.has_failed facts.old facts.new)) }
    ensures asked { Asked F.asks facts.old facts.new }
    ensures known { IfOk result (λ found. OfAllTold (F.tells facts.old) (λ told. All (λ r. told.knows r.model r.id ≡ true) found.items)) }
    ensures end { IfOk result (λ found. All (λ r. r.model ≡ link.target) found.items) }
    ensures same { F.registry facts.new ≡ F.registry facts.old }
    ensures kept { OfAllTold (F.tells facts.old) (F.tells facts.new) }
    ensures only { OfAllTold (F.tells facts.new) (F.tells facts.old) }
{
    let mut named = BTreeSet::new(alloc);
    for row in rows {
        add_targets(alloc, link, *row, &mut named, facts)?;
    }
    Ok(rows_of(alloc, link.target, &named)?)
}

/// The rows of a model with these ids.
fn rows_of(alloc: Global, model: ModelNo, ids: &BTreeSet<RecId>) -> Result<Vec<Row>, NoMemory>
    ensures { IfOk result (λ rows. rows.items ≡ map (λ id. record { model = model; id = id }) ids.now.keys) }
{
    let rows = ids.iter().map(|id| Row { model, id: *id });
    Ok(rows.collect(alloc)?)
}

/// Adds the known rows that a link of a row names.
fn add_targets<F: Facts>(
    alloc: Global,
    link: Link,
    row: Row,
    named: &mut BTreeSet<RecId>,
    facts: &mut F,
) -> Result<(), HoldFault<F::Fault>>
    requires field { HasField (F.registry facts.old) row.model link.field }
    requires target { HasModel (F.registry facts.old) link.target }
    requires known { OfAllTold (F.tells facts.old) (λ told. told.knows row.model row.id ≡ true) }
    ensures told { IfOk result (λ _. OfAllTold (F.tells facts.old) (λ told. (test : RecId → Bool) → list_any test named.new.keys
        ≡ (list_any test named.old.keys
        || list_any (λ id. told.knows link.target id && test id) (targets_of (told.held (cell_in (row_at row.model row.id) link.field)))))) }
    ensures fault { IfErr result (IsHoldFault (FailedBehind F.asks F.has_failed facts.old facts.new)) }
    ensures asked { Asked F.asks facts.old facts.new }
    ensures known { IfOk result (λ _. OfAllTold (F.tells facts.old) (λ told. All (λ id. told.knows link.target id ≡ true) named.old.keys
        → All (λ id. told.knows link.target id ≡ true) named.new.keys)) }
    ensures same { F.registry facts.new ≡ F.registry facts.old }
    ensures kept { OfAllTold (F.tells facts.old) (F.tells facts.new) }
    ensures only { OfAllTold (F.tells facts.new) (F.tells facts.old) }
{
    let targets = targets_in(alloc, row, link.field, facts)?;
    for id in &targets {
        let reached = Row {
            model: link.target,
            id: *id,
        };
        add_known(reached, named, facts)?;
    }
    Ok(())
}

/// Adds a row, if it is known.
fn add_known<F: Facts>(
    row: Row,
    named: &mut BTreeSet<RecId>,
    facts: &mut F,
) -> Result<(), HoldFault<F::Fault>>
    requires { HasModel (F.registry facts.old) row.model }
    ensures told { IfOk result (λ _. OfAllTold (F.tells facts.old) (λ told. (test : RecId → Bool) → list_any test named.new.keys
        ≡ (list_any test named.old.keys || (told.knows row.model row.id && test row.id)))) }
    ensures fault { IfErr result (IsHoldFault (FailedBehind F.asks F.has_failed facts.old facts.new)) }
    ensures asked { Asked F.asks facts.old facts.new }
    ensures known { IfOk result (λ _. OfAllTold (F.tells facts.old) (λ told. All (λ id. told.knows row.model id ≡ true) named.old.keys
        → All (λ id. told.knows row.model id ≡ true) named.new.keys)) }
    ensures same { F.registry facts.new ≡ F.registry facts.old }
    ensures kept { OfAllTold (F.tells facts.old) (F.tells facts.new) }
    ensures only { OfAllTold (F.tells facts.new) (F.tells facts.old) }
{
    if !is_known(row, facts)? {
        return Ok(());
    }
    named.insert(row.id)?;
    Ok(())
}

/// The rows that a field of a known row names.
fn targets_in<F: Facts>(
    alloc: Global,
    row: Row,
    field: FieldNo,
    facts: &mut F,
) -> Result<Vec<RecId>, HoldFault<F::Fault>>
    requires field { HasField (F.registry facts.old) row.model field }
    requires known { OfAllTold (F.tells facts.old) (λ told. told.knows row.model row.id ≡ true) }
    ensures told { IfOk result (λ ids. OfAllTold (F.tells facts.old)
        (λ told. ids.items ≡ targets_of (told.held (cell_in (row_at row.model row.id) field)))) }
    ensures fault { IfErr result (IsHoldFault (FailedBehind F.asks F.has_failed facts.old facts.new)) }
    ensures asked { Asked F.asks facts.old facts.new }
    ensures same { F.registry facts.new ≡ F.registry facts.old }
    ensures kept { OfAllTold (F.tells facts.old) (F.tells facts.new) }
    ensures only { OfAllTold (F.tells facts.new) (F.tells facts.old) }
{
    let value = value_in(row, field, facts)?;
    Ok(targets_of(alloc, &value)?)
}

/// Whether a field of a row passes a test.
fn passes<F: Facts>(
    alloc: Global,
    field: FieldNo,
    test: &Test,
    user: RecId,
    row: Row,
    facts: &mut F,
) -> Result<bool, HoldFault<F::Fault>>
    requires field { HasField (F.registry facts.old) row.model field }
    requires over { IsTestOver (F.registry facts.old) test.now }
    requires known { OfAllTold (F.tells facts.old) (λ told. told.knows row.model row.id ≡ true) }
    ensures told { IfOk result (λ b. OfAllTold (F.tells facts.old)
        (λ told. b ≡ passes told user test.now (told.held (cell_in (row_at row.model row.id) field)))) }
    ensures fault { IfErr result (IsHoldFault (FailedBehind F.asks F.has_failed facts.old facts.new)) }
    ensures asked { Asked F.asks facts.old facts.new }
    ensures same { F.registry facts.new ≡ F.registry facts.old }
    ensures kept { OfAllTold (F.tells facts.old) (F.tells facts.new) }
    ensures only { OfAllTold (F.tells facts.new) (F.tells facts.old) }
{
    match test {
        Test::Always => Ok(true),
        Test::OneOf(operands) => {
            let value = value_in(row, field, facts)?;
            Ok(is_one_of(operands.as_slice(), user, &value))
        }
        Test::Compares(comparison, operand) => {
            let value = value_in(row, field, facts)?;
            Ok(compares(*comparison, operand, user, &value))
        }
        Test::Matches(pattern) => {
            let value = value_in(row, field, facts)?;
            Ok(matches_value(alloc, pattern, &value)?)
        }
        Test::ChildOf(paths, operands) => {
            let named = rows_named(alloc, operands.as_slice(), user)?;
            let targets = targets_in(alloc, row, field, facts)?;
            some_below(alloc, *paths, named.as_slice(), targets.as_slice(), facts)
        }
        Test::ParentOf(paths, operands) => {
            let named = rows_named(alloc, operands.as_slice(), user)?;
            let targets = targets_in(alloc, row, field, facts)?;
            some_below(alloc, *paths, targets.as_slice(), named.as_slice(), facts)
        }
    }
}
