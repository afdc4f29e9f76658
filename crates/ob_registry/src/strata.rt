//! The strata of computed fields, and what is wrong where they read one another in a circle.
//! A field reads the computed fields at the ends of its paths. Its stratum is the length of
//! the longest chain of other fields that are read in turn.

ghost use Rattle.std.specs.Prelude.{◌≡◌, ◌≢◌, ◌<◌, ◌↔◌, Contains, IfOk, IsSome, IsTrue, List, None, length, option_map, slice_get, suc};
ghost use Rattle.ob_base.specs.Limits.{max_stratum};
ghost use Rattle.ob_definition.specs.Findings.{Adds, Tells};
ghost use Rattle.ob_definition.specs.Gathered.{Gathered};
ghost use Rattle.ob_registry.specs.Graphs.{AreFormulas, AreHeights, AreOnCycles, GoesBy, HaveStrata, IsChainWrong, IsCycleWrong, IsGraph, IsLongWrong, IsSelfWrong, IsStepFault, LeadsToItselfBy, all_steps, formula_in, with_stratum};
ghost use Rattle.ob_definition.specs.Members.{model_at};
ghost use Rattle.ob_registry.specs.ModelFields.{member_of};
ghost use Rattle.ob_schema.specs.Paths.{EndsIn};
ghost use Rattle.ob_schema.specs.Strata.{Chain, IsMember, IsPathOf, IsToChildren, IsToParent, parent_of};
ghost use Rattle.ob_registry.specs.Telling.{spot_of, steps_in};

use crate::formulas::DraftFormula;
use crate::graph::Graph;
use crate::model::Member;
use crate::models::Models;
use ob_base::limits::MAX_STRATUM;
use ob_base::{FieldNo, ModelNo, NoMemory};
use ob_definition::{First, GatheredModel, Wrong, is_set};
use ob_schema::{Path, Step};
use std::alloc::Global;

/// What is known of the formulas of the fields of each model, by number.
pub(crate) type Formulas = Vec<Vec<Option<DraftFormula>>>;

/// Gives each formula its stratum, and finds what is wrong with how fields read one another.
pub(crate) fn stratify(
    alloc: Global,
    models: &Models<'_>,
    formulas: &mut Formulas,
    first: &mut First,
) -> Result<(), NoMemory>
    requires { AreFormulas models.now formulas.old.items }
    ensures faults { IfOk result
        (λ _. Adds (IsStepFault models.now (IsChainWrong models.now)) first.old first.new) }
    ensures formulas { IfOk result (λ _. AreFormulas models.now formulas.new.items) }
    ensures strata { IfOk result (λ _. first.new ≡ None → HaveStrata models.now formulas.new.items) }
{
    let graph = Graph::new(alloc, models, formulas)?;
    let heights = graph.heights(alloc, MAX_STRATUM + 1)?;
    self_readers(models, formulas, &graph, first)?;
    let on_cycles = circles(alloc, models, &graph, heights.as_slice(), first)?;
    long_chains(
        alloc,
        models,
        &graph,
        heights.as_slice(),
        on_cycles.as_slice(),
        first,
    )?;
    give_strata(models, formulas, &graph, heights.as_slice());
    Ok(())
}

/// Gives each formula its stratum, where no chain is past the greatest.
fn give_strata(models: &Models<'_>, formulas: &mut Formulas, graph: &Graph, heights: &[u16])
    requires formulas { AreFormulas models.now formulas.old.items }
    requires graph { IsGraph models.now graph.now }
    requires heights { AreHeights graph.now.reads.items (suc max_stratum) heights.now }
    ensures formulas { AreFormulas models.now formulas.new.items }
    ensures strata { ((step : Step) → Chain models.now (suc max_stratum) step → ⊥)
        → HaveStrata models.now formulas.new.items }
{
    for (node, height) in heights.iter().enumerate() {
        let step = graph.step(node);
        if member_at(models, step).is_computed() {
            set_stratum(formulas, step, *height);
        }
    }
}

/// Finds the fields with a chain past the greatest stratum whose chains all end.
fn long_chains(
    alloc: Global,
    models: &Models<'_>,
    graph: &Graph,
    heights: &[u16],
    on_cycles: &[bool],
    first: &mut First,
) -> Result<(), NoMemory>
    requires graph { IsGraph models.now graph.now }
    requires heights { AreHeights graph.now.reads.items (suc max_stratum) heights.now }
    requires cycles { AreOnCycles graph.now.reads.items on_cycles.now }
    ensures { IfOk result
        (λ _. Adds (IsStepFault models.now (IsLongWrong models.now)) first.old first.new) }
{
    for (node, height) in heights.iter().enumerate() {
        let is_long = *height > MAX_STRATUM && !graph.meets(alloc, node, on_cycles)?;
        note(models, graph, node, is_long.then_some(Wrong::Limit), first)?;
    }
    Ok(())
}

/// Finds the fields that read one another in a circle; which they are. From each there are
/// chains of every length.
fn circles(
    alloc: Global,
    models: &Models<'_>,
    graph: &Graph,
    heights: &[u16],
    first: &mut First,
) -> Result<Vec<bool>, NoMemory>
    requires graph { IsGraph models.now graph.now }
    requires heights { AreHeights graph.now.reads.items (suc max_stratum) heights.now }
    ensures cycles { IfOk result (λ marks. AreOnCycles graph.now.reads.items marks.items) }
    ensures faults { IfOk result
        (λ _. Adds (IsStepFault models.now (IsCycleWrong models.now)) first.old first.new) }
{
    let mut marks = Vec::new(alloc);
    for (node, height) in heights.iter().enumerate() {
        let is_on = *height > MAX_STRATUM && graph.is_on_cycle(alloc, node)?;
        note(models, graph, node, is_on.then_some(Wrong::Cycle), first)?;
        marks.push(is_on)?;
    }
    Ok(marks)
}

/// Gives the formula of a field its stratum, if it has one.
fn set_stratum(formulas: &mut Formulas, step: Step, stratum: u16)
    requires { IsSome (formula_in formulas.old.items step) }
    ensures there { formula_in formulas.new.items step
        ≡ option_map (option_map (with_stratum stratum)) (formula_in formulas.old.items step) }
    ensures others { (other : Step) → other ≢ step
        → formula_in formulas.new.items other ≡ formula_in formulas.old.items other }
    ensures count { length formulas.new.items ≡ length formulas.old.items }
{
    let of_model = &mut formulas[step.model.0 as usize - 1];
    if let Some(formula) = &mut of_model[step.field.0 as usize - 1] {
        formula.stratum = stratum;
    }
}

/// Finds what is wrong with the field of a node, if anything is.
fn note(
    models: &Models<'_>,
    graph: &Graph,
    node: usize,
    wrong: Option<Wrong>,
    first: &mut First,
) -> Result<(), NoMemory>
    requires graph { IsGraph models.now graph.now }
    requires node { node < length graph.now.steps.items }
    ensures { IfOk result (λ _. Adds (IsStepFault models.now
        (λ at m w. (slice_get graph.now.steps.items node ≡ Some at) × (wrong ≡ Some w))) first.old first.new) }
{
    let member = member_at(models, graph.step(node));
    first.at_field(member.entry, member.def.name.as_str(), wrong)
}

/// The field of a step.
fn member_at<'m, 'a>(models: &'m Models<'a>, step: Step) -> &'m Member<'a>
    requires { Contains (all_steps models.now) step }
    ensures there { (g : Gathered) × IsMember models.now step g (member_of result.now) }
    ensures single { (g : Gathered) (m : Rattle.ob_definition.specs.Members.Member)
        → IsMember models.now step g m → m ≡ member_of result.now }
{
    models.model(step.model).member(step.field)
}

/// Finds what is wrong with fields that read themselves.
fn self_readers(
    models: &Models<'_>,
    formulas: &Formulas,
    graph: &Graph,
    first: &mut First,
) -> Result<(), NoMemory>
    requires formulas { AreFormulas models.now formulas.now.items }
    requires graph { IsGraph models.now graph.now }
    ensures { IfOk result
        (λ _. Adds (IsStepFault models.now (IsSelfWrong models.now)) first.old first.new) }
{
    for node in 0..graph.len() {
        let step = graph.step(node);
        let wrong = wrong_itself(models, formulas, member_at(models, step), step);
        note(models, graph, node, wrong, first)?;
    }
    Ok(())
}

/// What is wrong with how a field reads itself, if it does.
fn wrong_itself(
    models: &Models<'_>,
    formulas: &Formulas,
    member: &Member<'_>,
    own: Step,
) -> Option<Wrong>
    requires formulas { AreFormulas models.now formulas.now.items }
    requires member { (g : Gathered) × IsMember models.now own g (member_of member.now) }
    ensures { Tells (IsSelfWrong models.now own (member_of member.now)) result }
{
    match &formulas[own.model.0 as usize - 1][own.field.0 as usize - 1] {
        Some(formula) => wrong_self(models, formula.depends.as_slice(), member, own),
        None => None,
    }
}

/// What is wrong with how a field reads itself by its paths, if it does: it does so in another
/// way than along its tree, or doesn't say so.
fn wrong_self(models: &Models<'_>, paths: &[Path], member: &Member<'_>, own: Step) -> Option<Wrong>
    requires { IsSome (model_at models.now own.model.0) }
    ensures { (g : Gathered) → IsMember models.now own g (member_of member.now)
        → ((path : List Step) → IsPathOf models.now own path ↔ Contains (steps_in paths.now) path)
        → Tells (IsSelfWrong models.now own (member_of member.now)) result }
{
    if !paths.iter().any(|path| ends_in(path, own)) {
        return None;
    }
    if !reads_up(models, paths, own) && !reads_down(models, paths, own) {
        return Some(Wrong::Cycle);
    }
    if is_set(member.def.recursive) {
        None
    } else {
        Some(Wrong::Recursion)
    }
}

/// Whether every path that leads to this field leads there by parents.
fn reads_up(models: &Models<'_>, paths: &[Path], own: Step) -> bool
    requires { IsSome (model_at models.now own.model.0) }
    ensures { IsTrue result
        ↔ LeadsToItselfBy (IsToParent models.now own.model) own (steps_in paths.now) }
{
    paths.iter().all(|path| !ends_in(path, own)
        || leads_up(models, path.steps.as_slice(), own.model))
}

/// Whether every path that leads to this field leads there by children.
fn reads_down(models: &Models<'_>, paths: &[Path], own: Step) -> bool
    requires { IsSome (model_at models.now own.model.0) }
    ensures { IsTrue result
        ↔ LeadsToItselfBy (IsToChildren models.now own.model) own (steps_in paths.now) }
{
    paths.iter().all(|path| !ends_in(path, own)
        || leads_down(models, path.steps.as_slice(), own.model))
}

/// Whether all steps of a path but the last lead from a row of the model to its parent, and
/// there is one at least.
fn leads_up(models: &Models<'_>, steps: &[Step], number: ModelNo) -> bool
    requires { IsSome (model_at models.now number.0) }
    ensures { IsTrue result ↔ GoesBy (IsToParent models.now number) steps.now }
{
    match steps {
        [before @ .., _] => {
            !before.is_empty() && before.iter().all(|step| is_parent(models, *step, number))
        }
        [] => false,
    }
}

/// Whether all steps of a path but the last lead from a row of the model to its children, and
/// there is one at least.
fn leads_down(models: &Models<'_>, steps: &[Step], number: ModelNo) -> bool
    requires { IsSome (model_at models.now number.0) }
    ensures { IsTrue result ↔ GoesBy (IsToChildren models.now number) steps.now }
{
    match steps {
        [before @ .., _] => {
            !before.is_empty() && before.iter().all(|step| is_child(models, *step, number))
        }
        [] => false,
    }
}

/// The field by which the rows of a model name their parents, if they do.
fn parent_of(models: &Models<'_>, number: ModelNo) -> Option<FieldNo>
    requires { IsSome (model_at models.now number.0) }
    ensures { result ≡ parent_of models.now number }
{
    let model = models.model(number);
    let gathered: &GatheredModel<'_> = model.gathered;
    model.number(gathered.parent?)
}

/// Whether a step leads from a row of the model to its parent.
fn is_parent(models: &Models<'_>, step: Step, number: ModelNo) -> bool
    requires { IsSome (model_at models.now number.0) }
    ensures { IsTrue result ↔ IsToParent models.now number step }
{
    step.model == number && parent_of(models, number) == Some(step.field)
}

/// Whether a step leads to the rows of the model whose parent field names the row.
fn is_child(models: &Models<'_>, step: Step, number: ModelNo) -> bool
    requires { IsSome (model_at models.now number.0) }
    ensures { IsTrue result ↔ IsToChildren models.now number step }
{
    let Some(member) = models.find(step) else {
        return false;
    };
    let Some(parent) = parent_of(models, number) else {
        return false;
    };
    let def = member.def;
    let inverse = match &def.inverse {
        Some(name) => models.model(number).number(name.as_str()),
        None => None,
    };
    def.field_type.is_one2many() && models.relation(def) == Some(number) && inverse == Some(parent)
}

/// Whether this is the last step of a path.
fn ends_in(path: &Path, step: Step) -> bool
    ensures { IsTrue result ↔ EndsIn path.now.steps step }
{
    path.steps.as_slice().last().copied() == Some(step)
}
