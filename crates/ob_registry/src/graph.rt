//! Which computed fields read which: the fields of all models as nodes, by number.

ghost use Rattle.std.specs.Prelude.{◌≡◌, ◌≢◌, ◌↔◌, ◌⊎◌, ◌+◌, ◌-◌, ◌^◌, ◌<◌, ◌≤◌, ◌++◌};
ghost use Rattle.std.specs.Prelude.{ℕ, [], Contains, IfOk, IfSome, IsNone, IsSome, IsSomeAnd, IsTrue, List, Some, count_by, false, length, not, option_map, replicate, slice_get, slice_index, true};
ghost use Rattle.ob_definition.specs.Members.{model_at};
ghost use Rattle.ob_schema.specs.Chains.{Reaches};
ghost use Rattle.ob_registry.specs.Graphs.{AreFormulas, AreHeights, AreStarts, IsGraph, IsReadBy, IsReadOn, NodeReads, all_steps, steps_upto};
ghost use Rattle.ob_registry.specs.ModelFields.{max_numbers};
ghost use Rattle.ob_schema.specs.Strata.{IsComputedAt, IsPathOf};
ghost use Rattle.ob_registry.specs.Telling.{steps_in};

use crate::formulas::DraftFormula;
use crate::models::{Models, number_of_place};
use crate::strata::Formulas;
use ob_base::{FieldNo, ModelNo, NoMemory};
use ob_definition::is_computed;
use ob_schema::{Path, Step};
use std::alloc::Global;

/// The computed fields that each field reads, itself left out.
#[derive(Drop)]
pub(crate) struct Graph {
    /// The field of each node.
    steps: Vec<Step>,
    /// The first node of each model.
    starts: Vec<usize>,
    reads: Vec<Vec<usize>>,
}

impl Graph {
    /// The graph of the formulas.
    pub(crate) fn new(
        alloc: Global,
        models: &Models<'_>,
        formulas: &Formulas,
    ) -> Result<Graph, NoMemory>
        requires { AreFormulas models.now formulas.now.items }
        ensures { IfOk result (IsGraph models.now) }
    {
        let mut graph = Graph {
            steps: Vec::new(alloc),
            starts: Vec::new(alloc),
            reads: Vec::new(alloc),
        };
        for (place, model) in models.list.iter().enumerate() {
            graph.starts.push(graph.steps.len())?;
            graph.add_nodes(ModelNo(number_of_place(place)), model.members.len())?;
        }
        graph.add_reads(alloc, models, formulas)?;
        Ok(graph)
    }

    /// Adds the nodes of a model's fields.
    fn add_nodes(&mut self, model: ModelNo, count: usize) -> Result<(), NoMemory>
        requires { count ≤ max_numbers }
        ensures steps { IfOk result (λ _. self.new.steps.items ≡ self.old.steps.items ++ steps_upto model.0 count) }
        ensures starts { self.new.starts ≡ self.old.starts }
        ensures reads { self.new.reads ≡ self.old.reads }
    {
        for place in 0..count {
            let field = FieldNo(number_of_place(place));
            self.steps.push(Step { model, field })?;
        }
        Ok(())
    }

    /// Adds what each node reads.
    fn add_reads(
        &mut self,
        alloc: Global,
        models: &Models<'_>,
        formulas: &Formulas,
    ) -> Result<(), NoMemory>
        requires formulas { AreFormulas models.now formulas.now.items }
        requires steps { self.old.steps.items ≡ all_steps models.now }
        requires starts { AreStarts self.old.steps.items self.old.starts.items }
        requires none { self.old.reads.items ≡ [] }
        ensures { IfOk result (λ _. IsGraph models.now self.new) }
    {
        for node in 0..self.len() {
            let formula = formula_at(models, formulas, self.step(node));
            let reads = self.reads_of(alloc, models, formula, node)?;
            self.reads.push(reads)?;
        }
        Ok(())
    }

    /// The computed fields at the ends of a formula's paths, the node itself left out.
    fn reads_of(
        &self,
        alloc: Global,
        models: &Models<'_>,
        formula: Option<&DraftFormula>,
        node: usize,
    ) -> Result<Vec<usize>, NoMemory>
        requires steps { self.now.steps.items ≡ all_steps models.now }
        requires starts { AreStarts self.now.steps.items self.now.starts.items }
        ensures { IfOk result (λ reads. (b : ℕ) → Contains reads.items b
            ↔ ((b ≢ node) × IsReadBy models.now self.now.steps.items (option_map (λ f. f.now) formula.entry) b)) }
    {
        let mut reads = Vec::new(alloc);
        let Some(formula) = formula else {
            return Ok(reads);
        };
        for path in formula.depends.as_slice() {
            if let Some(read) = self.end_of(models, path) {
                if read != node {
                    reads.push(read)?;
                }
            }
        }
        Ok(reads)
    }

    /// The node of the computed field at the end of a path, if there is one.
    fn end_of(&self, models: &Models<'_>, path: &Path) -> Option<usize>
        requires steps { self.now.steps.items ≡ all_steps models.now }
        requires starts { AreStarts self.now.steps.items self.now.starts.items }
        ensures { (b : ℕ) → (result ≡ Some b)
            ↔ IsReadOn models.now self.now.steps.items path.now.steps b }
    {
        let last = *path.steps.as_slice().last()?;
        let node = self.node(last)?;
        if is_computed_at(models, last) {
            Some(node)
        } else {
            None
        }
    }

    /// The node of a field, if it is one.
    fn node(&self, step: Step) -> Option<usize>
        requires { AreStarts self.now.steps.items self.now.starts.items }
        ensures there { IfSome result (λ node. slice_get self.now.steps.items node ≡ Some step) }
        ensures none { IsNone result → Contains self.now.steps.items step → ⊥ }
    {
        let place = (step.model.0 as usize).checked_sub(1)?;
        let start = *self.starts.get(place)?;
        let node = start.checked_add(step.field.0 as usize)?.checked_sub(1)?;
        if *self.steps.get(node)? == step {
            Some(node)
        } else {
            None
        }
    }

    /// How many nodes there are.
    pub(crate) fn len(&self) -> usize
        ensures { result ≡ length self.now.steps.items }
    {
        self.steps.len()
    }

    /// The field of a node.
    pub(crate) fn step(&self, node: usize) -> Step
        requires { node < length self.now.steps.items }
        ensures { slice_get self.now.steps.items node ≡ Some result }
    {
        self.steps[node]
    }

    /// The length of the longest chain from each node, or the limit where one is as long.
    pub(crate) fn heights(&self, alloc: Global, limit: u16) -> Result<Vec<u16>, NoMemory>
        requires count { length self.now.reads.items ≡ length self.now.steps.items }
        requires within { (a b : ℕ) → NodeReads self.now.reads.items a b → b < length self.now.steps.items }
        requires low { limit < 2 ^ 16 - 1 }
        ensures { IfOk result (λ heights. AreHeights self.now.reads.items limit heights.items) }
    {
        let mut heights = repeated(alloc, 0, self.len())?;
        for height in 1..limit + 1 {
            self.raise(&mut heights, height);
        }
        Ok(heights)
    }

    /// Raises to a height the nodes that read one which has the height below.
    fn raise(&self, heights: &mut Vec<u16>, height: u16)
        requires count { length self.now.reads.items ≡ length self.now.steps.items }
        requires within { (a b : ℕ) → NodeReads self.now.reads.items a b → b < length self.now.steps.items }
        requires low { 0 < height }
        requires high { height < 2 ^ 16 - 1 }
        requires below { AreHeights self.now.reads.items (height - 1) heights.old.items }
        ensures { AreHeights self.now.reads.items height heights.new.items }
    {
        for node in 0..self.len() {
            if self.reads_high(heights.as_slice(), node, height) {
                heights[node] = height;
            }
        }
    }

    /// Whether a node reads one which has at least the height below.
    fn reads_high(&self, heights: &[u16], node: usize, height: u16) -> bool
        requires node { node < length self.now.reads.items }
        requires within { (b : ℕ) → NodeReads self.now.reads.items node b → b < length heights.now }
        requires low { (b : ℕ) → slice_index heights.now b < 2 ^ 16 - 1 }
        ensures { IsTrue result ↔ ((b : ℕ) × NodeReads self.now.reads.items node b
            × (height ≤ slice_index heights.now b + 1)) }
    {
        for read in self.reads[node].iter() {
            if heights[*read] + 1 >= height {
                return true;
            }
        }
        false
    }

    /// Which nodes are reached from a node.
    fn reached(&self, alloc: Global, node: usize) -> Result<Vec<bool>, NoMemory>
        requires node { node < length self.now.steps.items }
        requires count { length self.now.reads.items ≡ length self.now.steps.items }
        requires within { (a b : ℕ) → NodeReads self.now.reads.items a b → b < length self.now.steps.items }
        ensures count { IfOk result (λ seen. length seen.items ≡ length self.now.steps.items) }
        ensures each { IfOk result (λ seen. (b : ℕ)
            → (slice_get seen.items b ≡ Some true) ↔ Reaches (NodeReads self.now.reads.items) node b) }
    {
        let mut is_seen = repeated(alloc, false, self.len())?;
        let mut waiting = Vec::new(alloc);
        waiting.push(node)?;
        while let Some(next) = waiting.pop() {
            self.add_unseen(next, &mut is_seen, &mut waiting)?;
        }
        Ok(is_seen)
    }

    /// Whether a node is reached from itself.
    pub(crate) fn is_on_cycle(&self, alloc: Global, node: usize) -> Result<bool, NoMemory>
        requires node { node < length self.now.steps.items }
        requires count { length self.now.reads.items ≡ length self.now.steps.items }
        requires within { (a b : ℕ) → NodeReads self.now.reads.items a b → b < length self.now.steps.items }
        ensures { IfOk result (λ is. IsTrue is ↔ Reaches (NodeReads self.now.reads.items) node node) }
    {
        Ok(self.reached(alloc, node)?[node])
    }

    /// Whether a marked node is reached from a node.
    pub(crate) fn meets(&self, alloc: Global, node: usize, marks: &[bool]) -> Result<bool, NoMemory>
        requires node { node < length self.now.steps.items }
        requires count { length self.now.reads.items ≡ length self.now.steps.items }
        requires within { (a b : ℕ) → NodeReads self.now.reads.items a b → b < length self.now.steps.items }
        requires marks { length marks.now ≡ length self.now.steps.items }
        ensures { IfOk result (λ meets. IsTrue meets
            ↔ ((b : ℕ) × Reaches (NodeReads self.now.reads.items) node b × (slice_get marks.now b ≡ Some true))) }
    {
        let is_seen = self.reached(alloc, node)?;
        Ok(have_both(is_seen.as_slice(), marks))
    }

    /// Adds to those that wait the nodes that one reads and that weren't seen.
    fn add_unseen(
        &self,
        node: usize,
        is_seen: &mut Vec<bool>,
        waiting: &mut Vec<usize>,
    ) -> Result<(), NoMemory>
        requires node { node < length self.now.reads.items }
        requires within { (b : ℕ) → NodeReads self.now.reads.items node b → b < length is_seen.old.items }
        ensures seen { IfOk result (λ _. (b : ℕ) → (slice_get is_seen.new.items b ≡ Some true)
            ↔ ((slice_get is_seen.old.items b ≡ Some true) ⊎ NodeReads self.now.reads.items node b)) }
        ensures waiting { IfOk result (λ _. (b : ℕ) → Contains waiting.new.items b
            ↔ (Contains waiting.old.items b ⊎ ((slice_get is_seen.old.items b ≡ Some false)
            × NodeReads self.now.reads.items node b))) }
        ensures count { IfOk result (λ _. length is_seen.new.items ≡ length is_seen.old.items) }
        ensures fewer { IfOk result (λ _. length waiting.new.items + count_by not is_seen.new.items
            ≡ length waiting.old.items + count_by not is_seen.old.items) }
    {
        for read in self.reads[node].iter() {
            if !is_seen[*read] {
                is_seen[*read] = true;
                waiting.push(*read)?;
            }
        }
        Ok(())
    }
}

/// The formula of a field, if it has one.
fn formula_at<'a>(
    models: &Models<'_>,
    formulas: &'a Formulas,
    step: Step,
) -> Option<&'a DraftFormula>
    requires model { IsSome (model_at models.now step.model.0) }
    requires formulas { AreFormulas models.now formulas.now.items }
    ensures { (path : List Step) → IsPathOf models.now step path
        ↔ IsSomeAnd result (λ f. Contains (steps_in f.now.depends) path) }
{
    models.find(step)?;
    formulas[step.model.0 as usize - 1][step.field.0 as usize - 1].as_ref()
}

/// Whether the field of a step is there and computed.
fn is_computed_at(models: &Models<'_>, step: Step) -> bool
    requires { IsSome (model_at models.now step.model.0) }
    ensures { IsTrue result ↔ IsComputedAt models.now step }
{
    match models.find(step) {
        Some(member) => is_computed(member.def),
        None => false,
    }
}

/// Whether two lists are both true at some place.
fn have_both(left: &[bool], right: &[bool]) -> bool
    requires { length left.now ≡ length right.now }
    ensures { IsTrue result ↔ ((place : ℕ) × (slice_get left.now place ≡ Some true)
        × (slice_get right.now place ≡ Some true)) }
{
    for place in 0..left.len() {
        if left[place] && right[place] {
            return true;
        }
    }
    false
}

/// A value so many times.
fn repeated<T: Copy + Drop>(alloc: Global, value: T, count: usize) -> Result<Vec<T>, NoMemory>
    ensures { IfOk result (λ values. values.items ≡ replicate count value) }
{
    let mut values = Vec::new(alloc);
    for _ in 0..count {
        values.push(value)?;
    }
    Ok(values)
}
