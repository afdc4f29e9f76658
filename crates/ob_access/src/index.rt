//! Access lines and rules by model and operation. How they are kept may change here at will.

ghost use Rattle.std.specs.Prelude.{◌≡◌, ◌++◌, ◌==◌, [], IfOk, OnOk, false};
ghost use Rattle.ob_base.specs.declared.id.ModelNo.{ModelNo};
ghost use Rattle.ob_base.specs.declared.refusal.Op.{Op};
ghost use Rattle.ob_access.specs.Ops.{has_op};
ghost use Rattle.ob_access.specs.Index.{IsLineIndex, IsRuleIndex, asks_for, list_at, list_if, list_of};

use crate::ops::Ops;
use crate::policy::{AccessLine, Rule};
use ob_base::{ModelNo, NoMemory, Op, RecId};
use std::alloc::Global;
use std::collections::BTreeMap;

/// What there is for each operation on a model, in load order.
#[derive(Drop)]
pub(crate) struct Lists<T> {
    read: Vec<T>,
    create: Vec<T>,
    write: Vec<T>,
    unlink: Vec<T>,
}

/// The lists of each model, by its number.
pub(crate) type Index<T> = BTreeMap<u16, Lists<T>>;

/// To whom the lines of a model grant each operation.
pub(crate) fn index_of_lines(
    alloc: Global,
    lines: &[AccessLine],
) -> Result<Index<Option<RecId>>, NoMemory>
    ensures { IfOk result (IsLineIndex lines.now) }
{
    let mut index = BTreeMap::new(alloc);
    for line in lines {
        add(alloc, &mut index, line.model, line.ops, line.group)?;
    }
    Ok(index)
}

/// The places of a model's rules for each operation.
pub(crate) fn index_of_rules(alloc: Global, rules: &[Rule]) -> Result<Index<usize>, NoMemory>
    ensures { IfOk result (IsRuleIndex rules.now) }
{
    let mut index = BTreeMap::new(alloc);
    for (place, rule) in rules.iter().enumerate() {
        add(alloc, &mut index, rule.model, rule.ops, place)?;
    }
    Ok(index)
}

/// What there is for an operation on a model.
pub(crate) fn listed<T>(index: &Index<T>, model: ModelNo, op: Op) -> &[T]
    ensures { result.now ≡ list_at index.now model op }
{
    match index.get(&model.0) {
        Some(lists) => lists.of(op),
        None => &[],
    }
}

/// Adds an item to the lists for some operations on a model.
fn add<T: Copy + Drop>(
    alloc: Global,
    index: &mut Index<T>,
    model: ModelNo,
    ops: Ops,
    item: T,
) -> Result<(), NoMemory>
    ensures { IfOk result (λ _. (of : ModelNo) (op : Op) → list_at index.new of op
        ≡ list_at index.old of op ++ list_if (asks_for of op model ops) item) }
{
    let mut lists = taken(alloc, index, model);
    lists.add(ops, item)?;
    index.insert(model.0, lists)?;
    Ok(())
}

/// Takes the lists of a model out; empty ones where there are none.
fn taken<T: Drop>(alloc: Global, index: &mut Index<T>, model: ModelNo) -> Lists<T>
    ensures lists { (op : Op) → list_of result op ≡ list_at index.old model op }
    ensures others { (of : ModelNo) (op : Op) → (model.0 == of.0) ≡ false → list_at index.new of op ≡ list_at index.old of op }
{
    match index.remove(&model.0) {
        Some(lists) => lists,
        None => Lists::new(alloc),
    }
}

/// Adds an item to a list, if it belongs there.
fn push_if<T: Copy + Drop>(list: &mut Vec<T>, belongs: bool, item: T) -> Result<(), NoMemory>
    ensures { OnOk result (list.new.items ≡ list.old.items ++ list_if belongs item) }
{
    if belongs {
        list.push(item)?;
    }
    Ok(())
}

impl<T> Lists<T> {
    /// Empty lists.
    fn new(alloc: Global) -> Lists<T>
        ensures { (op : Op) → list_of result op ≡ [] }
    {
        Lists {
            read: Vec::new(alloc),
            create: Vec::new(alloc),
            write: Vec::new(alloc),
            unlink: Vec::new(alloc),
        }
    }

    /// Adds an item to the lists for some operations.
    fn add(&mut self, ops: Ops, item: T) -> Result<(), NoMemory>
    where
        T: Copy + Drop,
        ensures { OnOk result ((op : Op) → list_of self.new op ≡ list_of self.old op ++ list_if (has_op ops op) item) }
    {
        push_if(&mut self.read, ops.read, item)?;
        push_if(&mut self.create, ops.create, item)?;
        push_if(&mut self.write, ops.write, item)?;
        push_if(&mut self.unlink, ops.unlink, item)?;
        Ok(())
    }

    /// The list for an operation.
    fn of(&self, op: Op) -> &[T]
        ensures { result.now ≡ list_of self.now op }
    {
        match op {
            Op::Read => self.read.as_slice(),
            Op::Create => self.create.as_slice(),
            Op::Write => self.write.as_slice(),
            Op::Unlink => self.unlink.as_slice(),
        }
    }
}
