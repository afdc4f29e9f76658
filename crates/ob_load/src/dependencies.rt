//! Which modules depend on which: those that depend on themselves, and the order in which
//! modules are taken, each after those on which it depends. Modules are named by their
//! numbers in the order of reading.

ghost use Rattle.std.specs.Prelude.{◌≡◌, ◌<◌, ◌≤◌, ◌↔◌, ◌++◌, ◌∷◌, [], ℕ, List, Contains, IfOk, IfNone, IfSome, IsTrue, MatchOption, Some, true, length, slice_get, option_map};
ghost use Rattle.ob_schema.specs.Chains.{HasChain, Reaches};
ghost use Rattle.ob_load.specs.Dependencies.{DependsOn, IsCyclic, IsFirstCyclic, Takes};
ghost use Rattle.ob_module.specs.Modules.{Module, has_module, numbered, wanted};
ghost use Rattle.ob_load.specs.Rooms.{AddsOnce, AreReadWhole, ReachedBy, TakesOn};
ghost use Rattle.ob_module.specs.Rooms.{modules_in};

use ob_base::limits::MAX_MODULES;
use ob_base::{NoMemory, Word};
use ob_module::{Modules, depends_of, text_of};
use std::alloc::Global;

/// The first module that depends on itself, directly or through others.
pub(crate) fn first_cyclic(alloc: Global, modules: &Modules) -> Result<Option<usize>, NoMemory>
    ensures found { IfOk result (λ found. IfSome found
        (λ n. (m : Module) × (slice_get (modules_in modules.now) n ≡ Some m) × IsFirstCyclic (modules_in modules.now) m.name)) }
    ensures none { IfOk result
        (λ found. IfNone found ((name : List ℕ) → IsCyclic (modules_in modules.now) name → ⊥)) }
{
    for number in 0..modules.len() {
        if is_cyclic(alloc, modules, number)? {
            return Ok(Some(number));
        }
    }
    Ok(None)
}

/// Whether a module depends on itself, directly or through others.
fn is_cyclic(alloc: Global, modules: &Modules, number: usize) -> Result<bool, NoMemory>
    requires { number < length (modules_in modules.now) }
    ensures { IfOk result (λ cyclic. (m : Module) → slice_get (modules_in modules.now) number ≡ Some m
        → (IsTrue cyclic ↔ IsCyclic (modules_in modules.now) m.name)) }
{
    let mut reached = Vec::new(alloc);
    add_depends(modules, number, &mut reached)?;
    for place in 0..modules.len() {
        if reached.len() <= place {
            return Ok(reached.contains(&number));
        }
        let next = reached[place];
        add_depends(modules, next, &mut reached)?;
    }
    Ok(reached.contains(&number))
}

/// Adds the modules on which one depends to those that are reached, each once.
fn add_depends(modules: &Modules, number: usize, reached: &mut Vec<usize>) -> Result<(), NoMemory>
    requires { number < length (modules_in modules.now) }
    ensures { IfOk result
        (λ _. ReachedBy (modules_in modules.now) number reached.old.items reached.new.items) }
{
    for name in depends_of(modules.document(number)) {
        if let Some(other) = modules.number_of(text_of(name)) {
            add_number(other, reached)?;
        }
    }
    Ok(())
}

/// Adds a number to others, unless it is one of them.
fn add_number(number: usize, numbers: &mut Vec<usize>) -> Result<(), NoMemory>
    ensures { IfOk result (λ _. AddsOnce number numbers.old.items numbers.new.items) }
{
    if !numbers.contains(&number) {
        numbers.push(number)?;
    }
    Ok(())
}

/// The modules in the order in which they are taken: those that are loaded in any case,
/// then the named ones, each after those on which it depends.
pub(crate) fn in_order(
    alloc: Global,
    modules: &Modules,
    names: &[Word],
) -> Result<Vec<usize>, NoMemory>
    requires whole { AreReadWhole (modules_in modules.now) (wanted names.now) }
    requires acyclic { (name : List ℕ) → IsCyclic (modules_in modules.now) name → ⊥ }
    requires few { length (modules_in modules.now) ≤ 64 }
    ensures { IfOk result (λ taken. (all : List Module) × numbered (modules_in modules.now) taken.items all
        × Takes (modules_in modules.now) [] (wanted names.now) all) }
{
    let mut taken = Vec::new(alloc);
    take(modules, "base", MAX_MODULES, &mut taken)?;
    take(modules, "stock", MAX_MODULES, &mut taken)?;
    for name in names {
        take(modules, name.as_str(), MAX_MODULES, &mut taken)?;
    }
    Ok(taken)
}

/// Takes a module, and before it those on which it depends, where they aren't taken yet. No
/// chain of so many modules follows on it.
fn take(modules: &Modules, name: &str, left: usize, taken: &mut Vec<usize>) -> Result<(), NoMemory>
    requires whole { AreReadWhole (modules_in modules.now) (name.now ∷ []) }
    requires short { HasChain (DependsOn (modules_in modules.now)) left name.now → ⊥ }
    ensures { IfOk result (λ _. TakesOn (modules_in modules.now) taken.old.items (name.now ∷ []) taken.new.items) }
{
    // Each module that another depends on was read.
    let Some(number) = modules.number_of(name) else {
        unreachable!();
    };
    if taken.contains(&number) {
        return Ok(());
    }
    for other in depends_of(modules.document(number)) {
        // A chain of none is always there, so some are left.
        take(modules, text_of(other), left - 1, taken)?;
    }
    taken.push(number)?;
    Ok(())
}
