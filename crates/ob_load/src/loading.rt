//! What modules are loaded, or what stands against them first: a text or its form, in the
//! order of reading; then a circle; then their models; then a name or a value that doesn't fit.

ghost use Rattle.std.specs.Prelude.{◌≡◌, ◌≢◌, ◌<◌, ℕ, List, IfErr, IfNone, IfOk, IfSome, IsErrOf, None, Some, length, slice_get};
ghost use Rattle.ob_io.specs.Cause.{HasCause, Rose};
ghost use Rattle.ob_access.specs.Policies.{IsPolicyOver};
ghost use Rattle.ob_definition.specs.Ranking.{rank};
ghost use Rattle.ob_schema.specs.Models.{IsRegistry};
ghost use Rattle.ob_schema.specs.Presets.{IsPreset};
ghost use Rattle.ob_load.specs.Access.{declared_policy};
ghost use Rattle.ob_load.specs.Loading as spec;
ghost use Rattle.ob_load.specs.Loading.{IsFirstFault, IsLoaded};
ghost use Rattle.ob_load.specs.Preset.{declared_preset};
ghost use Rattle.ob_module.specs.Modules.{Module, numbered};
ghost use Rattle.ob_load.specs.Rooms.{IsOfText, Refuses, Tells, ToldAbsent};
ghost use Rattle.ob_module.specs.Rooms.{modules_in};
ghost use Rattle.ob_load.specs.RowFaults.{modules_fault};
ghost use Rattle.ob_load.specs.Texts.{AgreesWith, FileTexts, text_in};
ghost use Rattle.ob_load.specs.declared.fault.FaultyModule.{FaultyModule};

use crate::dependencies::{first_cyclic, in_order};
use crate::fault::{LoadFault, ModuleFault};
use crate::policy::meaning_of;
use crate::reading::{read_modules, refused, refused_at};
use ob_access::Policy;
use ob_base::{NoMemory, PathStep, Place, Sequence, Word};
use ob_io::Files;
use ob_module::{Modules, add_models, listed_at};
use ob_registry::build_schema;
use ob_schema::{ModelDef, Preset, Schema, SchemaFault};
use std::alloc::Global;

/// What modules mean.
#[derive(Drop)]
pub struct Loaded {
    /// The registry of all their models.
    pub schema: Schema,
    /// The policy of their groups, access lines and rules over that registry.
    pub policy: Policy,
    /// The rows that a new store gets: those of their groups, then those of their tables `row`.
    pub preset: Preset,
}

/// Loads the modules of these names: `base` and `stock` first, which stand inside the
/// program, then these, whose texts are the files `FOLDER/NAME.toml`; each with those on
/// which it depends. Each text is read once. What stands against them first is told: a
/// text or its form, in the order of reading; then the first module in this order that
/// depends on itself; then the first fault of all models, in the order in which modules are
/// taken, each after those on which it depends; then, in this order of modules, the first name
/// or value of their fields, groups, access lines, rules and rows that doesn't fit.
pub fn load<F: Files>(
    alloc: Global,
    files: &mut F,
    folder: &str,
    names: &[Word],
) -> Result<Loaded, LoadFault>
    // The meaning of the texts, or their first fault. Where the files tell what they hold, these
    // are the texts; where they don't, each name has one text.
    ensures loaded { IfOk result (λ loaded. (texts : FileTexts) × AgreesWith (F.texts files.old) texts
        × IsLoaded (text_in texts folder.now) names.now loaded.schema loaded.policy loaded.preset.rows) }
    ensures fault { (faulty : FaultyModule) → IsErrOf result (LoadFault.Module faulty)
        → (texts : FileTexts) × AgreesWith (F.texts files.old) texts
        × IsFirstFault (text_in texts folder.now) names.now faulty }

    // Whatever files tell: the registry is sound, the policy and the preset are over it, `File`
    // comes only where their count rose, and so does `Absent` where they don't tell.
    ensures sound { IfOk result (λ loaded. IsRegistry loaded.schema) }
    ensures over { IfOk result (λ loaded. IsPolicyOver loaded.schema loaded.policy) }
    ensures preset { IfOk result (λ loaded. IsPreset loaded.schema loaded.preset.rows) }
    ensures cause { HasCause (F.faults files.old) (F.faults files.new)
        (IsErrOf result LoadFault.File) }
    ensures absent { IfErr result
        (ToldAbsent (F.texts files.old) (Rose (F.faults files.old) (F.faults files.new))) }
    ensures same { F.texts files.new ≡ F.texts files.old }
{
    let modules = read_modules(alloc, files, folder, names)?;
    if let Some(number) = first_cyclic(alloc, &modules)? {
        return Err(refused(alloc, modules.name(number), ModuleFault::Cycle));
    }
    let taken = in_order(alloc, &modules, names)?;
    let models = all_models(alloc, &modules, &taken)?;
    match build_schema(alloc, models.as_slice()) {
        Ok(schema) => with_meaning(alloc, schema, &modules, &taken),
        Err(SchemaFault::NoMemory) => Err(LoadFault::NoMemory),
        Err(fault) => Err(models_fault(alloc, &modules, &taken, fault)),
    }
}

/// The registry of modules, with the policy that they declare over it and the rows that they
/// bring.
fn with_meaning(
    alloc: Global,
    schema: Schema,
    modules: &Modules,
    taken: &[usize],
) -> Result<Loaded, LoadFault>
    requires { (all : List Module) × numbered (modules_in modules.now) taken.now all }
    ensures same { IfOk result (λ loaded. loaded.schema ≡ schema) }
    ensures fits { IfOk result (λ _. (all : List Module) → numbered (modules_in modules.now) taken.now all → modules_fault schema all ≡ None) }
    ensures declared { IfOk result (λ loaded. (all : List Module) → numbered (modules_in modules.now) taken.now all → loaded.policy ≡ declared_policy schema all) }
    ensures brought { IfOk result (λ loaded. (all : List Module) → numbered (modules_in modules.now) taken.now all → loaded.preset.rows ≡ declared_preset schema all) }
    ensures over { IfOk result (λ loaded. IsPolicyOver loaded.schema loaded.policy) }
    ensures preset { IfOk result (λ loaded. IsPreset loaded.schema loaded.preset.rows) }
    ensures fault { (all : List Module) → numbered (modules_in modules.now) taken.now all → Tells result (modules_fault schema all) }
    ensures read { IfErr result IsOfText }
{
    let (policy, preset) = meaning_of(alloc, &schema, modules, taken)?;
    Ok(Loaded {
        schema,
        policy,
        preset,
    })
}

/// The models of modules, one after another.
fn all_models(
    alloc: Global,
    modules: &Modules,
    taken: &[usize],
) -> Result<Sequence<ModelDef>, NoMemory>
    requires { (all : List Module) × numbered (modules_in modules.now) taken.now all }
    ensures { IfOk result (λ models. (all : List Module) → numbered (modules_in modules.now) taken.now all
        → models ≡ spec.all_models all) }
{
    let mut models = Sequence::new(alloc);
    for number in taken {
        add_models(alloc, modules.document(*number), &mut models)?;
    }
    Ok(models)
}

/// The refusal of a fault of all models, told in the module that has its entry.
fn models_fault(alloc: Global, modules: &Modules, taken: &[usize], fault: SchemaFault) -> LoadFault
    requires { (all : List Module) × numbered (modules_in modules.now) taken.now all
        × ((rank fault).entry < length (spec.all_models all)) }
    ensures told { (all : List Module) (owner : Module) (entry : ℕ) → numbered (modules_in modules.now) taken.now all
        → spec.owner_of all (rank fault).entry ≡ Some (owner, entry)
        → Refuses (record { name = owner.name; place = spec.model_place entry (rank fault).field; fault = ModuleFault.Schema fault }) result }
    ensures not_files { result ≢ LoadFault.File }
{
    let Some(spot) = fault.spot() else {
        return LoadFault::NoMemory;
    };
    let Some((number, entry)) = owner_of(modules, taken, spot.entry) else {
        // Each entry is one of a module.
        unreachable!();
    };
    match model_place(alloc, entry, spot.field.as_str()) {
        Ok(place) => refused_at(
            alloc,
            modules.name(number),
            place,
            ModuleFault::Schema(fault),
        ),
        Err(NoMemory) => LoadFault::NoMemory,
    }
}

/// The module of an entry among all models, and the entry's number in it.
fn owner_of(modules: &Modules, taken: &[usize], entry: u32) -> Option<(usize, usize)>
    requires { (all : List Module) × numbered (modules_in modules.now) taken.now all }
    ensures some { IfSome result (λ p. (all : List Module) → numbered (modules_in modules.now) taken.now all
        → (m : Module) × (slice_get (modules_in modules.now) p.0 ≡ Some m) × (spec.owner_of all entry ≡ Some (m, p.1))) }
    ensures none { IfNone result ((all : List Module) → numbered (modules_in modules.now) taken.now all → spec.owner_of all entry ≡ None) }
{
    let mut left = entry as usize;
    for number in taken {
        let count = listed_at(modules.document(*number), "model").len();
        if left < count {
            return Some((*number, left));
        }
        left -= count;
    }
    None
}

/// The place of a field of a model in its module; without a field that of the model.
fn model_place(alloc: Global, number: usize, field: &str) -> Result<Place, NoMemory>
    ensures { IfOk result (λ place. place ≡ spec.model_place number field.now) }
{
    let mut place = Place::whole(alloc);
    place.push_key(alloc, "model")?;
    place.push(PathStep::Item(number as u64))?;
    if !field.is_empty() {
        place.push_key(alloc, "field")?;
        place.push_key(alloc, field)?;
    }
    Ok(place)
}
