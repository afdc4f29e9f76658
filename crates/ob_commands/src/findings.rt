//! What is to be told of objects of values, those inside commands among them: the first field that
//! the caller may not give, and the first place that is wrong. Both are the first in byte order of
//! keys, where the keys inside a command come behind the one of its list.

ghost use Rattle.std.specs.Prelude.{◌≡◌, All, IfErr, IfOk, OnOk, false, true};
ghost use Rattle.ob_codec.specs.CommandForms.{IsObject};
ghost use Rattle.ob_codec.specs.Held.{HasIdsAndObjects};
ghost use Rattle.ob_commands.specs.Finding.{IsFound};
ghost use Rattle.ob_effect.specs.Rights.{may_give};
ghost use Rattle.ob_effect.specs.declared.asking.Caller.{Caller};
ghost use Rattle.ob_definition.specs.Types.{is_list};
ghost use Rattle.ob_schema.specs.Models.{FieldHas, HasModel};
ghost use Rattle.serde_json.specs.View.{view};

use ob_base::{FieldNo, ModelNo, NoMemory, PathStep, Place, Refusal, Sequence};
use ob_call::Json;
use ob_codec::{CodecFault, Command, Input};
use ob_effect::{Caller, input_of, may_give};
use ob_schema::{Schema, Step};
use std::alloc::Global;

/// What goes through objects of values: memory, the registry and who calls.
#[derive(Clone, Copy)]
pub(crate) struct Finder<'c> {
    pub(crate) alloc: Global,
    pub(crate) schema: &'c Schema,
    pub(crate) by: Caller<'c>,
}

/// A field that the caller may not give, and a place that is wrong, where there are such.
#[derive(Drop)]
pub(crate) struct Findings {
    pub(crate) withheld: Option<Step>,
    pub(crate) wrong: Option<Place>,
}

impl Findings {
    /// Nothing is found.
    pub(crate) fn none() -> Findings
        ensures { (by : Caller) → IsFound by result }
    {
        Findings {
            withheld: None,
            wrong: None,
        }
    }
}

/// Adds what is found behind what is found so far.
pub(crate) fn add_findings(found: &mut Findings, more: Findings)
    ensures { (by : Caller) → IsFound by found.old → IsFound by more → IsFound by found.new }
{
    let Findings { withheld, wrong } = more;
    if found.withheld.is_none() {
        found.withheld = withheld;
    }
    if found.wrong.is_none() {
        found.wrong = wrong;
    }
}

/// What is found in an object of values of a model, with places below the object.
#[cycle(finding)]
pub(crate) fn findings_in(
    finder: &Finder<'_>,
    model: ModelNo,
    json: &Json,
) -> Result<Findings, Refusal>
    requires model { HasModel finder.now.schema.now model }
    requires object { IsObject (view json.now) }
    ensures found { IfOk result (IsFound finder.entry.now.by) }
    ensures causes { IfErr result (λ why. why ≡ Refusal.NoMemory) }
{
    let Json::Object(members) = json else {
        unreachable!();
    };
    let mut found = Findings::none();
    for (name, json) in members {
        find_in_member(finder, model, name.as_str(), json, &mut found)?;
    }
    Ok(found)
}

/// Adds what is found in a member of an object.
#[cycle(finding)]
fn find_in_member(
    finder: &Finder<'_>,
    model: ModelNo,
    name: &str,
    json: &Json,
    found: &mut Findings,
) -> Result<(), Refusal>
    requires model { HasModel finder.now.schema.now model }
    ensures found { OnOk result (IsFound finder.entry.now.by found.old → IsFound finder.entry.now.by found.new) }
    ensures causes { IfErr result (λ why. why ≡ Refusal.NoMemory) }
{
    let Some(field) = finder.schema.field(model, name) else {
        add_findings(found, wrong_at(key_place(finder.alloc, name)?));
        return Ok(());
    };
    if !may_give(&finder.by, model, field) {
        add_findings(found, withheld(Step { model, field }));
    }
    match input_of(finder.alloc, finder.schema, model, field, json) {
        Ok(Input::Plain(_)) => Ok(()),
        Ok(Input::Commands(commands)) => find_in_list(finder, model, field, commands, found),
        Err(CodecFault::NoMemory) => Err(Refusal::NoMemory),
        Err(CodecFault::Shape(place) | CodecFault::Range(place) | CodecFault::Unknown(place)) => {
            add_findings(found, wrong_at(below_key(finder.alloc, name, &place)?));
            Ok(())
        }
    }
}

/// Adds what is found in the objects of commands on a list.
#[cycle(finding)]
fn find_in_list(
    finder: &Finder<'_>,
    model: ModelNo,
    field: FieldNo,
    commands: Sequence<Command>,
    found: &mut Findings,
) -> Result<(), Refusal>
    requires field { FieldHas finder.now.schema.now (λ info. is_list info.field_type ≡ true) model field }
    requires commands { All HasIdsAndObjects commands }
    ensures found { OnOk result (IsFound finder.entry.now.by found.old → IsFound finder.entry.now.by found.new) }
    ensures causes { IfErr result (λ why. why ≡ Refusal.NoMemory) }
{
    // The law of registries, by which a list is one of rows of a model.
    finder.schema.parts_fit_together();
    let info = finder.schema.info(model, field);
    let Some(target) = info.relation else {
        unreachable!();
    };
    for (number, command) in commands.as_slice().iter().enumerate() {
        let own = find_in_command(finder, target, command)?;
        let below = Below {
            name: info.name.as_str(),
            number,
        };
        add_findings(found, placed(finder.alloc, below, own)?);
    }
    Ok(())
}

/// What is found in the object of a command on a list of rows of a model.
#[cycle(finding)]
fn find_in_command(
    finder: &Finder<'_>,
    target: ModelNo,
    command: &Command,
) -> Result<Findings, Refusal>
    requires model { HasModel finder.now.schema.now target }
    requires command { HasIdsAndObjects command.now }
    ensures found { IfOk result (IsFound finder.entry.now.by) }
    ensures causes { IfErr result (λ why. why ≡ Refusal.NoMemory) }
{
    match command {
        Command::Create(json) | Command::Update(_, json) => findings_in(finder, target, json),
        _ => Ok(Findings::none()),
    }
}

/// Where a command stands: under a key, and its number in the list.
#[derive(Clone, Copy)]
struct Below<'n> {
    name: &'n str,
    number: usize,
}

/// Findings in the object of a command, with places from the object around it on.
fn placed(alloc: Global, below: Below<'_>, found: Findings) -> Result<Findings, NoMemory>
    ensures { IfOk result (λ placed. placed.withheld ≡ found.withheld) }
{
    let Findings { withheld, wrong } = found;
    let wrong = match wrong {
        Some(place) => Some(object_place(alloc, below, &place)?),
        None => None,
    };
    Ok(Findings { withheld, wrong })
}

/// The place of something in the object of a command, which is the command's element 2.
fn object_place(alloc: Global, below: Below<'_>, place: &Place) -> Result<Place, NoMemory> {
    let mut whole = key_place(alloc, below.name)?;
    whole.push(PathStep::Item(below.number as u64))?;
    whole.push(PathStep::Item(2))?;
    whole.extend(alloc, place)?;
    Ok(whole)
}

/// The place of a key.
fn key_place(alloc: Global, name: &str) -> Result<Place, NoMemory> {
    let mut place = Place::whole(alloc);
    place.push_key(alloc, name)?;
    Ok(place)
}

/// A place below a key.
fn below_key(alloc: Global, name: &str, place: &Place) -> Result<Place, NoMemory> {
    let mut whole = key_place(alloc, name)?;
    whole.extend(alloc, place)?;
    Ok(whole)
}

/// A place is wrong.
fn wrong_at(place: Place) -> Findings
    ensures { (by : Caller) → IsFound by result }
{
    Findings {
        withheld: None,
        wrong: Some(place),
    }
}

/// A field may not be given.
fn withheld(field: Step) -> Findings
    ensures { (by : Caller) → may_give by field.model field.field ≡ false → IsFound by result }
{
    Findings {
        withheld: Some(field),
        wrong: None,
    }
}
