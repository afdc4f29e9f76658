//! Lists of changes drawn from a seed, each given to a keeper in SQLite and to the one in memory:
//! over a database in memory, over files in memory, and over a file of the host. After each list both
//! are asked the same. tools/keepers.sh gives more lists, and another seed.

ghost use Rattle.std.specs.Prelude.{◌≢◌, All, AllPairs, IfOk};
ghost use Rattle.ob_io.specs.Store.{Fits63, IsChangeFit, IsRowFit};

use crate::told::{agree, tell};
use ob_base::{FieldNo, ModelNo, NoMemory, RecId, Sequence};
use ob_io::{Change, Keeper, KeptRow, Link, SureKeeper};
use ob_sqlite::{SqliteKeeper, keeper_at};
use sqlite::{Connection, Files, MemStore, Options};
use sqlite_disk::Memory;
use std::alloc::Global;
use std::fmt::Debug;
use std::test::Fail;

/// How many lists each keeper in SQLite is given.
const LISTS: u32 = 50;

/// Where the drawing begins.
const SEED: u64 = 1;

/// More rows than a model ever has here.
const MANY: u32 = 100;

/// What is drawn next.
#[derive(Clone, Copy)]
struct Draw(u64);

impl Draw {
    /// Any byte.
    fn byte(&mut self) -> u8 {
        self.0 = self
            .0
            .wrapping_mul(6_364_136_223_846_793_005)
            .wrapping_add(1_442_695_040_888_963_407);
        (self.0 >> 56) as u8
    }

    /// A number of at most eight, or now and then the greatest that a keeper may be handed.
    fn number(&mut self) -> RecId
        ensures { Fits63 result.0 }
    {
        match self.byte() {
            255 => RecId(9_223_372_036_854_775_807),
            byte => RecId(u64::from(byte & 7) + 1),
        }
    }

    /// One of three models.
    fn model(&mut self) -> ModelNo {
        ModelNo(u16::from(self.byte() % 3))
    }

    /// One of the fields that links are of.
    fn field(&mut self) -> FieldNo {
        FieldNo(u16::from(self.byte() & 3))
    }
}

/// Up to three links, not in their order.
fn links_of(alloc: Global, draw: &mut Draw) -> Result<Sequence<Link>, NoMemory>
    ensures { IfOk result (λ links. All (λ link. Fits63 link.target.0) links × AllPairs (λ a b. a ≢ b) links) }
{
    let mut links = Sequence::new(alloc);
    let shape = draw.byte() & 3;
    let target = draw.number();
    if shape > 0 {
        links.push(Link {
            field: FieldNo(3),
            target,
        })?;
    }
    if shape > 1 {
        links.push(Link {
            field: FieldNo(1),
            target,
        })?;
    }
    if shape > 2 {
        let target = draw.number();
        links.push(Link {
            field: FieldNo(2),
            target,
        })?;
    }
    Ok(links)
}

/// Up to seven bytes.
fn body_of(alloc: Global, draw: &mut Draw) -> Result<Sequence<u8>, NoMemory> {
    let mut body = Sequence::new(alloc);
    for _ in 0..draw.byte() & 7 {
        body.push(draw.byte())?;
    }
    Ok(body)
}

/// A row of this id.
fn row_of(alloc: Global, draw: &mut Draw, id: RecId) -> Result<KeptRow, NoMemory>
    requires { Fits63 id.0 }
    ensures { IfOk result IsRowFit }
{
    let links = links_of(alloc, draw)?;
    let body = body_of(alloc, draw)?;
    Ok(KeptRow { id, body, links })
}

/// Any change; a row is put half the time.
fn change_of(alloc: Global, draw: &mut Draw) -> Change
    ensures { IsChangeFit result }
{
    let model = draw.model();
    let id = draw.number();
    match draw.byte() & 3 {
        0 => Change::Next { model, next: id.0 },
        1 => Change::Gone { model, id },
        _ => match row_of(alloc, draw, id) {
            Ok(row) => Change::Put { model, row },
            Err(NoMemory) => Change::Gone { model, id },
        },
    }
}

/// Adds an answer.
fn note<T: Debug>(text: &mut String, answer: &T) {
    let _ = write!(text, "{answer:?} ");
}

/// Adds what a keeper answers of each model.
fn ask<K: Keeper>(text: &mut String, keeper: &mut K, mut draw: Draw) {
    for number in 0..3u16 {
        let model = ModelNo(number);
        let (id, after) = (draw.number(), draw.number());
        let most = u32::from(draw.byte() & 3);
        note(text, &keeper.next_id(model));
        note(text, &keeper.fetch(model, id));
        note(text, &keeper.page(model, RecId(0), MANY));
        note(text, &keeper.page(model, after, most));
        note(
            text,
            &keeper.holders(model, draw.field(), id, RecId(0), MANY),
        );
        note(text, &keeper.holders(model, draw.field(), id, after, most));
    }
}

/// Draws so many changes; none where one finds no memory.
fn changes_of(alloc: Global, draw: &mut Draw, count: u8) -> Sequence<Change>
    ensures { All IsChangeFit result }
{
    let mut changes = Sequence::new(alloc);
    for _ in 0..count {
        let change = change_of(alloc, draw);
        if changes.push(change).is_err() {
            return Sequence::new(alloc);
        }
    }
    changes
}

/// Draws a list of no, one, three or six changes.
fn list_of(alloc: Global, draw: &mut Draw) -> Sequence<Change>
    ensures { All IsChangeFit result }
{
    let count = match draw.byte() & 3 {
        0 => 0,
        1 => 1,
        2 => 3,
        _ => 6,
    };
    changes_of(alloc, draw, count)
}

/// What a keeper tells that is given changes, and is asked behind them.
fn told_by<K: Keeper>(alloc: Global, keeper: &mut K, changes: &[Change], draw: Draw) -> String
    requires { All IsChangeFit changes.now }
{
    let mut text = String::new(alloc);
    note(&mut text, &keeper.commit(changes));
    ask(&mut text, keeper, draw);
    text
}

/// Gives both keepers these changes, asks both the same, and adds what they tell where that differs.
fn give_both<K: Keeper>(
    alloc: Global,
    report: &mut String,
    keeper: &mut K,
    sure: &mut SureKeeper,
    changes: &[Change],
    draw: Draw,
)
    requires { All IsChangeFit changes.now }
{
    let found = told_by(alloc, keeper, changes, draw);
    let wanted = told_by(alloc, sure, changes, draw);
    if found.is_empty() || found.as_str() != wanted.as_str() {
        tell(report, "found:");
        tell(report, found.as_str());
        tell(report, "wanted:");
        tell(report, wanted.as_str());
    }
}

/// Gives this keeper, which is empty, and one in memory so many lists.
fn give_lists<K: Keeper>(
    alloc: Global,
    report: &mut String,
    keeper: &mut K,
) -> Result<(), NoMemory> {
    let mut sure = SureKeeper::new(alloc, Vec::new(alloc), Vec::new(alloc))?;
    let mut draw = Draw(SEED);
    for _ in 0..LISTS {
        let changes = list_of(alloc, &mut draw);
        give_both(alloc, report, keeper, &mut sure, changes.as_slice(), draw);
    }
    Ok(())
}

/// A keeper over a database in memory.
pub(crate) fn in_memory(alloc: Global) -> SqliteKeeper<MemStore> {
    match Connection::open_in_memory(alloc) {
        Ok(connection) => SqliteKeeper::adopt(connection),
        Err(_) => SqliteKeeper::closed(true),
    }
}

/// Gives lists to a keeper over files in memory.
fn give_files(alloc: Global, report: &mut String) -> Result<(), NoMemory> {
    let files = Files {
        log: Memory::new(alloc),
        db: Memory::new(alloc),
    };
    match Connection::open_files(alloc, files, Options::new(SEED)) {
        Ok(connection) => give_lists(alloc, report, &mut SqliteKeeper::adopt(connection)),
        Err(_) => {
            tell(report, "shut");
            Ok(())
        }
    }
}

/// Gives lists to a keeper over a file of the host.
fn give_host(rt: &HostRuntime, report: &mut String) -> Result<(), NoMemory> {
    let mut keeper = keeper_at(rt, "lists");
    let given = give_lists(rt.alloc(), report, &mut keeper);
    keeper.close();
    given
}

/// Gives lists to each of the three.
fn give_all(rt: &HostRuntime, report: &mut String) -> Result<(), NoMemory> {
    let alloc = rt.alloc();
    give_lists(alloc, report, &mut in_memory(alloc))?;
    give_files(alloc, report)?;
    give_host(rt, report)
}

#[test]
fn keepers_agree(rt: HostRuntime) -> Result<(), Fail> {
    let mut report = String::new(rt.alloc());
    give_all(&rt, &mut report)?;
    agree(&rt, report.as_str(), "");
    Ok(())
}
