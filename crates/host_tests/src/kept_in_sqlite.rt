//! The keeper in SQLite, over a database in memory: that it keeps what it is given, as the one in
//! memory does, and what it answers without a connection or behind one that can't be asked.

ghost use Rattle.std.specs.Prelude.{IfOk};
ghost use Rattle.ob_io.specs.Store.{IsChangeFit, IsRowFit};

use crate::keepers::in_memory;
use crate::rows::{CITY, tell_change, tell_holders, tell_kept, tell_next, tell_page, tell_row};
use crate::told::{agree, tell};
use ob_base::{FieldNo, NoMemory, RecId, Sequence};
use ob_io::{Change, KeepFault, Keeper, KeptRow, Link, SureKeeper};
use ob_sqlite::SqliteKeeper;
use sqlite::{Connection, MemStore};
use std::alloc::Global;
use std::test::Fail;

const TO_FIVE: Link = Link {
    field: FieldNo(2),
    target: RecId(5),
};

const TO_ONE: Link = Link {
    field: FieldNo(3),
    target: RecId(1),
};

const TO_FOUR: Link = Link {
    field: FieldNo(3),
    target: RecId(4),
};

/// A row of one byte with three links out of their order, or with the last of them alone.
fn row_of(alloc: Global, id: u32, byte: u8, has_all: bool) -> Result<KeptRow, NoMemory>
    ensures { IfOk result IsRowFit }
{
    let mut body = Sequence::new(alloc);
    body.push(byte)?;
    let mut links = Sequence::new(alloc);
    if has_all {
        links.push(TO_ONE)?;
        links.push(TO_FIVE)?;
    }
    links.push(TO_FOUR)?;
    let id = RecId(u64::from(id));
    Ok(KeptRow { id, body, links })
}

/// Adds what each reading call tells, and a bar.
fn tell_all<K: Keeper>(text: &mut String, keeper: &mut K) {
    tell_next(text, keeper, CITY);
    tell_row(text, keeper, CITY, 7);
    tell_page(text, keeper, 0, 5);
    tell_page(text, keeper, 0, 1);
    tell_holders(text, keeper, CITY, TO_FOUR, 0);
    tell_holders(text, keeper, CITY, TO_FOUR, 7);
    tell_holders(text, keeper, CITY, TO_FIVE, 0);
    tell(text, "|");
}

/// The change that puts such a row; short of memory one that lets it go.
fn put_of(alloc: Global, id: u32, byte: u8, has_all: bool) -> Change
    ensures { IsChangeFit result }
{
    let model = CITY;
    match row_of(alloc, id, byte, has_all) {
        Ok(row) => Change::Put { model, row },
        Err(NoMemory) => {
            let id = RecId(u64::from(id));
            Change::Gone { model, id }
        }
    }
}

/// Keeps two cities with links and a next id, by one list.
fn keep_two<K: Keeper>(alloc: Global, keeper: &mut K) -> Result<(), KeepFault> {
    let mut changes = Sequence::new(alloc);
    changes.push(put_of(alloc, 7, b'a', true))?;
    changes.push(put_of(alloc, 9, b'b', false))?;
    let (model, next) = (CITY, 12);
    changes.push(Change::Next { model, next })?;
    keeper.commit(changes.as_slice())
}

/// What a keeper tells that keeps nothing at first: it is given two cities, gives one of them
/// other links, and lets it go.
fn told_by<K: Keeper>(alloc: Global, keeper: &mut K) -> String {
    let mut text = String::new(alloc);
    tell_all(&mut text, keeper);
    tell_kept(&mut text, keep_two(alloc, keeper));
    tell_all(&mut text, keeper);
    tell_change(&mut text, keeper, &put_of(alloc, 7, b'c', false));
    tell_all(&mut text, keeper);
    let (model, id) = (CITY, RecId(7));
    tell_change(&mut text, keeper, &Change::Gone { model, id });
    tell_all(&mut text, keeper);
    text
}

#[test]
fn sqlite_keeps_what_it_is_given(rt: HostRuntime) -> Result<(), Fail> {
    let alloc = rt.alloc();
    let mut sure = SureKeeper::new(alloc, Vec::new(alloc), Vec::new(alloc))?;
    let wanted = told_by(alloc, &mut sure);
    let text = told_by(alloc, &mut in_memory(alloc));
    agree(&rt, text.as_str(), wanted.as_str());
    agree(
        &rt,
        text.as_str(),
        "1 gone , , , , , | kept 12 a 2 5 3 1 3 4 7 9 , 7 , 7 9 , 9 , 7 , | \
         kept 12 c 3 4 7 9 , 7 , 7 9 , 9 , , | kept 12 gone 9 , 9 , 9 , 9 , , | ",
    );
    Ok(())
}

/// Without a connection.
fn tell_closed(text: &mut String, lacks_memory: bool) {
    let mut keeper: SqliteKeeper<MemStore> = SqliteKeeper::closed(lacks_memory);
    tell_next(text, &mut keeper, CITY);
}

/// Over a connection that is in a transaction.
fn tell_begun(alloc: Global, text: &mut String) -> Result<(), Fail> {
    let mut connection = Connection::open_in_memory(alloc)?;
    connection.execute("BEGIN", &[])?;
    let mut keeper = SqliteKeeper::adopt(connection);
    tell_next(text, &mut keeper, CITY);
    tell_next(text, &mut keeper, CITY);
    Ok(())
}

/// Over a next id that doesn't fit.
fn tell_unfit(alloc: Global, text: &mut String) -> Result<(), Fail> {
    let mut connection = Connection::open_in_memory(alloc)?;
    connection.execute_batch(
        "CREATE TABLE counter(model INTEGER PRIMARY KEY, next INTEGER) STRICT; INSERT INTO counter VALUES(1, -12)",
    )?;
    tell_next(text, &mut SqliteKeeper::adopt(connection), CITY);
    Ok(())
}

#[test]
fn sqlite_that_cannot_be_asked(rt: HostRuntime) -> Result<(), Fail> {
    let alloc = rt.alloc();
    let mut text = String::new(alloc);
    tell_closed(&mut text, true);
    tell_closed(&mut text, false);
    tell_begun(alloc, &mut text)?;
    tell_unfit(alloc, &mut text)?;
    agree(
        &rt,
        text.as_str(),
        "no memory the keeper failed the keeper failed the keeper failed the keeper failed ",
    );
    Ok(())
}
