//! Keepers in memory, through the trait: that calls which need no more memory than
//! there is do answer, and that a chosen one fails and changes nothing.

ghost use Rattle.ob_io.specs.Store.{Fits63, IsChangeFit};

use crate::told::{agree, tell, tell_bytes, tell_value};
use ob_base::{FieldNo, ModelNo, NoMemory, RecId, Sequence};
use ob_io::{Change, KeepFault, Keeper, KeptRow, Link, MemKeeper, SureKeeper};
use std::alloc::Global;
use std::slice;
use std::test::Fail;

pub(crate) const CITY: ModelNo = ModelNo(1);

const ROAD: ModelNo = ModelNo(2);

const FROM: Link = Link {
    field: FieldNo(4),
    target: RecId(30),
};

const TO: Link = Link {
    field: FieldNo(5),
    target: RecId(20),
};

/// A link that no row is given.
const TO_NONE: Link = Link {
    field: FieldNo(5),
    target: RecId(30),
};

/// The links that a row is given.
#[derive(Clone, Copy)]
enum Links {
    None,
    Rising,
    Falling,
}

/// Keeps a row of one byte with such links.
fn put<K: Keeper>(
    alloc: Global,
    keeper: &mut K,
    model: ModelNo,
    id: u32,
    byte: u8,
    order: Links,
) -> Result<(), KeepFault> {
    let mut body = Sequence::new(alloc);
    body.push(byte)?;
    let mut links = Sequence::new(alloc);
    match order {
        Links::None => {}
        Links::Rising => {
            links.push(FROM)?;
            links.push(TO)?;
        }
        Links::Falling => {
            links.push(TO)?;
            links.push(FROM)?;
        }
    }
    let id = RecId(u64::from(id));
    let row = KeptRow { id, body, links };
    keeper.commit(slice::from_ref(&Change::Put { model, row }))
}

/// Keeps a row of one byte with such links, and adds whether that was carried out.
fn tell_put<K: Keeper>(
    alloc: Global,
    text: &mut String,
    keeper: &mut K,
    model: ModelNo,
    id: u32,
    byte: u8,
    order: Links,
) {
    tell_kept(text, put(alloc, keeper, model, id, byte, order));
}

/// Carries out a change, and adds whether that was done.
pub(crate) fn tell_change<K: Keeper>(text: &mut String, keeper: &mut K, change: &Change)
    requires { IsChangeFit change.now }
{
    tell_kept(text, keeper.commit(slice::from_ref(change)));
}

/// Adds whether changes were carried out.
pub(crate) fn tell_kept(text: &mut String, answer: Result<(), KeepFault>) {
    match answer {
        Ok(()) => tell(text, "kept"),
        Err(fault) => tell_value(text, &fault),
    }
}

/// Adds the body of a row and its links in their order, where it is kept.
pub(crate) fn tell_row<K: Keeper>(text: &mut String, keeper: &mut K, model: ModelNo, id: u32) {
    match keeper.fetch(model, RecId(u64::from(id))) {
        Ok(Some(row)) => {
            tell_bytes(text, row.body.as_slice());
            tell_links(text, row.links.as_slice());
        }
        Ok(None) => tell(text, "gone"),
        Err(_) => tell(text, "failed"),
    }
}

/// Adds the field and the target of each link.
fn tell_links(text: &mut String, links: &[Link]) {
    for link in links {
        tell_value(text, &link.field.0);
        tell_value(text, &link.target.0);
    }
}

/// Adds the model's next id, or why there is none.
pub(crate) fn tell_next<K: Keeper>(text: &mut String, keeper: &mut K, model: ModelNo) {
    match keeper.next_id(model) {
        Ok(next) => tell_value(text, &next),
        Err(fault) => tell_value(text, &fault),
    }
}

/// Adds the ids of a page of cities, and a comma.
pub(crate) fn tell_page<K: Keeper>(text: &mut String, keeper: &mut K, after: u32, most: u32) {
    if let Ok(rows) = keeper.page(CITY, RecId(u64::from(after)), most) {
        for row in rows.as_slice() {
            tell_value(text, &row.id.0);
        }
    }
    tell(text, ",");
}

/// Adds the ids of the model's rows with this link, and a comma.
pub(crate) fn tell_holders<K: Keeper>(
    text: &mut String,
    keeper: &mut K,
    model: ModelNo,
    link: Link,
    after: u32,
)
    requires { Fits63 link.target.0 }
{
    let after = RecId(u64::from(after));
    if let Ok(ids) = keeper.holders(model, link.field, link.target, after, 5) {
        for id in ids.as_slice() {
            tell_value(text, &id.0);
        }
    }
    tell(text, ",");
}

/// Rows that are kept, replaced and forgotten.
fn tell_replaced<K: Keeper>(alloc: Global, text: &mut String, keeper: &mut K) {
    tell_put(alloc, text, keeper, CITY, 7, b'a', Links::None);
    tell_put(alloc, text, keeper, CITY, 8, b'b', Links::None);
    tell_put(alloc, text, keeper, ROAD, 7, b'c', Links::None);
    tell_row(text, keeper, CITY, 7);
    tell_put(alloc, text, keeper, CITY, 7, b'd', Links::None);
    tell_row(text, keeper, CITY, 7);
    let (model, id) = (CITY, RecId(7));
    tell_change(text, keeper, &Change::Gone { model, id });
    tell_row(text, keeper, CITY, 7);
    tell_row(text, keeper, CITY, 8);
    tell_row(text, keeper, ROAD, 7);
}

/// Next ids, which are counted by model, and pages, which begin past an id.
fn tell_counted<K: Keeper>(alloc: Global, text: &mut String, keeper: &mut K) {
    tell_next(text, keeper, CITY);
    let (model, next) = (CITY, 5);
    tell_change(text, keeper, &Change::Next { model, next });
    tell_next(text, keeper, CITY);
    tell_next(text, keeper, ROAD);
    tell_put(alloc, text, keeper, CITY, 9, 3, Links::None);
    tell_put(alloc, text, keeper, CITY, 4, 1, Links::None);
    tell_put(alloc, text, keeper, CITY, 6, 2, Links::None);
    tell_put(alloc, text, keeper, ROAD, 5, 9, Links::None);
    tell_page(text, keeper, 4, 5);
    tell_page(text, keeper, 0, 1);
    tell_page(text, keeper, 9, 5);
}

/// Links, which come back in their order, and the rows that they lead from.
fn tell_linked<K: Keeper>(alloc: Global, text: &mut String, keeper: &mut K) {
    tell_put(alloc, text, keeper, ROAD, 2, b'r', Links::Falling);
    tell_put(alloc, text, keeper, ROAD, 1, b'r', Links::Rising);
    tell_row(text, keeper, ROAD, 2);
    tell_holders(text, keeper, ROAD, TO, 0);
    tell_holders(text, keeper, ROAD, TO, 1);
    tell_holders(text, keeper, ROAD, TO_NONE, 0);
}

/// A commit that fails, and changes nothing.
fn tell_failing<K: Keeper>(alloc: Global, text: &mut String, keeper: &mut K) {
    tell_put(alloc, text, keeper, CITY, 7, b'a', Links::None);
    tell_put(alloc, text, keeper, CITY, 7, b'd', Links::None);
    tell_row(text, keeper, CITY, 7);
    tell_put(alloc, text, keeper, CITY, 7, b'e', Links::None);
    tell_row(text, keeper, CITY, 7);
}

/// A keeper that keeps nothing.
fn sure_keeper(alloc: Global) -> Result<SureKeeper, NoMemory> {
    SureKeeper::new(alloc, Vec::new(alloc), Vec::new(alloc))
}

/// A keeper that keeps nothing, whose second commit fails.
fn failing_keeper(alloc: Global) -> Result<MemKeeper, NoMemory> {
    let fail = [2].to_vec(alloc)?;
    MemKeeper::new(alloc, Vec::new(alloc), Vec::new(alloc), fail)
}

/// All of them.
fn tell_all(alloc: Global, text: &mut String) -> Result<(), NoMemory> {
    tell_replaced(alloc, text, &mut sure_keeper(alloc)?);
    tell(text, "counted:");
    tell_counted(alloc, text, &mut sure_keeper(alloc)?);
    tell(text, "linked:");
    tell_linked(alloc, text, &mut sure_keeper(alloc)?);
    tell(text, "fails at 2:");
    tell_failing(alloc, text, &mut failing_keeper(alloc)?);
    Ok(())
}

#[test]
fn keepers(rt: HostRuntime) -> Result<(), Fail> {
    let mut text = String::new(rt.alloc());
    tell_all(rt.alloc(), &mut text)?;
    agree(
        &rt,
        text.as_str(),
        "kept kept kept a kept d kept gone b c \
         counted: 1 kept 5 1 kept kept kept kept 6 9 , 4 , , \
         linked: kept kept r 4 30 5 20 1 2 , 2 , , \
         fails at 2: kept the keeper failed a kept e ",
    );
    Ok(())
}
