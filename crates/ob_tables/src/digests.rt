//! Which rows may share a set of fields that no two may share, as an index: of each row, for each
//! such set of its model in which none of its fields is unset, a digest of its values. Rows that
//! share a set have the same digest, so that they are found among the few that have it. Two
//! digests may also be the same by chance: who looks here compares the values, and a digest may
//! be taken in another way at will. How the index follows what rows keep may change here too.

ghost use Rattle.std.specs.Prelude.{◌≡◌, ◌&&◌, ℕ, IfOk, None, OnErr, OnOk, Some, not, option_map};
ghost use Rattle.std.specs.BTreeMap as tree;
ghost use Rattle.ob_base.specs.Ids.{row_key_cmp};
ghost use Rattle.ob_schema.specs.Tables.{kept_in};
ghost use Rattle.ob_tables.specs.Digests.{AreDigested, AreTurned, GotDigests, HasAtMost, KeepsOthers, digest_in, digest_of, digested_at, fed_with, has_digest, is_digest, is_digested, sets_of, shown_found};
ghost use Rattle.ob_tables.specs.Rooms.{shown_row};
ghost use Rattle.ob_tables.specs.Sets.{set_value};

use crate::row::PlainRow;
use crate::rows::Rows;
use crate::unique::is_unset;
use ob_base::{FieldNo, ModelNo, NoMemory, RecId, RowKey, Sequence, Value};
use ob_schema::Schema;
use ob_shared::SharedMap;
use std::hash::{FoldHasher, Hash, Hasher};

/// A row whose values in a set have a digest. In their order the rows that have one stand
/// together, rising.
#[derive(Clone, Copy, Debug, PartialEq, Eq, PartialOrd, Ord, Hash)]
pub(crate) struct Digested {
    pub(crate) model: ModelNo,
    pub(crate) digest: u64,
    pub(crate) id: RecId,
}

/// The digests of rows.
pub(crate) type Digests = SharedMap<Digested, ()>;

/// Puts a row at a key, with its digests, in place of the one that is there.
pub(crate) fn put_row(
    schema: &Schema,
    rows: &mut Rows,
    digests: &mut Digests,
    key: RowKey,
    row: PlainRow,
) -> Result<(), NoMemory>
    requires { AreDigested schema.now rows.old digests.old }
    ensures updates { OnOk result (tree.Updates row_key_cmp rows.old rows.new key (Some row)) }
    ensures err { OnErr result (rows.new ≡ rows.old) }
    ensures digested { AreDigested schema.now rows.new digests.new }
{
    let turned = turned(schema, rows, digests, key, Some(&row))?;
    rows.insert(key, row)?;
    *digests = turned;
    Ok(())
}

/// Takes a row out, with its digests, if it is there.
pub(crate) fn remove_row(
    schema: &Schema,
    rows: &mut Rows,
    digests: &mut Digests,
    key: RowKey,
) -> Result<(), NoMemory>
    requires { AreDigested schema.now rows.old digests.old }
    ensures updates { OnOk result (tree.Updates row_key_cmp rows.old rows.new key None) }
    ensures err { OnErr result (rows.new ≡ rows.old) }
    ensures digested { AreDigested schema.now rows.new digests.new }
{
    let turned = turned(schema, rows, digests, key, None)?;
    rows.remove(&key)?;
    *digests = turned;
    Ok(())
}

/// The digests of the rows with another one at a key, or with none there.
fn turned(
    schema: &Schema,
    rows: &Rows,
    digests: &Digests,
    key: RowKey,
    row: Option<&PlainRow>,
) -> Result<Digests, NoMemory>
    requires { AreDigested schema.now rows.now digests.now }
    ensures { IfOk result (AreTurned schema.now key (shown_found row.entry) rows.now) }
{
    let sets = sets_of(schema, key.model);
    let old = rows.get(&key);
    let mut turned = digests.try_clone()?;
    take_out(&mut turned, sets, key, old, row)?;
    put_in(&mut turned, sets, key, row)?;
    Ok(turned)
}

/// The sets of fields that no two rows of a model may share.
fn sets_of(schema: &Schema, model: ModelNo) -> &[Sequence<FieldNo>]
    ensures { result.now ≡ sets_of schema.now model }
{
    match schema.find_model(model) {
        Some(info) => info.unique.as_slice(),
        None => &[],
    }
}

/// Takes out the digests of a row in some sets that another one doesn't have in them.
fn take_out(
    digests: &mut Digests,
    sets: &[Sequence<FieldNo>],
    key: RowKey,
    old: Option<&PlainRow>,
    new: Option<&PlainRow>,
) -> Result<(), NoMemory>
    requires { (digest : ℕ) → is_digested digests.old (digested_at key digest)
        ≡ has_digest sets.now (shown_found old) digest }
    ensures { IfOk result (λ _. HasAtMost sets.now key (shown_found new.entry) digests.old digests.new) }
{
    for set in sets {
        let before = digest_of(old, set.as_slice());
        let after = digest_of(new, set.as_slice());
        if before != after {
            remove_digest(digests, key, before)?;
        }
    }
    Ok(())
}

/// Takes out a digest of a row, where there is one.
fn remove_digest(digests: &mut Digests, key: RowKey, digest: Option<u64>) -> Result<(), NoMemory>
    ensures here { IfOk result (λ _. (other : ℕ) → is_digested digests.new (digested_at key other)
        ≡ (is_digested digests.old (digested_at key other) && not (is_digest digest other))) }
    ensures elsewhere { IfOk result (λ _. KeepsOthers key digests.old digests.new) }
{
    let Some(digest) = digest else {
        return Ok(());
    };
    digests.remove(&digested_at(key, digest))?;
    Ok(())
}

/// Puts in the digests of a row in some sets.
fn put_in(
    digests: &mut Digests,
    sets: &[Sequence<FieldNo>],
    key: RowKey,
    row: Option<&PlainRow>,
) -> Result<(), NoMemory>
    ensures { IfOk result (λ _. GotDigests key (has_digest sets.now (shown_found row.entry)) digests.old digests.new) }
{
    for set in sets {
        put_digest(digests, key, digest_of(row, set.as_slice()))?;
    }
    Ok(())
}

/// Puts in a digest of a row, where there is one. One that is in already takes no memory.
fn put_digest(digests: &mut Digests, key: RowKey, digest: Option<u64>) -> Result<(), NoMemory>
    ensures { IfOk result (λ _. GotDigests key (is_digest digest) digests.old digests.new) }
{
    let Some(digest) = digest else {
        return Ok(());
    };
    let entry = digested_at(key, digest);
    if digests.contains_key(&entry) {
        return Ok(());
    }
    digests.insert(entry, ())?;
    Ok(())
}

pub(crate) fn digested_at(key: RowKey, digest: u64) -> Digested
    ensures { result ≡ digested_at key digest }
{
    Digested {
        model: key.model,
        digest,
        id: key.id,
    }
}

/// The digest of the values of a row, where there is one, in a set of fields.
fn digest_of(row: Option<&PlainRow>, set: &[FieldNo]) -> Option<u64>
    ensures { result ≡ digest_of (shown_found row.entry) set.now }
{
    digest_in(row?, set)
}

/// The digest of a row's values in a set of fields; none where one of them is unset.
pub(crate) fn digest_in(row: &PlainRow, set: &[FieldNo]) -> Option<u64>
    ensures { result ≡ digest_in (shown_row row.now) set.now }
{
    let mut hasher = FoldHasher::default();
    for field in set {
        let value = value_in(row, *field)?;
        feed(&mut hasher, value);
    }
    Some(hasher.finish())
}

/// What a row has for a field; none where it is unset.
fn value_in(row: &PlainRow, field: FieldNo) -> Option<&Value>
    ensures { option_map (λ value. value.now) result ≡ set_value (Some (kept_in (shown_row row.now) field)) }
{
    let value = row.get(&field.0)?;
    if is_unset(value) {
        return None;
    }
    Some(value)
}

/// Feeds a hasher a value. That equal values feed it alike is all that is wanted of this; that
/// others seldom do makes look-ups fast.
#[tactic(auto, unfolding(crate::specs::Digests::fed_with))]
fn feed(hasher: &mut FoldHasher, value: &Value)
    ensures { hasher.new ≡ fed_with hasher.old value.now }
{
    match value {
        Value::Nil => {}
        Value::Bool(flag) => flag.hash(hasher),
        Value::Int(number) => number.hash(hasher),
        Value::Word(text) => text.as_str().hash(hasher),
        Value::Day(day) => day.hash(hasher),
        Value::Moment(moment) => moment.hash(hasher),
        Value::Ref(id) => id.hash(hasher),
        Value::Refs(ids) => ids.as_slice().hash(hasher),
    }
}
