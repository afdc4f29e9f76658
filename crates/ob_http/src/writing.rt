//! Texts that go to a connection one after another, in few writes: each write may be a packet of
//! its own, which wakes whoever waits for it. Nothing here takes memory. How many bytes wait for
//! a write may be changed here.

ghost use Rattle.std.specs.Prelude.{◌≡◌, ◌++◌, OnOk, OnErr, IsErr};
ghost use Rattle.std.specs.List.{flat_map};
ghost use Rattle.ob_io.specs.Cause.{HasCause};
ghost use Rattle.ob_http.specs.Written.{Wrote, WrotePart, WroteFront};

use arrayvec::ArrayVec;
use ob_io::{Door, Failed};

/// How many bytes wait for those behind them, at most.
const ROOM: usize = 8192;

/// Writes texts, one after another: those that there is room for wait for the next ones.
pub(crate) fn write_texts<D: Door>(door: &mut D, texts: &[&[u8]]) -> Result<(), Failed>
    ensures ok { OnOk result
        (Wrote (D.written door.old) (D.written door.new) (flat_map (λ text. text.now) texts.now)) }
    ensures err { OnErr result
        (WrotePart (D.written door.old) (D.written door.new) (flat_map (λ text. text.now) texts.now)) }
    ensures others { (D.coming door.new ≡ D.coming door.old) × (D.left door.new ≡ D.left door.old) }
    ensures cause { HasCause (D.faults door.old) (D.faults door.new) (IsErr result) }
    ensures count { D.next_faults door.new ≡ D.next_faults door.old }
{
    let mut rest = ArrayVec::<u8, ROOM>::new();
    for text in texts {
        write_behind(door, &mut rest, text)?;
    }
    write_all(door, rest.as_slice())
}

/// Lets a text wait behind what waits, or writes both where there is no room for it.
fn write_behind<D: Door>(
    door: &mut D,
    waiting: &mut ArrayVec<u8, ROOM>,
    text: &[u8],
) -> Result<(), Failed>
    ensures ok { OnOk result (WroteFront (D.written door.old) (D.written door.new)
        (waiting.old.items ++ text.now) waiting.new.items) }
    ensures err { OnErr result
        (WrotePart (D.written door.old) (D.written door.new) (waiting.old.items ++ text.now)) }
    ensures others { (D.coming door.new ≡ D.coming door.old) × (D.left door.new ≡ D.left door.old) }
    ensures cause { HasCause (D.faults door.old) (D.faults door.new) (IsErr result) }
    ensures count { D.next_faults door.new ≡ D.next_faults door.old }
{
    if waiting.try_extend_from_slice(text).is_ok() {
        return Ok(());
    }
    write_all(door, waiting.as_slice())?;
    waiting.clear();
    write_all(door, text)
}

/// Writes all bytes, or as many as the connection took before it failed, which are not all.
pub(crate) fn write_all<D: Door>(door: &mut D, bytes: &[u8]) -> Result<(), Failed>
    ensures ok { OnOk result (Wrote (D.written door.old) (D.written door.new) bytes.now) }
    ensures err { OnErr result (WrotePart (D.written door.old) (D.written door.new) bytes.now) }
    ensures others { (D.coming door.new ≡ D.coming door.old) × (D.left door.new ≡ D.left door.old) }
    ensures cause { HasCause (D.faults door.old) (D.faults door.new) (IsErr result) }
    ensures count { D.next_faults door.new ≡ D.next_faults door.old }
{
    let mut done = 0;
    while done < bytes.len() {
        done += door.write(&bytes[done..])?;
    }
    Ok(())
}
