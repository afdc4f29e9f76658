//! The next message of a connection, whatever pieces its bytes come in.

ghost use Rattle.std.specs.Prelude.{◌≡◌, ◌≤◌, [], Err, IsErr, IsTrue, OnOk, OnErr, length, if◌then◌else◌};
ghost use Rattle.ob_base.specs.Limits.{max_head_bytes};
ghost use Rattle.ob_io.specs.Cause.{Rose, HasCause};
ghost use Rattle.ob_http.specs.Connection.{connection_of};
ghost use Rattle.ob_http.specs.Taking.{TakesNext};
ghost use Rattle.ob_http.specs.Reply.{interim_bytes};
ghost use Rattle.ob_http.specs.Written.{Wrote, WrotePart};
ghost use Rattle.ob_http.specs.Front.{BeginsWithHead};

use crate::head::asks;
use crate::held::Held;
use crate::inlet::{HttpFault, Inlet};
use crate::lines::{Front, HeadSize, read_front};
use crate::reply::write_interim;
use ob_io::{Door, Failed};

/// Takes the next message of the door's current connection. The interim line is written
/// before the body is read, where the message asks for it. After an `Err`, and after any
/// other answer than a message that keeps the connection, nothing more is to be read of it.
pub fn next_request<D: Door>(door: &mut D, held: &mut Held) -> Result<Inlet, HttpFault>
    ensures takes { TakesNext
        (connection_of held.old (D.left door.old) (D.written door.old))
        (connection_of held.new (D.left door.new) (D.written door.new)) result }
    ensures few { length held.new.bytes ≤ max_head_bytes }
    ensures failed { result ≡ Err HttpFault.Failed → Rose (D.faults door.old) (D.faults door.new) }
    ensures no_fall { D.faults door.old ≤ D.faults door.new }
    ensures others { (D.coming door.new ≡ D.coming door.old) × (D.next_faults door.new ≡ D.next_faults door.old) }
{
    match read_front(door, held)? {
        Front::Head(head) => take_message(door, held, head),
        Front::TooLong => Ok(Inlet::Bad(431)),
        Front::Empty => Ok(Inlet::Ended),
        Front::Part => Ok(Inlet::Cut),
    }
}

/// Takes the message whose head was read ahead.
fn take_message<D: Door>(door: &mut D, held: &mut Held, head: HeadSize) -> Result<Inlet, HttpFault>
    requires { BeginsWithHead held.old.bytes head }
    ensures takes { TakesNext
        (connection_of held.old (D.left door.old) (D.written door.old))
        (connection_of held.new (D.left door.new) (D.written door.new)) result }
    ensures few { length held.new.bytes ≤ max_head_bytes }
    ensures cause { HasCause (D.faults door.old) (D.faults door.new)
        (result ≡ Err HttpFault.Failed) }
    ensures others { (D.coming door.new ≡ D.coming door.old) × (D.next_faults door.new ≡ D.next_faults door.old) }
{
    let message = match asks(&held.bytes()[..head.size], head) {
        Ok(message) => message,
        Err(status) => return Ok(Inlet::Bad(status)),
    };
    held.pass(head.size);
    write_due(door, message.interim)?;
    match held.body(door, message.length)? {
        Some(body) => Ok(Inlet::Post {
            body,
            keep: message.keep,
        }),
        None => Ok(Inlet::Cut),
    }
}

/// Writes the interim line where it is due.
fn write_due<D: Door>(door: &mut D, due: bool) -> Result<(), Failed>
    ensures ok { OnOk result (Wrote (D.written door.old) (D.written door.new)
        (if due then interim_bytes else [])) }
    ensures err { OnErr result (IsTrue due
        × WrotePart (D.written door.old) (D.written door.new) interim_bytes) }
    ensures others { (D.coming door.new ≡ D.coming door.old) × (D.left door.new ≡ D.left door.old) }
    ensures cause { HasCause (D.faults door.old) (D.faults door.new) (IsErr result) }
    ensures count { D.next_faults door.new ≡ D.next_faults door.old }
{
    if due {
        return write_interim(door);
    }
    Ok(())
}
