//! The bytes of replies. Nothing here takes memory. What a reply tells beside its status and
//! its body may be changed here, with its definition.

ghost use Rattle.std.specs.Prelude.{◌≡◌, ◌≢◌, [], length, decimal, IsFalse, OnOk, OnErr, IsErr};
ghost use Rattle.http.specs.StatusCode.{IsStatusCode};
ghost use Rattle.ob_io.specs.Cause.{HasCause};
ghost use Rattle.ob_http.specs.Reply.{IsReplyStatus, phrase_of, reply_bytes, interim_bytes};
ghost use Rattle.ob_http.specs.Reply as spec;
ghost use Rattle.ob_http.specs.Written.{Wrote, WrotePart};

use crate::writing::{write_all, write_texts};
use http::StatusCode;
use itoa::Buffer;
use ob_io::{Door, Failed};

/// Writes a reply to the current connection, or as much of it as was taken before a write
/// failed, which is not all of it. A reply of another status than 200 has no body and ends
/// the connection.
pub fn write_reply<D: Door>(
    door: &mut D,
    status: u16,
    body: &[u8],
    keep: bool,
) -> Result<(), Failed>
    requires status { IsReplyStatus status }
    requires fault { status ≢ 200 → (body.now ≡ []) × IsFalse keep }
    ensures ok { OnOk result
        (Wrote (D.written door.old) (D.written door.new) (reply_bytes status body.now keep)) }
    ensures err { OnErr result
        (WrotePart (D.written door.old) (D.written door.new) (reply_bytes status body.now keep)) }
    ensures others { (D.coming door.new ≡ D.coming door.old) × (D.left door.new ≡ D.left door.old) }
    ensures cause { HasCause (D.faults door.old) (D.faults door.new) (IsErr result) }
    ensures count { D.next_faults door.new ≡ D.next_faults door.old }
{
    let (mut status_digits, mut length_digits) = (Buffer::new(), Buffer::new());
    write_lines(
        door,
        status,
        keep,
        status_digits.format(status).as_bytes(),
        length_digits.format(body.len()).as_bytes(),
        body,
    )
}

/// Writes a reply whose numbers are written already.
fn write_lines<'a, D: Door>(
    door: &mut D,
    status: u16,
    keep: bool,
    status_text: &'a [u8],
    length_text: &'a [u8],
    body: &'a [u8],
) -> Result<(), Failed>
    requires status { IsStatusCode status }
    requires status_text { status_text.now ≡ decimal status }
    requires length_text { length_text.now ≡ decimal (length body.now) }
    ensures ok { OnOk result
        (Wrote (D.written door.old) (D.written door.new) (reply_bytes status body.now keep)) }
    ensures err { OnErr result
        (WrotePart (D.written door.old) (D.written door.new) (reply_bytes status body.now keep)) }
    ensures others { (D.coming door.new ≡ D.coming door.old) × (D.left door.new ≡ D.left door.old) }
    ensures cause { HasCause (D.faults door.old) (D.faults door.new) (IsErr result) }
    ensures count { D.next_faults door.new ≡ D.next_faults door.old }
{
    let phrase: &'a [u8] = phrase(status).as_bytes();
    let allow: &'a [u8] = allow_line(status).as_bytes();
    let close: &'a [u8] = close_line(keep).as_bytes();
    write_texts(
        door,
        &[
            b"HTTP/1.1 ",
            status_text,
            b" ",
            phrase,
            b"\r\nContent-Type: application/json\r\nContent-Length: ",
            length_text,
            b"\r\n",
            allow,
            close,
            b"\r\n",
            body,
        ],
    )
}

/// Writes the interim line, which says that the body may come.
pub(crate) fn write_interim<D: Door>(door: &mut D) -> Result<(), Failed>
    ensures ok { OnOk result (Wrote (D.written door.old) (D.written door.new) interim_bytes) }
    ensures err { OnErr result
        (WrotePart (D.written door.old) (D.written door.new) interim_bytes) }
    ensures others { (D.coming door.new ≡ D.coming door.old) × (D.left door.new ≡ D.left door.old) }
    ensures cause { HasCause (D.faults door.old) (D.faults door.new) (IsErr result) }
    ensures count { D.next_faults door.new ≡ D.next_faults door.old }
{
    write_all(door, b"HTTP/1.1 100 Continue\r\n\r\n")
}

/// The line that tells which method is served, where another was asked for.
fn allow_line(status: u16) -> &'static str
    ensures { result.now ≡ spec.allow_line status }
{
    if status == 405 { "Allow: POST\r\n" } else { "" }
}

/// The line that tells the end of the connection, where it doesn't stay.
fn close_line(keep: bool) -> &'static str
    ensures { result.now ≡ spec.close_line keep }
{
    if keep { "" } else { "Connection: close\r\n" }
}

/// The phrase of a status: nothing where it has none.
#[tactic(auto, unfolding(crate::specs::Reply::phrase_of))]
fn phrase(status: u16) -> &'static str
    requires { IsStatusCode status }
    ensures { result.now ≡ phrase_of status }
{
    let Ok(code) = StatusCode::from_u16(status) else {
        unreachable!()
    };
    match code.canonical_reason() {
        Some(text) => text,
        None => "",
    }
}
