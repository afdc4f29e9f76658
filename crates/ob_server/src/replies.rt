//! The replies to requests: of what is told, of what is refused, and of want of memory. What they
//! tell of is settled in `answering`; a further kind of reply is made here.

ghost use Rattle.std.specs.Prelude.{◌≡◌, Err, false};
ghost use Rattle.serde_json.specs.View.{view};
ghost use Rattle.serde_json.specs.Written.{has_float};
ghost use Rattle.ob_orm.specs.RefusalText.{refusal_message, refusal_name};
ghost use Rattle.ob_rpc.specs.Envelope.{element_place};
ghost use Rattle.ob_rpc.specs.Reply.{error, reply_form, reply_of, OutcomeHasNoFloat};
ghost use Rattle.ob_server.specs.Reply.{MayTell, TellsUnread, text_of};
ghost use Rattle.ob_server.specs.Request.{version_json};
ghost use Rattle.ob_server.specs.Texts.{malformed_text, outcome_text, result_text, told};

use crate::places::{body_place, element_place};
use crate::request::{ElementFault, Layout};
use crate::service::version_json;
use ob_base::{NoMemory, Refusal, Word};
use ob_io::KeepFault;
use ob_orm::refusal_text;
use ob_rpc::{Json, Outcome, no_memory_reply, reply_text};
use ob_schema::Schema;
use std::alloc::Global;

/// The text of a reply, or that there was no memory for it.
#[derive(Drop)]
pub enum Reply {
    Text(Word),
    NoMemory,
}

impl Reply {
    /// The text; the one for want of memory takes none.
    pub fn as_str(&self) -> &str
        ensures { result.now ≡ text_of self.now }
    {
        match self {
            Reply::Text(text) => text.as_str(),
            Reply::NoMemory => no_memory_reply(),
        }
    }
}

/// The reply that tells what the server is.
pub(crate) fn version_told(alloc: Global, id: &Json) -> Reply
    requires { has_float (view id.now) ≡ false }
    ensures { MayTell (text_of result) (result_text (view id.now) version_json) }
{
    match version_json(alloc) {
        Ok(json) => told(alloc, id, &Outcome::Result(json)),
        Err(NoMemory) => Reply::NoMemory,
    }
}

/// The reply to a request whose elements aren't read.
pub(crate) fn unread(alloc: Global, schema: &Schema, id: &Json, fault: ElementFault) -> Reply
    requires { has_float (view id.now) ≡ false }
    ensures { TellsUnread schema.now (view id.now) fault (text_of result) }
{
    match fault {
        ElementFault::Wrong(number) => element_refused(alloc, schema, id, number),
        ElementFault::Keeper(KeepFault::Failed) => refused(alloc, schema, id, &Refusal::Keeper),
        ElementFault::Keeper(KeepFault::NoMemory) => Reply::NoMemory,
    }
}

/// The reply to a request whose element of this number is wrong.
fn element_refused(alloc: Global, schema: &Schema, id: &Json, number: u64) -> Reply
    requires { has_float (view id.now) ≡ false }
    ensures { MayTell (text_of result) (malformed_text schema.now (view id.now) (element_place number)) }
{
    match element_place(alloc, number) {
        Ok(place) => refused(alloc, schema, id, &Refusal::Request(place)),
        Err(NoMemory) => Reply::NoMemory,
    }
}

/// The reply to a call that is refused; a place among its arguments is told as one of the body.
pub(crate) fn call_refused(
    alloc: Global,
    schema: &Schema,
    id: &Json,
    layout: Layout,
    refusal: Refusal,
) -> Reply
    requires { has_float (view id.now) ≡ false }
    ensures { MayTell (text_of result) (outcome_text schema.now (view id.now) (told layout (Err refusal))) }
{
    match refusal {
        Refusal::Request(place) => match body_place(alloc, layout, &place) {
            Ok(place) => refused(alloc, schema, id, &Refusal::Request(place)),
            Err(NoMemory) => Reply::NoMemory,
        },
        refusal => refused(alloc, schema, id, &refusal),
    }
}

/// The reply that tells of a refusal.
pub(crate) fn refused(alloc: Global, schema: &Schema, id: &Json, refusal: &Refusal) -> Reply
    requires { has_float (view id.now) ≡ false }
    ensures { MayTell (text_of result) (outcome_text schema.now (view id.now) (Err refusal.now)) }
{
    match refusal {
        Refusal::NoMemory => Reply::NoMemory,
        _ => error_told(alloc, schema, id, refusal),
    }
}

/// The reply of this id that tells of a refusal.
fn error_told(alloc: Global, schema: &Schema, id: &Json, refusal: &Refusal) -> Reply
    requires { has_float (view id.now) ≡ false }
    ensures { MayTell (text_of result) (reply_form (view id.now) (error (refusal_name refusal.now) (refusal_message schema.now refusal.now))) }
{
    match refusal_text(alloc, schema, refusal) {
        Ok((name, message)) => told(alloc, id, &Outcome::Error { name, message }),
        Err(NoMemory) => Reply::NoMemory,
    }
}

/// The reply that tells of an outcome.
pub(crate) fn told(alloc: Global, id: &Json, outcome: &Outcome) -> Reply
    requires id { has_float (view id.now) ≡ false }
    requires outcome { OutcomeHasNoFloat outcome.now }
    ensures { MayTell (text_of result) (reply_form (view id.now) (reply_of outcome.now)) }
{
    match reply_text(alloc, id, outcome) {
        Ok(text) => Reply::Text(text),
        Err(_) => Reply::NoMemory,
    }
}
