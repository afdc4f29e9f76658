//! The text of a reply, built piece by piece in one string, with its keys in
//! byte order and no spaces.

ghost use Rattle.std.specs.Prelude.{◌≡◌, false, codes, IfOk, string_bytes};
ghost use Rattle.std.specs.List.{flat_map};
ghost use Rattle.serde_json.specs.Data.{Data, null, string};
ghost use Rattle.serde_json.specs.View.{view};
ghost use Rattle.serde_json.specs.Written.{has_float, compact_text};
ghost use Rattle.ob_rpc.specs.Reply.{Reply, result as result_of, error, reply_form, reply_of, OutcomeHasNoFloat, IsOneLine};

use crate::Json;
use ob_base::{NoMemory, Word};
use std::alloc::Global;

/// What became of a request.
#[derive(Drop)]
pub enum Outcome {
    /// What the call gave.
    Result(Json),
    /// Why it gave nothing: what kind of error it was, and what is said of it.
    Error { name: Word, message: Word },
}

const NO_MEMORY_REPLY: &str =
    "{\"error\":{\"code\":200,\"data\":{\"message\":\"no memory\",\"name\":\"NoMemory\"},\"message\":\"Odoo Server Error\"},\"id\":null,\"jsonrpc\":\"2.0\"}";

/// The reply to the request of an id, as text.
pub fn reply_text(alloc: Global, id: &Json, outcome: &Outcome) -> Result<Word, NoMemory>
    ensures { IfOk result (λ text. has_float (view id.now) ≡ false → OutcomeHasNoFloat outcome.now
        → text ≡ reply_form (view id.now) (reply_of outcome.now)) }
{
    match outcome {
        Outcome::Result(value) => result_text(alloc, id, value),
        Outcome::Error { name, message } => error_text(alloc, id, name, message),
    }
}

/// The reply where even a reply's text finds no memory: it takes none, and its id
/// is null.
pub fn no_memory_reply() -> &'static str
    ensures { result.now ≡ reply_form null (error (codes "NoMemory") (codes "no memory")) }
{
    NO_MEMORY_REPLY
}

/// The stated text of a reply has no line feed in it, whatever its texts have. So a reply
/// in which nothing is a float is one line.
pub fn reply_forms_are_lines()
    ensures { (id : Data) (reply : Reply) → IsOneLine (reply_form id reply) }
{}

fn result_text(alloc: Global, id: &Json, value: &Json) -> Result<Word, NoMemory>
    ensures { IfOk result (λ text. has_float (view id.now) ≡ false → has_float (view value.now) ≡ false
        → text ≡ reply_form (view id.now) (result_of (view value.now))) }
{
    let id_text = id.to_string(alloc)?;
    let value_text = value.to_string(alloc)?;
    joined(
        alloc,
        &[
            "{\"id\":",
            id_text.as_str(),
            ",\"jsonrpc\":\"2.0\",\"result\":",
            value_text.as_str(),
            "}",
        ],
    )
}

fn error_text(alloc: Global, id: &Json, name: &Word, message: &Word) -> Result<Word, NoMemory>
    ensures { IfOk result (λ text. has_float (view id.now) ≡ false
        → text ≡ reply_form (view id.now) (error name.now message.now)) }
{
    let id_text = id.to_string(alloc)?;
    let name_text = quoted_text(alloc, name)?;
    let message_text = quoted_text(alloc, message)?;
    joined(
        alloc,
        &[
            "{\"error\":{\"code\":200,\"data\":{\"message\":",
            message_text.as_str(),
            ",\"name\":",
            name_text.as_str(),
            "},\"message\":\"Odoo Server Error\"},\"id\":",
            id_text.as_str(),
            ",\"jsonrpc\":\"2.0\"}",
        ],
    )
}

/// The pieces, one after another.
fn joined(alloc: Global, pieces: &[&str]) -> Result<Word, NoMemory>
    ensures { IfOk result (λ text. text ≡ flat_map (λ piece. piece.now) pieces.now) }
{
    Ok(Word::new(pieces.concat(alloc)?))
}

/// A text as JSON spells it.
fn quoted_text(alloc: Global, word: &Word) -> Result<String, NoMemory>
    ensures { IfOk result (λ text. string_bytes text ≡ compact_text (string word.now)) }
{
    Ok(Json::try_from_str(alloc, word.as_str())?.to_string(alloc)?)
}
