//! What each call is handed.

use ob_base::{ModelNo, RecId};

/// A value in JSON.
pub type Json = serde_json::Value;

/// A call of a method of a model.
#[derive(Drop)]
pub struct Call<'a> {
    /// Who calls.
    pub caller: RecId,
    /// The moment of the request, in seconds from 1970-01-01 00:00:00 UTC.
    pub now: i64,
    /// The model that is called.
    pub model: ModelNo,
    /// The positional arguments: a list, else the call is refused.
    pub args: &'a Json,
    /// The arguments by name: an object, else the call is refused.
    pub kw: &'a Json,
}
