//! What the calls of a model are handed, and how their arguments are read: by position or
//! by name, each of its form, and the first that is wrong at its place. Every call of a
//! model stands on it. What a call's arguments are is the call's own: it says what it
//! expects, and gives each its form.
//!
//! Rooms: `call` (what a call is handed), `places` (where an argument is wrong), `form`
//! (what a form is), with the forms that several calls share in `ids` (any value too, and the
//! ids that an argument names), `field_names` and `texts`; `columns` (the fields that an
//! argument names); `arguments` (which argument stands where); `context` (which every call takes
//! beside them); `members` (of the objects that calls answer). The definitions stand in specs/.
#![tactic(auto)]

mod arguments;
mod call;
mod columns;
mod context;
mod field_names;
mod form;
mod ids;
mod members;
mod places;
mod texts;

pub use arguments::{Given, Parameter, arguments_of};
pub use call::{Call, Json};
pub use columns::named_fields;
pub use context::active_test;
pub use field_names::FieldNames;
pub use form::Form;
pub use ids::{Ids, Unread, id_of, least, named_ids};
pub use members::put_member;
pub use places::{Below, Spot, malformed, malformed_below};
pub use texts::Texts;
