//! `create` and `write` with commands on lists of rows, as the Odoo 17 ORM's `Command` has them:
//! rows that are created, updated, deleted, linked and unlinked with the ones that a call makes or
//! changes, in any depth.
//!
//! A call goes in stages, each a room. `asked` reads what it is handed. What its objects of values
//! give is carried out by the crate `ob_effect`: edits are staged in the engine, and what they do is
//! noted. `findings` tells what of the objects is malformed or withheld. At last `judging` gives the
//! first refusal in the stated order, or settles all edits at once. `creating` and `writing` put the
//! stages together; after a refusal the engine has forgotten what was staged. `calls` hands a call
//! that gives only what the crate `ob_orm` sets (`holding`) to that crate, where it is told edit by
//! edit.
//!
//! What a call promises is `Changes`: it goes on to sound tables, or changes nothing and says
//! something true. Which edits it makes isn't told yet. The definitions stand in specs/.
#![tactic(auto)]

mod asked;
mod calls;
mod creating;
mod findings;
mod holding;
mod judging;
mod writing;

pub use calls::{create, write};
pub use holding::gives_others;
