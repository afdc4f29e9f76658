//! What the objects of values of a `create` or a `write` give, carried out with the commands on
//! lists of rows among them, as the Odoo 17 ORM's `Command` has them: rows that are created,
//! updated, deleted, linked and unlinked with the ones that a call makes or changes, in any depth.
//! The calls themselves stand in `ob_commands`, which judges what is done here and settles it.
//!
//! `effect` carries out what an object of values gives (`object`): edits are staged in the engine
//! row by row and command by command, each over the tables with those before it, which `staged`
//! asks. `rows` makes rows and sets their values, `lists` links rows and unlinks them (`ids` has an
//! id put into a list and taken out), `deletion` has rows go with what cascades take (by
//! `relations`), and `cells` names the cells of rows. What their author stamps in them is told by
//! `ob_rows`. What the effect does is noted on the way (`notes`): which rows it makes, writes and
//! deletes, and what it breaks by itself; `asking` asks the policy for the caller.
//!
//! A step promises what holds of any edits (`IsStep`): the engine may go on to be asked, no next id
//! fell, and what is noted is of the models. The definitions stand in specs/.
#![tactic(auto)]

mod asking;
mod cells;
mod deletion;
mod effect;
mod ids;
mod lists;
mod notes;
mod object;
mod relations;
mod rows;
mod staged;

pub use asking::{Caller, denier, groups_of, may, may_give};
pub use cells::{cell_of, id_cell};
pub use effect::{create_row, write_row};
pub use notes::{Naming, Notes, Touch};
pub use object::{Object, Orders, input_of, object_of};
pub use relations::{KeptRelation, kept_relations};
pub use rows::{LinkTo, Writer};
pub use staged::{is_there, naming};
