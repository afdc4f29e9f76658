//! The arguments of a call on a model, by which the key of an aggregate and the order of groups
//! are judged.

ghost use Rattle.ob_schema.specs.Models.{HasModel};

use ob_base::ModelNo;
use ob_call::Json;
use ob_schema::Schema;

/// The arguments of a call, by position and by name, and the model that is called.
#[derive(Clone, Copy)]
pub(crate) struct Handed<'c> {
    pub(crate) schema: &'c Schema,
    pub(crate) model: ModelNo,
    pub(crate) args: &'c Json,
    pub(crate) kw: &'c Json,
    pub ghost known: { HasModel schema.now model },
}
