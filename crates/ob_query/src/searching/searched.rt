//! The model whose rows are searched, as forms of arguments have it.

ghost use Rattle.ob_schema.specs.Models.{HasModel};

use ob_base::ModelNo;
use ob_schema::Schema;

/// A model of a registry.
#[derive(Clone, Copy)]
pub struct Searched<'s> {
    pub schema: &'s Schema,
    pub model: ModelNo,
    pub ghost known: { HasModel schema.now model },
}
