//! The registry that is asked about: a model with a field of each type, one of them computed
//! (tools/probe.py declares the same).

use ob_schema::Schema;
use probe_parts::definitions::schema_of;
use probe_parts::told::Told;
use std::alloc::Global;

/// The name of the model that is asked about.
pub(crate) const MODEL: &str = "probe.row";

/// The definition of the model. Nothing stands against it, so only memory can be wanting.
const DEFINITION: &str =
    "name=probe.row | at datetime | day date | done boolean | name char | note text | qty integer | state selection selection=draft:draft:done:done | square integer compute=qty\\s*\\sqty depends=qty store=yes | owner many2one relation=probe.row | tags many2many relation=probe.row | lines one2many relation=probe.row inverse=owner";

/// The registry of `probe.row`.
pub(crate) fn registry(alloc: Global) -> Option<Schema> {
    schema_of(alloc, &mut Told::new(alloc), DEFINITION)
}
