//! A change of tables: how they were, how they are behind it, and which rows it touched.

ghost use Rattle.std.specs.Prelude.{◌≡◌};
ghost use Rattle.ob_sound.specs.Touched.{TouchesOnly};

use ob_base::RowKey;
use ob_schema::Schema;
use ob_tables::Tables;
use std::alloc::Global;

/// Tables of one registry before a change and behind it. All rows but those that were touched
/// are what they were; a row may be told as touched twice, or though it is what it was.
#[derive(Clone, Copy)]
pub struct Change<'t, 'a> {
    pub alloc: Global,
    pub schema: &'a Schema,
    pub before: &'t Tables<'a>,
    pub behind: &'t Tables<'a>,
    pub touched: &'t [RowKey],
    pub ghost before_over: { before.now.models ≡ schema.now },
    pub ghost behind_over: { behind.now.models ≡ schema.now },
    pub ghost touches: { ∥ TouchesOnly touched.now
        (record { before = before.now.tables; behind = behind.now.tables }) ∥₁ },
}
