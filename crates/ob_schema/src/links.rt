//! Links between rows, as whoever asks what a change affects follows them: on the side before
//! the change and on the side after it. Whoever has both implements the trait.

ghost use Rattle.std.specs.Prelude.{◌≡◌, List, IfErr, IfOk};
ghost use Rattle.ob_schema.specs.Facts.{OfAllTold};
ghost use Rattle.ob_schema.specs.Links.{Leads, Sides, leading_to, led_to, tables_on};
ghost use Rattle.ob_schema.specs.Models.{FieldHas};
ghost use Rattle.ob_schema.specs.declared.info.ModelInfo.{ModelInfo};

use ob_base::{Cell, FieldNo, ModelNo, RecId, RefList};

/// A side of a change of rows.
#[derive(Clone, Copy, Debug, PartialEq, Eq)]
pub enum Side {
    Old,
    New,
}

/// To which rows a cell leads, and which rows lead to a row. Asking changes neither.
pub trait Links {
    type Fault;

    /// The models between whose rows the links are.
    ghost registry: { Self → List ModelInfo };

    /// The links tell this: their answers are true of it. Of rows that nobody knows from
    /// outside, such as those of a file, links tell nothing.
    ghost tells: { Self → Sides → Type 0 };

    /// How a question may change what is asked beside what it tells.
    ghost asks: { Self → Self → Type 0 };

    /// What is known, before and after it, of a question that failed.
    ghost has_failed: { Self → Self → Self.Fault → Type 0 };

    /// The rows to which a cell of `id` or of a plain relation leads, none where its row isn't
    /// there: of `id` its own row, else those that the value names.
    fn targets(&mut self, side: Side, cell: Cell) -> Result<RefList, Self::Fault>
        requires { FieldHas (registry self.old) Leads cell.model cell.field }
        ensures targets { IfOk result (λ ids. OfAllTold (tells self.old) (λ sides. ids ≡ led_to (registry self.old) (tables_on sides side) cell)) }
        ensures failed { IfErr result (has_failed self.old self.new) }
        ensures asked { asks self.old self.new }
        ensures same { registry self.new ≡ registry self.old }
        ensures kept { OfAllTold (tells self.old) (tells self.new) }
        ensures only { OfAllTold (tells self.new) (tells self.old) };

    /// The rows of a model whose cell of such a field leads to a row, rising.
    fn sources(
        &mut self,
        side: Side,
        model: ModelNo,
        field: FieldNo,
        target: RecId,
    ) -> Result<RefList, Self::Fault>
        requires { FieldHas (registry self.old) Leads model field }
        ensures sources { IfOk result (λ ids. OfAllTold (tells self.old) (λ sides. ids ≡ leading_to (registry self.old) (tables_on sides side) model field target)) }
        ensures failed { IfErr result (has_failed self.old self.new) }
        ensures asked { asks self.old self.new }
        ensures same { registry self.new ≡ registry self.old }
        ensures kept { OfAllTold (tells self.old) (tells self.new) }
        ensures only { OfAllTold (tells self.new) (tells self.old) };
}
