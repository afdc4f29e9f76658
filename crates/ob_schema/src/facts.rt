//! Facts about rows, as domains and rules ask for them: of a whole store, or of the part that
//! a caller may see. Whoever has rows to tell implements the trait; a question that domains or
//! rules come to ask is added here.

ghost use Rattle.std.specs.Prelude.{◌≡◌, List, true, IfErr, IfOk};
ghost use Rattle.ob_schema.specs.Facts.{Asked, FailedBehind, OfAllTold, Told};
ghost use Rattle.ob_schema.specs.Fields.{HasFieldType};
ghost use Rattle.ob_schema.specs.Models.{HasField, HasModel, field_at};
ghost use Rattle.ob_schema.specs.declared.info.ModelInfo.{ModelInfo};

use ob_base::{Cell, ModelNo, RecId, Value};

/// Which rows are known, and what their cells hold. Asking changes neither. Whatever is told, a
/// cell holds a value of its field's type.
pub trait Facts {
    type Fault;

    /// The models about whose rows the facts are.
    ghost registry: { Self → List ModelInfo };

    /// The facts tell this: their answers are true of it. Of rows that nobody knows from outside,
    /// such as those of a file, facts tell nothing.
    ghost tells: { Self → Told → Type 0 };

    /// How a question may change what is asked beside what it tells.
    ghost asks: { Self → Self → Type 0 };

    /// What is known, before and after it, of a question that failed.
    ghost has_failed: { Self → Self → Self.Fault → Type 0 };

    /// Whether a row of the model is known.
    fn known(&mut self, model: ModelNo, id: RecId) -> Result<bool, Self::Fault>
        requires { HasModel (registry self.old) model }
        ensures known { IfOk result (λ known. OfAllTold (tells self.old) (λ told. known ≡ told.knows model id)) }
        ensures failed { IfErr result (has_failed self.old self.new) }
        ensures asked { asks self.old self.new }
        ensures same { registry self.new ≡ registry self.old }
        ensures kept { OfAllTold (tells self.old) (tells self.new) }
        ensures only { OfAllTold (tells self.new) (tells self.old) };

    /// What a cell of a known row holds.
    fn value(&mut self, cell: Cell) -> Result<Value, Self::Fault>
        requires field { HasField (registry self.old) cell.model cell.field }
        requires row { OfAllTold (tells self.old) (λ told. told.knows cell.model cell.id ≡ true) }
        ensures value { IfOk result (λ value. OfAllTold (tells self.old) (λ told. value ≡ told.held cell)) }
        ensures typed { IfOk result (HasFieldType (field_at (registry self.old) cell.model cell.field)) }
        ensures failed { IfErr result (has_failed self.old self.new) }
        ensures asked { asks self.old self.new }
        ensures same { registry self.new ≡ registry self.old }
        ensures kept { OfAllTold (tells self.old) (tells self.new) }
        ensures only { OfAllTold (tells self.new) (tells self.old) };
}

/// Questions of questions are questions: so facts that are made over others may be asked as
/// those may.
pub fn questions_of_questions<F: Facts>()
    ensures asked { (first now : F) → Asked (Asked F.asks) first now → Asked F.asks first now }
    ensures failed { (first now : F) (why : F.Fault)
        → FailedBehind (Asked F.asks) (FailedBehind F.asks F.has_failed) first now why
        → FailedBehind F.asks F.has_failed first now why }
{}
