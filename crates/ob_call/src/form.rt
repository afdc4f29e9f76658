//! What the form of an argument is: it tells where a value breaks it. Forms that several
//! calls share stand in `ids` and `field_names`; any other stands with its call.

ghost use Rattle.std.specs.Prelude.{◌≡◌, List, Option, option_map, IfOk};
ghost use Rattle.serde_json.specs.Data.{Data};
ghost use Rattle.serde_json.specs.View.{view};
ghost use Rattle.ob_base.specs.declared.place.PathStep.{PathStep};
ghost use Rattle.ob_call.specs.Places.{below_steps};

use crate::call::Json;
use crate::places::Below;
use ob_base::NoMemory;
use std::alloc::Global;

/// The form of an argument. A call whose arguments have several forms makes them an enum,
/// each variant by the form that it holds.
pub trait Form {
    /// The steps from a value down to where it breaks the form first, none where it is of
    /// the form.
    ghost fault: { Self → Data → Option (List PathStep) };

    /// Where a value breaks the form first. A form that looks deep into a value takes memory
    /// for the place.
    fn fault<'j>(&self, alloc: Global, json: &'j Json) -> Result<Option<Below<'j>>, NoMemory>
        ensures { IfOk result (λ told. option_map below_steps told ≡ fault self.now (view json.now)) };
}
