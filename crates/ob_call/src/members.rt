//! Members of the objects that calls answer.

ghost use Rattle.std.specs.Prelude.{◌≡◌, IfOk};
ghost use Rattle.serde_json.specs.Data.{put};
ghost use Rattle.serde_json.specs.View.{members_view, view};

use crate::call::Json;
use ob_base::NoMemory;
use serde_json::Map;
use std::alloc::Global;

/// Puts a member into an object, in place of one of its name.
pub fn put_member(
    alloc: Global,
    members: &mut Map<String, Json>,
    name: &str,
    json: Json,
) -> Result<(), NoMemory>
    ensures { IfOk result (λ _. members_view members.new.entries
        ≡ put name.now (view json) (members_view members.old.entries)) }
{
    let name = String::from_str(alloc, name)?;
    members.insert(name, json)?;
    Ok(())
}
