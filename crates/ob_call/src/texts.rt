//! The form of a list of texts, whatever they say.

ghost use Rattle.std.specs.Prelude.{◌≡◌, is_some, map, option_map};
ghost use Rattle.serde_json.specs.Find.{as_str};
ghost use Rattle.serde_json.specs.View.{view};
ghost use Rattle.ob_call.specs.Forms.{first_item};
ghost use Rattle.ob_call.specs.Places.{below_steps};

use crate::call::Json;
use crate::form::Form;
use crate::places::Below;
use ob_base::NoMemory;
use std::alloc::Global;

/// A list of texts.
#[derive(Clone, Copy, Debug)]
pub struct Texts;

impl Form for Texts {
    ghost use Rattle.ob_call.specs.Forms.{texts_fault};

    ghost fault = { λ _ json. texts_fault json };

    fn fault<'j>(&self, _alloc: Global, json: &'j Json) -> Result<Option<Below<'j>>, NoMemory> {
        match json {
            Json::Array(items) => Ok(first_no_text(items.as_slice())),
            _ => Ok(Some(Below::Whole)),
        }
    }
}

/// The first item that is no text.
fn first_no_text(items: &[Json]) -> Option<Below<'_>>
    ensures { option_map below_steps result
        ≡ first_item (λ json. is_some (as_str json)) 0 (map view items.now) }
{
    let number = items.iter().position(|item| item.as_str().is_none())?;
    Some(Below::Item(number))
}
