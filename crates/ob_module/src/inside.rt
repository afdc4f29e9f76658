//! The modules that stand inside the program, each in a room of its own.

ghost use Rattle.std.specs.Prelude.{◌≡◌, ◌≤◌, IfSome, length, option_map};
ghost use Rattle.ob_module.specs.Texts.{inside_text};

mod base;
mod stock;

use crate::inside::base::BASE;
use crate::inside::stock::STOCK;

/// The text of the module of this name, where it stands inside the program.
pub fn inside(name: &str) -> Option<&'static str>
    ensures text { option_map (λ text. text.now) result ≡ inside_text name.now }
    ensures fits { IfSome result (λ text. length text.now ≤ 1048576) }
{
    match name {
        "base" => Some(BASE),
        "stock" => Some(STOCK),
        _ => None,
    }
}
