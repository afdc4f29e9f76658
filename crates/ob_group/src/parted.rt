//! Texts in two parts.

ghost use Rattle.std.specs.Prelude.{◌≡◌, ◌<◌, option_map};
ghost use Rattle.ob_group.specs.GroupForms.{parted};
ghost use Rattle.ob_group.specs.GroupParts.{parts_view};

/// What stands before the first such character of ASCII, and behind it; none where there is none.
pub(crate) fn parted(text: &str, mark: char) -> Option<(&str, &str)>
    requires { mark < 128 }
    ensures { option_map parts_view result ≡ parted mark text.now }
{
    text.split_once(mark)
}
