//! Shapes and digits of texts, for `day` and `moment`. Nobody else calls these, so they
//! may change with the two.

ghost use Rattle.std.specs.Prelude.{◌≡◌, ◌↔◌, ◌<◌, ◌≤◌, ◌^◌, IsTrue};
ghost use Rattle.ob_dates.specs.Digits.{HasDigits};
ghost use Rattle.ob_dates.specs.Texts.{shape_of, number_in};

/// Whether the text is of the shape, in which each digit stands as 0.
pub(crate) fn has_shape(text: &[u8], shape: &[u8]) -> bool
    ensures { IsTrue result ↔ (shape_of text.now ≡ shape.now) }
{
    if text.len() != shape.len() {
        return false;
    }
    for (at, byte) in text.iter().enumerate() {
        let kind = if byte.is_ascii_digit() { b'0' } else { *byte };
        if kind != shape[at] {
            return false;
        }
    }
    true
}

/// The number that the digits write which stand at that place, four at most.
pub(crate) fn number_at(text: &[u8], start: usize, len: usize) -> u16
    requires few { len ≤ 4 }
    requires digits { HasDigits text.now start len }
    ensures value { result ≡ number_in text.now start len }
    ensures bound { result < 10 ^ len }
{
    let digits = &text[start..start + len];
    let mut number = 0u16;
    for byte in digits {
        number = number * 10 + u16::from(*byte - b'0');
    }
    number
}
