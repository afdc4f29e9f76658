//! Parts of a text in bytes, and when two texts are the same.

ghost use Rattle.std.specs.Prelude.{◌≡◌, ◌<◌, ◌==◌, [], ◌∷◌, position, length, IfNone, IfSome};
ghost use Rattle.std.specs.List.{prefix_len, suffix_len, slice_split};
ghost use Rattle.std.specs.Str.{str_eq_ignore_ascii_case};
ghost use Rattle.httparse.specs.Grammar.{is_ows, trim_ows};

/// Whether two texts are the same, without regard to case.
pub(crate) fn is_same_text(text: &[u8], other: &[u8]) -> bool
    ensures { result ≡ str_eq_ignore_ascii_case text.now other.now }
{
    text.eq_ignore_ascii_case(other)
}

/// What stands before the first such byte, and what stands after it.
pub(crate) fn cut_at(text: &[u8], byte: u8) -> Option<(&[u8], &[u8])>
    ensures some { IfSome result (λ parts. slice_split (λ other. other == byte) text.now
        ≡ parts.0.now ∷ slice_split (λ other. other == byte) parts.1.now) }
    ensures none { IfNone result (slice_split (λ other. other == byte) text.now ≡ text.now ∷ []) }
    ensures shorter { IfSome result (λ parts. length parts.1.now < length text.now) }
{
    let end = first_place(text, byte)?;
    Some((&text[..end], &text[end + 1..]))
}

/// Where the first such byte stands.
fn first_place(text: &[u8], byte: u8) -> Option<usize>
    ensures { result ≡ position (λ other. other == byte) text.now }
{
    text.iter().position(|other| *other == byte)
}

/// The bytes without the spaces and tabs at both ends.
pub(crate) fn trimmed(bytes: &[u8]) -> &[u8]
    ensures { result.now ≡ trim_ows bytes.now }
{
    let rest = &bytes[leading_blanks(bytes)..];
    &rest[..rest.len() - trailing_blanks(rest)]
}

/// How many spaces and tabs the bytes begin with.
fn leading_blanks(bytes: &[u8]) -> usize
    ensures { result ≡ prefix_len is_ows bytes.now }
{
    bytes
        .iter()
        .take_while(|byte| **byte == b' ' || **byte == b'\t')
        .count()
}

/// How many spaces and tabs the bytes end with.
fn trailing_blanks(bytes: &[u8]) -> usize
    ensures { result ≡ suffix_len is_ows bytes.now }
{
    bytes
        .iter()
        .rev()
        .take_while(|byte| **byte == b' ' || **byte == b'\t')
        .count()
}
