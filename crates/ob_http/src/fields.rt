//! What the fields of a head say. Names of fields are compared without regard to case.

ghost use Rattle.std.specs.Prelude.{◌≡◌, ◌≢◌, [], Some, None, Err, IfOk, length};
ghost use Rattle.std.specs.List.{list_any};
ghost use Rattle.std.specs.Char.{is_ascii_digit};
ghost use Rattle.std.specs.Str.{str_eq_ignore_ascii_case};
ghost use Rattle.std.specs.Str.Parse.{digits_value};
ghost use Rattle.httparse.specs.Grammar.{trim_ows, AllPass};
ghost use Rattle.httparse.specs.Spans.{IsHeaderWithin};
ghost use Rattle.ob_http.specs.Message as spec;
ghost use Rattle.ob_http.specs.Message.{same_number, without_zeros};
ghost use Rattle.ob_http.specs.Spans.{AreWithin, is_header_named, values_at};

use crate::length::number_digits;
use crate::text::{cut_at, is_same_text, trimmed};
use httparse::spans::HeaderSpan;

/// The fields of a head, with the head's bytes.
#[derive(Clone, Copy)]
pub(crate) struct Fields<'b> {
    pub(crate) head: &'b [u8],
    pub(crate) spans: &'b [HeaderSpan],
}

/// Why there is no one length of a body.
#[derive(Clone, Copy, Debug, PartialEq, Eq)]
pub(crate) enum LengthFault {
    /// No field gives one.
    Absent,
    /// Fields give texts that aren't all the same decimal number.
    Unequal,
}

impl<'b> Fields<'b> {
    /// Whether a field of this name is there.
    pub(crate) fn has(self, name: &[u8]) -> bool
        requires { AreWithin self.head.now self.spans.now }
        ensures { result ≡ list_any (is_header_named self.entry.head.now name.now) self.entry.spans.now }
    {
        self.spans
            .iter()
            .any(|field| self.is_header_named(*field, name))
    }

    /// Whether a field of this name has this value, without regard to case.
    pub(crate) fn gives(self, name: &[u8], value: &[u8]) -> bool
        requires { AreWithin self.head.now self.spans.now }
        ensures { result ≡ list_any (λ found. str_eq_ignore_ascii_case found value.now)
            (values_at self.entry.head.now name.now self.entry.spans.now) }
    {
        for field in self.spans {
            if self.is_header_named(*field, name)
                && is_same_text(field.value.of(self.head), value)
            {
                return true;
            }
        }
        false
    }

    /// Whether a field of this name has the word in its list.
    pub(crate) fn lists(self, name: &[u8], word: &[u8]) -> bool
        requires { AreWithin self.head.now self.spans.now }
        ensures { result ≡ list_any (spec.lists_word word.now)
            (values_at self.entry.head.now name.now self.entry.spans.now) }
    {
        for field in self.spans {
            if self.is_header_named(*field, name) && lists_word(field.value.of(self.head), word) {
                return true;
            }
        }
        false
    }

    /// Whether the field has this name.
    fn is_header_named(self, field: HeaderSpan, name: &[u8]) -> bool
        requires { IsHeaderWithin (length self.head.now) field }
        ensures { result ≡ is_header_named self.entry.head.now name.now field }
    {
        is_same_text(field.name.of(self.head), name)
    }

    /// The digits of the one number that all fields of this name give.
    pub(crate) fn number(self, name: &[u8]) -> Result<&'b [u8], LengthFault>
        requires { AreWithin self.head.now self.spans.now }
        ensures number { IfOk result (λ digits.
            same_number (values_at self.entry.head.now name.now self.entry.spans.now) ≡ Some (digits_value 10 digits.now)) }
        ensures digits { IfOk result (λ digits. AllPass is_ascii_digit digits.now) }
        ensures no_zero { IfOk result (λ digits. without_zeros digits.now ≡ digits.now) }
        ensures absent { result ≡ Err LengthFault.Absent → values_at self.entry.head.now name.now self.entry.spans.now ≡ [] }
        ensures unequal { result ≡ Err LengthFault.Unequal → values_at self.entry.head.now name.now self.entry.spans.now ≢ []
            × (same_number (values_at self.entry.head.now name.now self.entry.spans.now) ≡ None) }
    {
        let mut found: Option<&'b [u8]> = None;
        for field in self.spans {
            if !self.is_header_named(*field, name) {
                continue;
            }
            let Some(digits) = number_digits(field.value.of(self.head)) else {
                return Err(LengthFault::Unequal);
            };
            match found {
                Some(earlier) if earlier != digits => return Err(LengthFault::Unequal),
                _ => found = Some(digits),
            }
        }
        match found {
            Some(digits) => Ok(digits),
            None => Err(LengthFault::Absent),
        }
    }
}

/// Whether the word is in a list with commas, without regard to case.
fn lists_word(list: &[u8], word: &[u8]) -> bool
    ensures { result ≡ spec.lists_word word.now list.now }
{
    let mut rest = list;
    while let Some((part, later)) = cut_at(rest, b',') {
        if is_word(part, word) {
            return true;
        }
        rest = later;
    }
    is_word(rest, word)
}

/// Whether a part of a list is the word, without regard to case.
fn is_word(part: &[u8], word: &[u8]) -> bool
    ensures { result ≡ str_eq_ignore_ascii_case (trim_ows part.now) word.now }
{
    is_same_text(trimmed(part), word)
}
