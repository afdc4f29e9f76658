//! Readers of the parts of a row's body. Each takes the bytes that are left and
//! answers its part with those after it, or `Bad` where no such part stands at the
//! front. Nothing is copied. The length of a text is tested before the text is looked at.

ghost use Rattle.std.specs.Prelude.{◌≡◌};
ghost use Rattle.std.specs.Int.{w16, w32, w64};
ghost use Rattle.ob_codec.specs.KeptReading.{IsRowResult, first_byte, body_part, body_front, body_number, body_fields, body_named, body_counted, body_text};

use crate::fault::RowFault;
use crate::kept_form::VERSION;
use std::str;

/// The fields of a body of this version that has so many of them.
#[tactic(auto, unfolding(crate::specs::KeptReading::body_fields))]
pub(crate) fn fields_of(count: usize, body: &[u8]) -> Result<&[u8], RowFault>
    ensures { IsRowResult (λ x. x.now) result (body_fields count body.now) }
{
    let (version, rest) = byte_of(body)?;
    let (found, rest) = u16_of(rest)?;
    if version == VERSION && found as usize == count {
        Ok(rest)
    } else {
        Err(RowFault::Bad)
    }
}

/// The tag of a field of this name, and its content.
#[tactic(auto, unfolding(crate::specs::KeptReading::body_named))]
pub(crate) fn named_field<'a>(name: &[u8], bytes: &'a [u8]) -> Result<(u8, &'a [u8]), RowFault>
    ensures { IsRowResult (λ x. (x.0, x.1.now)) result (body_named name.now bytes.now) }
{
    let (len, rest) = byte_of(bytes)?;
    let rest = after(name, rest)?;
    if len as usize == name.len() {
        byte_of(rest)
    } else {
        Err(RowFault::Bad)
    }
}

/// Bytes after their length in four bytes, which is at most `limit`.
#[tactic(auto, unfolding(crate::specs::KeptReading::body_counted))]
pub(crate) fn counted_of(limit: usize, bytes: &[u8]) -> Result<(&[u8], &[u8]), RowFault>
    ensures { IsRowResult (λ x. (x.0.now, x.1.now)) result (body_counted limit bytes.now) }
{
    let (len, rest) = u32_of(bytes)?;
    let len = len as usize;
    if len > limit {
        return Err(RowFault::Bad);
    }
    part_of(len, rest)
}

/// A text of at most `limit` bytes: its length in four bytes, and UTF-8.
#[tactic(auto, unfolding(crate::specs::KeptReading::body_text))]
pub(crate) fn text_of(limit: usize, bytes: &[u8]) -> Result<(&str, &[u8]), RowFault>
    ensures { IsRowResult (λ x. (x.0.now, x.1.now)) result (body_text limit bytes.now) }
{
    let (text, rest) = counted_of(limit, bytes)?;
    match str::from_utf8(text) {
        Ok(text) => Ok((text, rest)),
        Err(_) => Err(RowFault::Bad),
    }
}

pub(crate) fn byte_of(bytes: &[u8]) -> Result<(u8, &[u8]), RowFault>
    ensures { IsRowResult (λ x. (x.0, x.1.now)) result (first_byte bytes.now) }
{
    match bytes {
        [] => Err(RowFault::Bad),
        [first, rest @ ..] => Ok((*first, rest)),
    }
}

/// The next `len` bytes.
fn part_of(len: usize, bytes: &[u8]) -> Result<(&[u8], &[u8]), RowFault>
    ensures { IsRowResult (λ x. (x.0.now, x.1.now)) result (body_part len bytes.now) }
{
    bytes.split_at_checked(len).ok_or(RowFault::Bad)
}

/// The bytes after this front.
fn after<'a>(front: &[u8], bytes: &'a [u8]) -> Result<&'a [u8], RowFault>
    ensures { IsRowResult (λ x. x.now) result (body_front front.now bytes.now) }
{
    bytes.strip_prefix(front).ok_or(RowFault::Bad)
}

fn u16_of(bytes: &[u8]) -> Result<(u16, &[u8]), RowFault>
    ensures { IsRowResult (λ x. (x.0, x.1.now)) result (body_number w16 bytes.now) }
{
    let (front, rest) = bytes.split_first_chunk::<2>().ok_or(RowFault::Bad)?;
    Ok((u16::from_be_bytes(*front), rest))
}

pub(crate) fn u32_of(bytes: &[u8]) -> Result<(u32, &[u8]), RowFault>
    ensures { IsRowResult (λ x. (x.0, x.1.now)) result (body_number w32 bytes.now) }
{
    let (front, rest) = bytes.split_first_chunk::<4>().ok_or(RowFault::Bad)?;
    Ok((u32::from_be_bytes(*front), rest))
}

pub(crate) fn u64_of(bytes: &[u8]) -> Result<(u64, &[u8]), RowFault>
    ensures { IsRowResult (λ x. (x.0, x.1.now)) result (body_number w64 bytes.now) }
{
    let (front, rest) = bytes.split_first_chunk::<8>().ok_or(RowFault::Bad)?;
    Ok((u64::from_be_bytes(*front), rest))
}
