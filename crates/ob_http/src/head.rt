//! The checks of a head, in their order, and what a head that passes them asks for.

ghost use Rattle.std.specs.Prelude.{◌≡◌, ◌≤◌, ◌==◌, ◌&&◌, not, ℕ, List, [], Some, length, codes, IfNone, IfSome};
ghost use Rattle.std.specs.List.{before_first, list_any};
ghost use Rattle.std.specs.Str.{str_eq_ignore_ascii_case};
ghost use Rattle.httparse.specs.Grammar.{RequestHead, ReadsRequest};
ghost use Rattle.httparse.specs.Spans.{IsWithin, IsRequestWithin, IsRequestOf};
ghost use Rattle.ob_http.specs.Head as spec;
ghost use Rattle.ob_http.specs.Head.{Head, head_of, IsHeadAt, Asks};
ghost use Rattle.ob_http.specs.Message.{message_of, lists_word};
ghost use Rattle.ob_http.specs.Spans.{AreWithin, Covers, is_header_named, values_at, length_from};

use crate::fields::{Fields, LengthFault};
use crate::length::body_length;
use crate::lines::HeadSize;
use crate::text::cut_at;
use httparse::Status;
use httparse::spans::{EMPTY_HEADER_SPAN, HeaderSpan, RequestSpans, parse_request};
use ob_base::limits::MAX_HEAD_FIELDS;

/// What a head asks for.
#[derive(Clone, Copy, Debug, PartialEq, Eq)]
pub(crate) struct Message {
    /// How many bytes the body has.
    pub(crate) length: usize,
    /// Whether the connection stays open after the reply.
    pub(crate) keep: bool,
    /// Whether the interim line is due.
    pub(crate) interim: bool,
}

/// What a whole head asks for, or the status of the first check that it doesn't pass.
pub(crate) fn asks(bytes: &[u8], head: HeadSize) -> Result<Message, u16>
    requires found { (known : Head) × (head_of bytes.now ≡ Some known) × (known.size ≡ length bytes.now) × IsHeadAt bytes.now head known }
    ensures { (known : Head) → head_of bytes.now ≡ Some known → Asks bytes.now known result }
{
    if head.fields > MAX_HEAD_FIELDS {
        return Err(431);
    }
    if has_other_version(&bytes[head.line.0..head.line.1]) {
        return Err(505);
    }
    let mut spans = [EMPTY_HEADER_SPAN; MAX_HEAD_FIELDS];
    match request_of(bytes, &mut spans) {
        Some(request) => message_of(bytes, request, &spans[..request.headers]),
        None => Err(400),
    }
}

/// The parts of a request's head, where all of the bytes are one.
fn request_of(bytes: &[u8], spans: &mut [HeaderSpan]) -> Option<RequestSpans>
    ensures whole { IfSome result (λ request. request.len ≡ length bytes.now) }
    ensures within { IfSome result (IsRequestWithin bytes.now spans.new) }
    ensures some { IfSome result (IsRequestOf bytes.now spans.new) }
    ensures none { IfNone result ((head : RequestHead) → ReadsRequest bytes.now head []
        → length head.fields ≤ length spans.old → ⊥) }
{
    match parse_request(bytes, spans) {
        Ok(Status::Complete(request)) if request.len == bytes.len() => Some(request),
        _ => None,
    }
}

/// What a request says of its message, or the status of the first check that it doesn't pass.
fn message_of(bytes: &[u8], request: RequestSpans, spans: &[HeaderSpan]) -> Result<Message, u16>
    requires method { IsWithin (length bytes.now) request.method }
    requires path { IsWithin (length bytes.now) request.path }
    requires fields { AreWithin bytes.now spans.now }
    ensures { (head : RequestHead) → Covers bytes.now request spans.now head → result ≡ message_of head }
{
    if path_of(request.path.of(bytes)) != b"/jsonrpc".as_slice() {
        return Err(404);
    }
    if request.method.of(bytes) != b"POST".as_slice() {
        return Err(405);
    }
    let fields = Fields { head: bytes, spans };
    let length = length_of(fields)?;
    Ok(Message {
        length,
        keep: keeps_open(request.version, fields),
        interim: expects_interim(request.version, fields),
    })
}

/// Whether the connection stays open after the reply, by the version and the fields.
fn keeps_open(version: u8, fields: Fields<'_>) -> bool
    requires { AreWithin fields.head.now fields.spans.now }
    ensures { result ≡ (version == 1 && not (list_any (lists_word (codes "close"))
        (values_at fields.entry.head.now (codes "connection") fields.entry.spans.now))) }
{
    version == 1 && !fields.lists(b"connection", b"close")
}

/// Whether the interim line is due, by the version and the fields.
fn expects_interim(version: u8, fields: Fields<'_>) -> bool
    requires { AreWithin fields.head.now fields.spans.now }
    ensures { result ≡ (version == 1 && list_any (λ value. str_eq_ignore_ascii_case value (codes "100-continue"))
        (values_at fields.entry.head.now (codes "expect") fields.entry.spans.now)) }
{
    version == 1 && fields.gives(b"expect", b"100-continue")
}

/// The length of the body that the fields give, or the status that says why there is none.
fn length_of(fields: Fields<'_>) -> Result<usize, u16>
    requires { AreWithin fields.head.now fields.spans.now }
    ensures { let has = λ (name : List ℕ). list_any (is_header_named fields.entry.head.now name) fields.entry.spans.now in
        result ≡ length_from (has (codes "content-length") && not (has (codes "transfer-encoding")))
        (values_at fields.entry.head.now (codes "content-length") fields.entry.spans.now) }
{
    if fields.has(b"transfer-encoding") {
        return Err(411);
    }
    match fields.number(b"content-length") {
        Ok(digits) => match body_length(digits) {
            Some(length) => Ok(length),
            None => Err(413),
        },
        Err(LengthFault::Absent) => Err(411),
        Err(LengthFault::Unequal) => Err(400),
    }
}

/// The part of a target before its first question mark.
fn path_of(target: &[u8]) -> &[u8]
    ensures { result.now ≡ before_first (λ byte. byte == 63) target.now }
{
    match cut_at(target, b'?') {
        Some((path, _)) => path,
        None => target,
    }
}

/// Whether a request line names another version of HTTP than 1.0 and 1.1.
fn has_other_version(line: &[u8]) -> bool
    ensures { result ≡ spec.has_other_version line.now }
{
    let Some((method, after_method)) = cut_at(line, b' ') else {
        return false;
    };
    let Some((target, version)) = cut_at(after_method, b' ') else {
        return false;
    };
    match cut_at(version, b' ') {
        Some(_) => false,
        None => !method.is_empty() && !target.is_empty() && is_other_version(version),
    }
}

/// Whether the word names a version of HTTP other than 1.0 and 1.1.
fn is_other_version(word: &[u8]) -> bool
    ensures { result ≡ spec.is_other_version word.now }
{
    is_version(word) && word != b"HTTP/1.0".as_slice() && word != b"HTTP/1.1".as_slice()
}

/// Whether the word names a version of HTTP.
fn is_version(word: &[u8]) -> bool
    ensures { result ≡ spec.is_version word.now }
{
    word.len() == 8
        && word.starts_with(b"HTTP/")
        && word[5].is_ascii_digit()
        && word[6] == b'.'
        && word[7].is_ascii_digit()
}
