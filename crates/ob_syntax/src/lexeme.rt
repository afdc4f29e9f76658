//! Tokens: a text is cut in one pass, from the front, each token as long as can be. A new
//! kind of token gets its variant here, and in `specs/Lexemes`.

ghost use Rattle.std.specs.Prelude.{◌≡◌, ◌∷◌, [], ◌<◌, ◌≤◌, ◌+◌, All, Bool, IsTrue, MatchOption, drop, false, slice_index, take_while, length, not};
ghost use Rattle.std.specs.List.{prefix_len};
ghost use Rattle.ob_base.specs.Limits.{max_expression_bytes};
ghost use Rattle.ob_base.specs.NameBytes.{is_digit, is_letter, is_name_byte};
ghost use Rattle.ob_syntax.specs.Lexemes.{front_cut, is_quote, is_separator, is_text_byte, lexeme_of, lexemes, lexemes_from, number_lexeme, offset_of, symbol_cut, text_cut, word_lexeme};

use crate::sign::{Sign, pair_sign, reserved_sign, single_sign};
use std::marker::Model;

/// A token, and its offset in the text.
#[derive(Clone, Copy, Debug)]
pub enum Token<'a> {
    Name(&'a str, u32),
    Number(i64, u32),
    /// What stands between two quotes.
    Text(&'a str, u32),
    Sign(Sign, u32),
    /// A token that the language does not have.
    Other(u32),
}

impl Token<'_> {
    /// Its offset.
    pub fn offset(self) -> u32
        ensures { result ≡ offset_of (lexeme_of self.entry) }
    {
        match self {
            Token::Name(_, at)
            | Token::Number(_, at)
            | Token::Text(_, at)
            | Token::Sign(_, at)
            | Token::Other(at) => at,
        }
    }
}

/// Reads the tokens of a text, one after another.
#[derive(Drop)]
pub struct Lexer<'a> {
    text: &'a str,
    at: usize,
}

impl<'a> Model for Lexer<'a> {
    ghost use Rattle.std.specs.Prelude.{◌≤◌, drop, length};
    ghost use Rattle.ob_base.specs.Limits.{max_expression_bytes};
    ghost use Rattle.ob_syntax.specs.Lexemes.{lexemes_from};
    ghost use Rattle.ob_syntax.specs.Ahead.{Ahead};

    ghost Value = { Ahead };

    ghost view = { λ l. record { tokens = lexemes_from 0 l.at (drop l.at l.text.now); end = length l.text.now } };

    ghost invariant = { λ l. (l.at ≤ length l.text.now) × (length l.text.now ≤ max_expression_bytes) };
}

impl<'a> Lexer<'a> {
    /// Before the first token.
    pub fn new(text: &'a str) -> Lexer<'a>
        requires { length text.now ≤ max_expression_bytes }
        ensures tokens { result.tokens ≡ lexemes text.now }
        ensures end { result.end ≡ length text.now }
    {
        Lexer { text, at: 0 }
    }

    /// The next token; none at the end of the text.
    pub fn next(&mut self) -> Option<Token<'a>>
        ensures token { MatchOption result
            (self.old.tokens ≡ [])
            (λ token. self.old.tokens ≡ lexeme_of token ∷ self.new.tokens) }
        ensures end { self.new.end ≡ self.old.end }
    {
        let text = self.text;
        let start = self.at + blank_len(&text.as_bytes()[self.at..]);
        if start == text.len() {
            return None;
        }
        let (token, len) = token_at(text, start);
        self.at = start + len;
        Some(token)
    }

    /// The length of the text.
    pub fn end(&self) -> u32
        ensures { result ≡ self.now.end }
    {
        self.text.len() as u32
    }
}

/// The token that begins at an offset, and how many bytes it takes.
fn token_at(text: &str, start: usize) -> (Token<'_>, usize)
    requires short { length text.now ≤ max_expression_bytes }
    requires inside { start < length text.now }
    ensures cut { front_cut (slice_index text.now start) (drop (start + 1) text.now) start
        ≡ record { lexeme = lexeme_of result.0; len = result.1 } }
    ensures some { 1 ≤ result.1 }
    ensures within { start + result.1 ≤ length text.now }
{
    let at = start as u32;
    let rest = &text.as_bytes()[start..];
    let first = rest[0];
    if is_letter(first) {
        let len = run_len(rest);
        return (word(&text[start..start + len], at), len);
    }
    if is_digit(first) {
        let len = digits_len(rest);
        return (number(&text[start..start + len], at), len);
    }
    if is_quote(first) {
        return quoted(text, start);
    }
    symbol(rest, at)
}

/// The token of a run that begins with a letter.
#[tactic(auto, unfolding(crate::specs::Lexemes::word_lexeme))]
fn word(run: &str, at: u32) -> Token<'_>
    ensures { lexeme_of result ≡ word_lexeme run.now at }
{
    match reserved_sign(run) {
        Some(sign) => Token::Sign(sign, at),
        None => Token::Name(run, at),
    }
}

/// The token of a run of digits.
#[tactic(auto, unfolding(crate::specs::Lexemes::number_lexeme))]
fn number(run: &str, at: u32) -> Token<'_>
    requires some { 0 < length run.now }
    requires digits { All (λ b. IsTrue (is_digit b)) run.now }
    ensures { lexeme_of result ≡ number_lexeme run.now at }
{
    match run.parse::<i64>() {
        Ok(number) => Token::Number(number, at),
        Err(_) => Token::Other(at),
    }
}

/// The token that begins with a quote, and how many bytes it takes.
#[tactic(auto, unfolding(crate::specs::Lexemes::text_cut))]
fn quoted(text: &str, start: usize) -> (Token<'_>, usize)
    requires short { length text.now ≤ max_expression_bytes }
    requires inside { start < length text.now }
    requires quote { IsTrue (is_quote (slice_index text.now start)) }
    ensures cut { text_cut (slice_index text.now start) (drop (start + 1) text.now) start
        ≡ record { lexeme = lexeme_of result.0; len = result.1 } }
    ensures some { 1 ≤ result.1 }
    ensures within { start + result.1 ≤ length text.now }
{
    let bytes = text.as_bytes();
    let quote = bytes[start];
    let from = start + 1;
    let to = from + text_len(&bytes[from..], quote);
    if to < bytes.len() && bytes[to] == quote {
        (Token::Text(&text[from..to], start as u32), to + 1 - start)
    } else {
        (Token::Other(start as u32), 1)
    }
}

/// The token of a byte that begins no run and no text, and how many bytes it takes.
fn symbol(rest: &[u8], at: u32) -> (Token<'static>, usize)
    requires { 0 < length rest.now }
    ensures cut { symbol_cut (slice_index rest.now 0) (drop 1 rest.now) at
        ≡ record { lexeme = lexeme_of result.0; len = result.1 } }
    ensures some { 1 ≤ result.1 }
    ensures within { result.1 ≤ length rest.now }
{
    if rest.len() > 1 {
        if let Some(sign) = pair_sign(rest[0], rest[1]) {
            return (Token::Sign(sign, at), 2);
        }
    }
    match single_sign(rest[0]) {
        Some(sign) => (Token::Sign(sign, at), 1),
        None => (Token::Other(at), 1),
    }
}

/// How many blanks stand at the front.
fn blank_len(bytes: &[u8]) -> usize
    ensures len { result ≡ prefix_len is_separator bytes.now }
    ensures within { result ≤ length bytes.now }
{
    bytes.iter().take_while(|b| is_separator(**b)).count()
}

/// How many bytes of a name stand at the front.
fn run_len(bytes: &[u8]) -> usize
    ensures len { result ≡ prefix_len is_name_byte bytes.now }
    ensures within { result ≤ length bytes.now }
{
    bytes.iter().take_while(|b| is_name_byte(**b)).count()
}

/// How many digits stand at the front.
fn digits_len(bytes: &[u8]) -> usize
    ensures len { result ≡ prefix_len is_digit bytes.now }
    ensures within { result ≤ length bytes.now }
{
    bytes.iter().take_while(|b| is_digit(**b)).count()
}

/// How many bytes of a text stand at the front, before its quote or the end of the line.
fn text_len(bytes: &[u8], quote: u8) -> usize
    ensures len { result ≡ prefix_len (is_text_byte quote) bytes.now }
    ensures within { result ≤ length bytes.now }
{
    bytes
        .iter()
        .take_while(|b| is_text_byte(quote, **b))
        .count()
}

#[tactic(auto, unfolding(crate::specs::Lexemes::is_separator))]
fn is_separator(byte: u8) -> bool
    ensures { result ≡ is_separator byte }
{
    matches!(byte, b' ' | b'\t' | b'\n')
}

fn is_letter(byte: u8) -> bool
    ensures { result ≡ is_letter byte }
{
    matches!(byte, b'a'..=b'z')
}

fn is_digit(byte: u8) -> bool
    ensures { result ≡ is_digit byte }
{
    matches!(byte, b'0'..=b'9')
}

#[tactic(auto, unfolding(ob_base::specs::NameBytes::is_name_byte))]
fn is_name_byte(byte: u8) -> bool
    ensures { result ≡ is_name_byte byte }
{
    is_letter(byte) || is_digit(byte) || byte == b'_'
}

fn is_quote(byte: u8) -> bool
    ensures { result ≡ is_quote byte }
{
    matches!(byte, b'"' | b'\'')
}

fn is_text_byte(quote: u8, byte: u8) -> bool
    ensures { result ≡ is_text_byte quote byte }
{
    !(byte == quote || byte == b'\n')
}
