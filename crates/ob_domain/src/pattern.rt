//! Whether a text matches a pattern. Each part between two runs is sought once, behind the
//! part before it, so that no pattern takes longer than its length times the text's, and
//! nothing nests.

ghost use Rattle.std.specs.Prelude.{◌≡◌, ◌↔◌, ◌<◌, ◌+◌, ◌-◌, ◌≤◌, ℕ, ◌==◌, chars, false, true, IfOk, IfSome, MatchOption, drop, length, position};
ghost use Rattle.ob_domain.specs.Patterns.{any_run, begins, fits, folded, matches, some_rest};

use caseless::Caseless;
use ob_base::NoMemory;
use std::alloc::Global;

/// Whether the whole text matches: `_` is any one character, `%` any run of them, and each
/// other character itself.
pub(crate) fn matches(pattern: &[char], text: &[char]) -> bool
    ensures { result ≡ matches pattern.now text.now }
{
    match first_run(pattern) {
        None => pattern.len() == text.len() && begins(pattern, text),
        Some(run) => {
            begins(&pattern[..run], text) && matches_behind(&pattern[run + 1..], &text[run..])
        }
    }
}

/// Whether some rest of the text matches.
fn matches_behind(pattern: &[char], text: &[char]) -> bool
    ensures { result ≡ some_rest (matches pattern.now) text.now }
{
    let (mut parts, mut rest) = (pattern, text);
    while let Some(run) = first_run(parts) {
        let Some(place) = first_place(&parts[..run], rest) else {
            return false;
        };
        rest = &rest[place + run..];
        parts = &parts[run + 1..];
    }
    ends(parts, rest)
}

/// Where the first run stands in a pattern.
fn first_run(pattern: &[char]) -> Option<usize>
    ensures place { result ≡ position (λ sign. sign == any_run) pattern.now }
    ensures within { IfSome result (λ run. run < length pattern.now) }
{
    pattern.iter().position(|sign| *sign == '%')
}

/// The first place from which a text begins with what a pattern without runs stands for.
fn first_place(pattern: &[char], text: &[char]) -> Option<usize>
    ensures { MatchOption result
        ((k : ℕ) → k ≤ length text.now → begins pattern.now (drop k text.now) ≡ false)
        (λ place. (place + length pattern.now ≤ length text.now) × (begins pattern.now (drop place text.now) ≡ true)
        × ((k : ℕ) → k < place → begins pattern.now (drop k text.now) ≡ false)) }
{
    for place in 0..text.len() + 1 {
        if begins(pattern, &text[place..]) {
            return Some(place);
        }
    }
    None
}

/// Whether a text begins with what a pattern without runs stands for.
#[tactic(auto, using(crate::proofs::Matching::begins_short, crate::proofs::Matching::begins_long))]
fn begins(pattern: &[char], text: &[char]) -> bool
    ensures value { result ≡ begins pattern.now text.now }
    ensures long { result ≡ true → length pattern.now ≤ length text.now }
{
    if text.len() < pattern.len() {
        return false;
    }
    for (i, sign) in pattern.iter().enumerate() {
        if !fits(*sign, text[i]) {
            return false;
        }
    }
    true
}

/// Whether a text ends with what a pattern without runs stands for.
fn ends(pattern: &[char], text: &[char]) -> bool
    ensures { result ≡ true ↔ (length pattern.now ≤ length text.now)
        × (begins pattern.now (drop (length text.now - length pattern.now) text.now) ≡ true) }
{
    pattern.len() <= text.len() && begins(pattern, &text[text.len() - pattern.len()..])
}

/// Whether a sign stands for a character.
fn fits(sign: char, character: char) -> bool
    ensures { result ≡ fits sign character }
{
    sign == '_' || sign == character
}

/// The characters of a text, by default case folding where case makes no difference.
pub(crate) fn folded_characters(
    alloc: Global,
    folds: bool,
    text: &str,
) -> Result<Vec<char>, NoMemory>
    ensures { IfOk result (λ characters. characters.items ≡ folded folds (chars text.now)) }
{
    if folds {
        Ok(text.chars().default_case_fold().collect(alloc)?)
    } else {
        Ok(text.chars().collect(alloc)?)
    }
}
