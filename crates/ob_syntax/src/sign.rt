//! The reserved words and the symbols of the language. One that is added gets its variant
//! here, and its bytes in `specs/Signs`.

ghost use Rattle.std.specs.Prelude.{◌≡◌, ◌∷◌, []};
ghost use Rattle.ob_syntax.specs.Signs.{pair_sign, reserved_sign, single_sign};

use ob_base::Operator;

/// A reserved word or a symbol. A minus before an operand is the one between two.
#[derive(Clone, Copy, Debug, PartialEq, Eq)]
pub enum Sign {
    Operator(Operator),
    Not,
    Truth(bool),
    Unset,
    Dot,
    Comma,
    Open,
    Close,
}

/// The sign that a reserved word is.
#[tactic(auto, unfolding(crate::specs::Signs::reserved_sign))]
pub fn reserved_sign(word: &str) -> Option<Sign>
    ensures { result ≡ reserved_sign word.now }
{
    match word {
        "or" => Some(Sign::Operator(Operator::Or)),
        "and" => Some(Sign::Operator(Operator::And)),
        "not" => Some(Sign::Not),
        "div" => Some(Sign::Operator(Operator::Divide)),
        "mod" => Some(Sign::Operator(Operator::Modulo)),
        "true" => Some(Sign::Truth(true)),
        "false" => Some(Sign::Truth(false)),
        "unset" => Some(Sign::Unset),
        _ => None,
    }
}

/// The symbol that two bytes are together.
#[tactic(auto, unfolding(crate::specs::Signs::pair_sign))]
pub fn pair_sign(first: u8, second: u8) -> Option<Sign>
    ensures { result ≡ pair_sign first second }
{
    match (first, second) {
        (b'!', b'=') => Some(Sign::Operator(Operator::NotEqual)),
        (b'<', b'=') => Some(Sign::Operator(Operator::LessOrEqual)),
        (b'>', b'=') => Some(Sign::Operator(Operator::GreaterOrEqual)),
        _ => None,
    }
}

/// The symbol that one byte is.
#[tactic(auto, unfolding(crate::specs::Signs::single_sign))]
pub fn single_sign(byte: u8) -> Option<Sign>
    ensures { result ≡ single_sign byte }
{
    match byte {
        b'=' => Some(Sign::Operator(Operator::Equal)),
        b'<' => Some(Sign::Operator(Operator::Less)),
        b'>' => Some(Sign::Operator(Operator::Greater)),
        b'+' => Some(Sign::Operator(Operator::Add)),
        b'-' => Some(Sign::Operator(Operator::Subtract)),
        b'*' => Some(Sign::Operator(Operator::Multiply)),
        b'.' => Some(Sign::Dot),
        b',' => Some(Sign::Comma),
        b'(' => Some(Sign::Open),
        b')' => Some(Sign::Close),
        _ => None,
    }
}
