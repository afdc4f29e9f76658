//! The forms of names of models and fields. A byte that names may have is added in
//! `specs/Lexemes` of ob_expr and here.

ghost use Rattle.std.specs.Prelude.{◌≡◌, ◌||◌, ◌==◌};
ghost use Rattle.std.specs.List.{list_all};
ghost use Rattle.ob_base.specs.NameBytes.{begins_with_letter, is_letter, is_name_byte};
ghost use Rattle.ob_definition.specs.Names.{is_field_name, is_model_name};

/// The length in bytes of a name.
const MAX_NAME_BYTES: usize = 64;

/// Whether a text is the name of a field: small letters, digits and `_`, a letter first,
/// at most 64 bytes.
pub fn is_field_name(name: &str) -> bool
    ensures { result ≡ is_field_name name.now }
{
    let bytes = name.as_bytes();
    begins_with_letter(bytes) && are_name_bytes(bytes) && bytes.len() <= MAX_NAME_BYTES
}

/// Whether a text is the name of a model: that of a field, with dots too.
pub fn is_model_name(name: &str) -> bool
    ensures { result ≡ is_model_name name.now }
{
    let bytes = name.as_bytes();
    begins_with_letter(bytes) && are_model_bytes(bytes) && bytes.len() <= MAX_NAME_BYTES
}

fn are_name_bytes(bytes: &[u8]) -> bool
    ensures { result ≡ list_all is_name_byte bytes.now }
{
    bytes.iter().all(|byte| is_name_byte(*byte))
}

fn are_model_bytes(bytes: &[u8]) -> bool
    ensures { result ≡ list_all (λ b. is_name_byte b || (b == 46)) bytes.now }
{
    bytes
        .iter()
        .all(|byte| is_name_byte(*byte) || *byte == b'.')
}

fn begins_with_letter(bytes: &[u8]) -> bool
    ensures { result ≡ begins_with_letter bytes.now }
{
    match bytes {
        [] => false,
        [first, ..] => is_letter(*first),
    }
}

fn is_letter(byte: u8) -> bool
    ensures { result ≡ is_letter byte }
{
    matches!(byte, b'a'..=b'z')
}

#[tactic(auto, using(crate::proofs::NameBytes::name_byte_tests))]
fn is_name_byte(byte: u8) -> bool
    ensures { result ≡ is_name_byte byte }
{
    is_letter(byte) || matches!(byte, b'0'..=b'9' | b'_')
}
