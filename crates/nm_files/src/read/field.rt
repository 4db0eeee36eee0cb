//! Fields of a line, and numbers in their one spelling.
ghost use Rattle.std.specs.Prelude.{◌≡◌, ℕ, List, decimal};
ghost use Rattle.nm_files.specs.Lines as spec;

use crate::read::fault::Reason;

/// Returns whether a field has at least one byte, and only bytes 33 to 126.
pub(crate) fn is_field(field: &[u8]) -> bool
    ensures { result ≡ spec.is_field field.now }
{
    for b in field {
        if *b < 33 || 126 < *b {
            return false;
        }
    }
    !field.is_empty()
}

/// Parses a field into a number below 2^64. Errors: `Number`.
pub(crate) fn number(field: &[u8]) -> Result<u64, Reason>
    ensures { result ≡ spec.number field.now }
{
    if field.is_empty() || field[0] == b'0' && field.len() != 1 {
        return Err(Reason::Number);
    }
    let mut value = 0u64;
    for b in field {
        if !b.is_ascii_digit() {
            return Err(Reason::Number);
        }
        let digit = u64::from(*b - b'0');
        if value > (u64::MAX - digit) / 10 {
            return Err(Reason::Number);
        }
        value = value * 10 + digit;
    }
    Ok(value)
}

/// Parses a field into a slot or a worker, below 2^32. Errors: `Number`.
pub(crate) fn place(field: &[u8]) -> Result<u32, Reason>
    ensures { result ≡ spec.place field.now }
{
    let n = number(field)?;
    u32::try_from(n).map_err(|_| Reason::Number)
}

/// Law: for every field that is parsed as a number n, the field is n in decimal digits. So each
/// number has one spelling.
pub fn one_spelling()
    ensures { (field : List ℕ) (n : ℕ) → spec.number field ≡ Ok n → field ≡ decimal n }
{}
