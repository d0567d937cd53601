// The words of a trace line: where one ends, and what it says.

#![tactic(auto)]

ghost use Rattle.std.specs.Prelude.{◌≡◌};
ghost use Rattle.rules.specs.Identifiers.{same_bytes};
ghost use Rattle.trace_words.specs.Words.{word_end, extended_of, digits_value, number_of, identifier_word_of};

use rules::sizes::IDENTIFIER;

// The byte of an identifier that a word names.
const LAST: usize = IDENTIFIER - 1;

// The place of the first space, and the length where there is none.
pub fn word_end(s: &[u8]) -> usize
    ensures { result ≡ word_end s.now }
{
    s.iter().position(|b| *b == b' ').unwrap_or(s.len())
}

pub fn is_word(w: &[u8], text: &[u8]) -> bool
    ensures { result ≡ same_bytes w.now text.now }
{
    w == text
}

// The value n with one digit more behind it; None where the byte is no digit, or the value would be too large.
fn extended(n: u32, b: u8) -> Option<u32>
    ensures { result ≡ extended_of n b }
{
    if !b.is_ascii_digit() {
        return None;
    }
    n.checked_mul(10)?.checked_add(u32::from(b - b'0'))
}

// Of a word that may have leading zeros.
fn value_of(w: &[u8]) -> Option<u32>
    ensures { result ≡ digits_value w.now }
{
    let mut n = 0;
    for b in w {
        n = extended(n, *b)?;
    }
    Some(n)
}

// The number of an enlistment that a word names; None where it can't be read.
pub fn read_number(w: &[u8]) -> Option<u32>
    ensures { result ≡ number_of w.now }
{
    let leading = *w.first()? == b'0';
    if leading && w.len() > 1 {
        return None;
    }
    value_of(w)
}

// The transaction or the resource manager that a word names; None where it can't be read.
pub fn read_identifier(w: &[u8]) -> Option<[u8; IDENTIFIER]>
    ensures { result ≡ identifier_word_of w.now }
{
    let mut bytes = [0u8; IDENTIFIER];
    bytes[LAST] = u8::try_from(read_number(w)?).ok()?;
    Some(bytes)
}
