// The 16 bytes of an identifier, whichever type wraps them.

#![tactic(auto)]

ghost use Rattle.std.specs.Prelude.{◌≡◌};
ghost use Rattle.rules.specs.Identifiers.{same_bytes, less_bytes, is_zero};

pub fn same(a: [u8; 16], b: [u8; 16]) -> bool
    ensures { result ≡ same_bytes a b }
{
    a == b
}

// The first two bytes that differ decide.
pub fn less(a: [u8; 16], b: [u8; 16]) -> bool
    ensures { result ≡ less_bytes a b }
{
    a < b
}

pub fn is_zero(a: [u8; 16]) -> bool
    ensures { result ≡ is_zero a }
{
    a == [0; 16]
}
