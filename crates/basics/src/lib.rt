// What every layer needs of truth values, and of numbers in bytes.

#![tactic(auto)]

ghost use Rattle.std.specs.Prelude.{◌≡◌, ◌&&◌, ◌||◌, ◌≤◌, [], ◌∷◌};
ghost use Rattle.rules.specs.Log.{low4, number4};

// As functions: a law over all that several calls ensure is then asked for once, and not at each way out.
pub fn both(a: bool, b: bool) -> bool
    ensures { result ≡ (a && b) }
{
    a && b
}

pub fn either(a: bool, b: bool) -> bool
    ensures { result ≡ (a || b) }
{
    a || b
}

// With its bound, for sums of bytes.
pub fn wide(b: u8) -> u32
    ensures { (result ≡ b) × (result ≤ 255) }
{
    u32::from(b)
}

// Of 4 bytes, low first.
pub fn number_of(first: u8, second: u8, third: u8, fourth: u8) -> u32
    ensures { result ≡ number4 (first ∷ second ∷ third ∷ fourth ∷ []) }
{
    u32::from_le_bytes([first, second, third, fourth])
}

pub fn low_of(n: u32) -> [u8; 4]
    ensures { result ≡ low4 n }
{
    n.to_le_bytes()
}
