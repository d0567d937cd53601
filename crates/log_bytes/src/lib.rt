// One byte of the log: past its end it reads as 0, and none is written.

#![tactic(auto)]

ghost use Rattle.std.specs.Prelude.{◌≡◌, ◌+◌, get_or, set};

// The byte i places behind `from` behind `at`: three numbers, so that no sum wraps.
pub fn byte(log: &[u8], at: usize, from: u16, i: u16) -> u8
    ensures { result ≡ get_or log.now (at + (from + i)) 0 }
{
    let k = usize::from(from) + usize::from(i);
    match at.checked_add(k) {
        Some(place) => log.get(place).copied().unwrap_or(0),
        None => 0,
    }
}

pub fn put(log: &mut [u8], at: usize, b: u8)
    ensures { log.new ≡ set log.old at b }
{
    if at < log.len() {
        log[at] = b;
    }
}
