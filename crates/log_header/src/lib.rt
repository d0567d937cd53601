// The header of the log: whether the log begins with it, and writing it.

#![tactic(auto)]

ghost use Rattle.std.specs.Prelude.{◌≡◌, get_or};
ghost use Rattle.rules.specs.Identifiers.{same_bytes};
ghost use Rattle.rules.specs.Log.{header, written};
ghost use Rattle.log_reader.specs.Reading.{bytes_at};

use rules::sizes;

const HEADER: u16 = sizes::HEADER as u16;

fn header_byte(i: u16) -> u8
    ensures { result ≡ get_or header i 0 }
{
    let header = [0x52u8, 0x54, 0x4C, 1, 0, 0, 0, 0];
    header.get(i as usize).copied().unwrap_or(0)
}

// Whether the first n bytes are the header's.
pub fn begins_header(log: &[u8], n: u16) -> bool
    ensures { result ≡ same_bytes (bytes_at log.now 0 n) (bytes_at header 0 n) }
{
    (0..n).all(|i| log_bytes::byte(log, 0, 0, i) == header_byte(i))
}

pub fn write_header(log: &mut [u8])
    ensures { log.new ≡ written 0 header log.old }
{
    for i in 0..HEADER {
        log_bytes::put(log, i as usize, header_byte(i));
    }
}
