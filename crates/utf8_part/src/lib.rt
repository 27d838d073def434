// Well-formed UTF-8 in a part of a text.
#![tactic(auto)]

ghost use Rattle.std.specs.Prelude.{◌≡◌, true, ◌+◌, ◌≤◌, length, take, drop};
ghost use Rattle.utf8.specs.Utf8.{well_formed};
ghost use Rattle.utf8_part.specs.Reading.{Low};

// Whether the first n of 96 octets are ASCII; places has the numbers from 0 on. None ends the look, so that many are looked at at once.
fn is_low(block: &[u8; 96], n: u8, places: &[u8; 96]) -> bool
    ensures { result ≡ true → Low block.now n places.now 96 }
{
    let mut all = true;
    for (b, place) in block.iter().zip(places) {
        all &= (*b < 0x80) | (n <= *place);
    }
    all
}

// Whether the n octets of s from i on, or as many of them as there are, are well-formed UTF-8. Up to 96 of ASCII are told
// by a look at 96, of which the first n must be low, so that no branch hangs on n.
pub fn is_utf8_part(s: &[u8], i: usize, n: usize) -> bool
    ensures { result ≡ well_formed (take n (drop i s.now)) }
{
    let Some(left) = s.get(i..) else {
        return true;
    };
    if n <= 96 {
        if let Some(block) = left.first_chunk::<96>() {
            let places = b"\x00\x01\x02\x03\x04\x05\x06\x07\x08\x09\x0A\x0B\x0C\x0D\x0E\x0F\
                \x10\x11\x12\x13\x14\x15\x16\x17\x18\x19\x1A\x1B\x1C\x1D\x1E\x1F\
                \x20\x21\x22\x23\x24\x25\x26\x27\x28\x29\x2A\x2B\x2C\x2D\x2E\x2F\
                \x30\x31\x32\x33\x34\x35\x36\x37\x38\x39\x3A\x3B\x3C\x3D\x3E\x3F\
                \x40\x41\x42\x43\x44\x45\x46\x47\x48\x49\x4A\x4B\x4C\x4D\x4E\x4F\
                \x50\x51\x52\x53\x54\x55\x56\x57\x58\x59\x5A\x5B\x5C\x5D\x5E\x5F";
            if is_low(block, n as u8, places) {
                return true;
            }
        }
    }
    utf8::is_utf8(&left[..n.min(left.len())])
}
