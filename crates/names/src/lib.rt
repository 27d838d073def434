// Names as the writer compares and hashes them.
#![tactic(auto)]

ghost use Rattle.std.specs.Prelude.{◌≡◌, ◌+◌, ◌≤◌, ◌<◌, length};
ghost use Rattle.wire.specs.Header.{u32_at};
ghost use Rattle.event.specs.Span.{same};
ghost use Rattle.names.specs.Hash.{mix, few_bytes, many_bytes, hash_of};

// Four bytes from a place on as a number.
#[tactic(auto, unfolding(wire::specs::Header::u32_at))]
fn four_at(s: &[u8], at: usize) -> u32
    requires { at + 4 ≤ length s.now }
    ensures { result ≡ u32_at s.now at }
{
    u32::from_be_bytes([s[at], s[at + 1], s[at + 2], s[at + 3]])
}

// A hash with two numbers more. Every product is below 2^64.
#[tactic(auto, unfolding(crate::specs::Hash::mix))]
fn mix(hash: u64, a: u32, b: u32) -> u64
    ensures { result ≡ mix hash a b }
{
    let both = (a as u64) * 1_367_130_551 + (b as u64) * 2_038_074_743;
    let sum = (hash % 4_294_967_296 + both / 65_536 % 4_294_967_296) % 4_294_967_296;
    sum * 2_654_435_761 / 65_536 % 4_294_967_296
}

// All bytes of a name of fewer than four, some of them twice.
#[tactic(auto, unfolding(crate::specs::Hash::few_bytes))]
fn few_bytes(name: &[u8]) -> u32
    requires { length name.now < 4 }
    ensures { result ≡ few_bytes name.now }
{
    let len = name.len();
    if len == 0 {
        return 0;
    }
    (name[0] as u32) + (name[len / 2] as u32) * 256 + (name[len - 1] as u32) * 65_536
}

// A name of eight bytes or more, eight at a time; of the last eight some may be hashed twice.
fn many_bytes(name: &[u8]) -> u64
    requires { 8 ≤ length name.now }
    ensures { result ≡ many_bytes name.now }
{
    let len = name.len();
    let turns = (len - 1) / 8;
    let mut hash = len as u64;
    for k in 0..turns {
        hash = mix(hash, four_at(name, 8 * k), four_at(name, 8 * k + 4));
    }
    mix(hash, four_at(name, len - 8), four_at(name, len - 4))
}

// A name's hash: by all its bytes, so that names which differ in a few anywhere have different ones.
#[tactic(auto, unfolding(crate::specs::Hash::hash_of))]
pub fn hash(name: &[u8]) -> u64
    ensures { result ≡ hash_of name.now }
{
    let len = name.len();
    if len < 4 {
        return mix(len as u64, few_bytes(name), 0);
    }
    if len < 8 {
        return mix(len as u64, four_at(name, 0), four_at(name, len - 4));
    }
    many_bytes(name)
}

// Whether two names are the same. Names of one length differ most often in their ends, which are compared first.
pub fn same_name(a: &[u8], b: &[u8]) -> bool
    ensures { result ≡ same a.now b.now }
{
    let len = a.len();
    if len != b.len() {
        return false;
    }
    if 4 <= len && four_at(a, len - 4) != four_at(b, len - 4) {
        return false;
    }
    equal_bytes::same_bytes(a, b)
}
