// Whether two slices hold the same bytes, by words.
#![tactic(auto)]

ghost use Rattle.std.specs.Prelude.{◌≡◌, ◌+◌, ◌≤◌, length, take, drop};
ghost use Rattle.event.specs.Span.{same};
ghost use Rattle.equal_bytes.specs.Word.{word_of};

// Eight bytes from a place on as a word, the first lowest. The compiler makes one load of it.
fn word_at(s: &[u8], at: usize) -> u64
    requires { at + 8 ≤ length s.now }
    ensures { result ≡ word_of (take 8 (drop at s.now)) }
{
    u64::from_le_bytes([
        s[at],
        s[at + 1],
        s[at + 2],
        s[at + 3],
        s[at + 4],
        s[at + 5],
        s[at + 6],
        s[at + 7],
    ])
}

// Whether two slices of one length hold the same bytes from a place on, byte by byte. Two bytes a turn: most rests are short, and
// a turn costs as much as a byte. Here and below loops count: slices' `==` takes 1.8 times as long at 8 bytes, `as_chunks` with `zip` 1.1.
fn same_rest(a: &[u8], b: &[u8], from: usize) -> bool
    requires { (length a.now ≡ length b.now) × (from ≤ length a.now) }
    ensures { result ≡ same (drop from a.now) (drop from b.now) }
{
    let mut i = from;
    while 2 <= a.len() - i {
        if a[i] != b[i] {
            return false;
        }
        if a[i + 1] != b[i + 1] {
            return false;
        }
        i += 2;
    }
    if i < a.len() {
        return a[i] == b[i];
    }
    true
}

// Whether two slices hold the same bytes: eight at a time, as words, and the rest singly.
pub fn same_bytes(a: &[u8], b: &[u8]) -> bool
    ensures { result ≡ same a.now b.now }
{
    if a.len() != b.len() {
        return false;
    }
    let mut i = 0;
    while 8 <= a.len() - i {
        if word_at(a, i) != word_at(b, i) {
            return false;
        }
        i += 8;
    }
    same_rest(a, b, i)
}
