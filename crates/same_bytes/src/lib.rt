// `equal_bytes::same_bytes` by itself; `same_bytes_c` exports it for C, so that it can be tried and measured alone.
#![tactic(auto)]

ghost use Rattle.std.specs.Prelude.{◌≡◌};
ghost use Rattle.event.specs.Span.{same};

// Whether two slices hold the same bytes.
pub fn same_bytes(a: &[u8], b: &[u8]) -> bool
    ensures { result ≡ same a.now b.now }
{
    equal_bytes::same_bytes(a, b)
}
