// `same_bytes` for C, as a static library of its own, so that it can be tried and measured alone.
#![tactic(auto)]

ghost use Rattle.std.specs.Prelude.{◌≡◌};
ghost use Rattle.event.specs.Span.{same};

// Whether two slices hold the same bytes.
#[unsafe(no_mangle)]
pub extern "C" fn same_bytes(a: &[u8], b: &[u8]) -> bool
    ensures { result ≡ same a.now b.now }
{
    same_bytes::same_bytes(a, b)
}
