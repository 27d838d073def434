// Whether octets pass a test, by blocks that make vector code.
#![tactic(auto)]

ghost use Rattle.std.specs.Prelude.{◌≡◌, ℕ, Bool, true, false, ◌+◌, ◌≤◌, ◌<◌, length, take, drop};
ghost use Rattle.std.specs.List.{All, Any, AllWithin};
ghost use Rattle.std.specs.Bool.{MatchBool};

// ---- by a type

// A test of octets: a type, and no closure, so that nothing is asked of a caller.
pub trait Test {
    ghost passed: { ℕ → Bool };

    fn passes(b: u8) -> bool
        ensures { result ≡ passed b };
}

// Whether each octet passes. None ends the look, so that many are looked at at once.
pub fn pass_test<T: Test>(s: &[u8]) -> bool
    ensures { MatchBool result (All (λ b. T.passed b ≡ true) s.now) (Any (λ b. T.passed b ≡ false) s.now) }
{
    let mut all = true;
    for b in s {
        all &= T::passes(*b);
    }
    all
}

// Past the blocks of N octets that the slice begins with and that pass whole. A call of it would cost a short text a third of its time.
#[inline(always)]
pub fn past_test<const N: usize, T: Test>(s: &[u8]) -> usize
    ensures passed { (result ≤ length s.now) × AllWithin (λ b. T.passed b ≡ true) s.now 0 result }
    ensures stopped { 0 < N → result + N ≤ length s.now → Any (λ b. T.passed b ≡ false) (take N (drop result s.now)) }
{
    let mut k = 0;
    while 0 < N && s.len() - k >= N && pass_test::<T>(&s[k..k + N]) {
        k += N;
    }
    k
}

// Whether all pass, by blocks of N; the last may overlap the one before it.
fn pass_test_by<const N: usize, T: Test>(s: &[u8]) -> bool
    requires room { (0 < N) × (N ≤ length s.now) }
    ensures { MatchBool result (All (λ b. T.passed b ≡ true) s.now) (Any (λ b. T.passed b ≡ false) s.now) }
{
    let last = s.len() - N;
    let mut k = 0;
    while k < last {
        if !pass_test::<T>(&s[k..k + N]) {
            return false;
        }
        k += N;
    }
    pass_test::<T>(&s[last..])
}

// Whether all pass, by the largest blocks that there are.
pub fn all_pass_test<T: Test>(s: &[u8]) -> bool
    ensures { MatchBool result (All (λ b. T.passed b ≡ true) s.now) (Any (λ b. T.passed b ≡ false) s.now) }
{
    match s.len() {
        0..4 => pass_test::<T>(s),
        4..8 => pass_test_by::<4, T>(s),
        8..16 => pass_test_by::<8, T>(s),
        16..128 => pass_test_by::<16, T>(s),
        _ => pass_test_by::<128, T>(s),
    }
}

// ---- by a closure, which may hold what its test needs, as a limit. Whoever calls has to show that it may be called.

// Whether each octet passes. None ends the look, so that many are looked at at once.
pub fn pass<F: Fn(u8) -> bool>(s: &[u8], test: F) -> bool
    requires { F.IsAlwaysCallable test }
    ensures { MatchBool result (All (λ b. F.post test b true) s.now) (Any (λ b. F.post test b false) s.now) }
{
    let mut all = true;
    for b in s {
        all &= test(*b);
    }
    all
}

// Past the blocks of N octets that stand from a place on and pass whole.
pub fn past<const N: usize, F: Fn(u8) -> bool>(s: &[u8], from: usize, test: F) -> usize
    requires from_in_bounds { (0 < N) × (from ≤ length s.now) }
    requires callable { F.IsAlwaysCallable test }
    ensures passed { (from ≤ result) × (result ≤ length s.now) × AllWithin (λ b. F.post test b true) s.now from result }
    ensures stopped { result + N ≤ length s.now → Any (λ b. F.post test b false) (take N (drop result s.now)) }
{
    let mut k = from;
    while s.len() - k >= N && pass(&s[k..k + N], &test) {
        k += N;
    }
    k
}

// Whether all pass, by blocks of N; the last may overlap the one before it.
fn pass_by<const N: usize, F: Fn(u8) -> bool>(s: &[u8], test: F) -> bool
    requires room { (0 < N) × (N ≤ length s.now) }
    requires callable { F.IsAlwaysCallable test }
    ensures { MatchBool result (All (λ b. F.post test b true) s.now) (Any (λ b. F.post test b false) s.now) }
{
    let last = s.len() - N;
    let mut k = 0;
    while k < last {
        if !pass(&s[k..k + N], &test) {
            return false;
        }
        k += N;
    }
    pass(&s[last..], &test)
}

// Whether all pass, by the largest blocks that there are.
pub fn all_pass<F: Fn(u8) -> bool>(s: &[u8], test: F) -> bool
    requires { F.IsAlwaysCallable test }
    ensures { MatchBool result (All (λ b. F.post test b true) s.now) (Any (λ b. F.post test b false) s.now) }
{
    match s.len() {
        0..4 => pass(s, test),
        4..8 => pass_by::<4, _>(s, test),
        8..16 => pass_by::<8, _>(s, test),
        16..128 => pass_by::<16, _>(s, test),
        _ => pass_by::<128, _>(s, test),
    }
}

#[cfg(test)]
mod tests {
    use super::*;

    // One octet at the limit, at each place of a text that is otherwise below it.
    #[test]
    fn a_closure_holds_its_limit(rt: HostRuntime) {
        let limit = b'~';
        let below = |b: u8| b < limit;
        for len in [0usize, 1, 3, 4, 7, 8, 15, 16, 17, 127, 128, 130] {
            let mut text = [b' '; 130];
            assert!(rt; pass(&text[..len], below), "{len} octets");
            assert!(rt; all_pass(&text[..len], below), "{len} octets");
            assert_eq!(rt;
                past::<4, _>(&text[..len], 0, below),
                len / 4 * 4,
                "{len} octets"
            );
            for at in 0..len {
                text[at] = limit;
                let s = &text[..len];
                assert!(rt; !pass(s, below), "{len} octets, at {at}");
                assert!(rt; !all_pass(s, below), "{len} octets, at {at}");
                assert_eq!(rt; past::<4, _>(s, at % 4, below), at, "{len} octets, at {at}");
                text[at] = b' ';
            }
        }
    }
}
