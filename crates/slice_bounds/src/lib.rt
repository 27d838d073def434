// What every call of the slice reader checks first: the lengths of its buffers (17), and its place in them (19).
#![tactic(auto)]

ghost use Rattle.std.specs.Prelude.{◌≡◌};
ghost use Rattle.slice_spec.specs.Slice.{sizes_bad, place_bad};

use wire::limits;

// Whether a buffer has a length that no slice reader takes.
#[tactic(auto, using(std::proofs::lemmas::Bool::Decides::nat_tests), unfolding(slice_spec::specs::Slice::sizes_bad))]
pub fn sizes_bad(document: &[u8], pool: &[u32]) -> bool
    ensures { result ≡ sizes_bad document.now pool.now }
{
    limits::MAX_STORE < document.len() || pool.len() % 2 == 1 || limits::MAX_TABLE < pool.len()
}

// Whether the place or the count lies outside its buffer. Twice the names may not fit a usize, half the words do.
#[tactic(auto, using(std::proofs::lemmas::Bool::Decides::nat_tests), unfolding(slice_spec::specs::Slice::place_bad))]
pub fn place_bad(at: usize, names: usize, document: &[u8], pool: &[u32]) -> bool
    ensures { result ≡ place_bad (record { at = at; names = names }) document.now pool.now }
{
    document.len() < at || pool.len() / 2 < names
}
