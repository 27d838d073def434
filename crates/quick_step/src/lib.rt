// The step that both readers share, the quick way; and what a step checks before it looks at the event.
#![tactic(auto)]

ghost use Rattle.std.specs.Prelude.{cond, ◌≡◌, ◌+◌, ◌<◌, IfOk, IfErr};
ghost use Rattle.wire.specs.Answers.{number_of, detail_of};
ghost use Rattle.quick_step.specs.Step.{too_long, outside, refused_first, SteppedQuickly};

use quick::Taken;
use wire::{Refusal, limits};

// Whether a store that a span lies in, of the input or of names, is longer than any may be.
#[tactic(auto, using(std::proofs::lemmas::Bool::Decides::nat_tests), unfolding(crate::specs::Step::too_long))]
fn is_too_long(base: usize, len: usize, copied: bool, store: usize) -> bool
    ensures { result ≡ too_long base len copied store }
{
    limits::MAX_STORE < base
        || limits::MAX_STORE - base < len
        || (copied && limits::MAX_STORE < store)
}

#[tactic(auto, using(std::proofs::lemmas::Bool::Decides::nat_tests), unfolding(crate::specs::Step::outside))]
fn is_outside(words: usize, names: usize, copied: bool, used: usize, store: usize) -> bool
    ensures { result ≡ outside words names copied used store }
{
    words / 2 < names || (copied && store < used)
}

// 17, then 19: for an input of so many bytes that lies in its store from base on, a name store of so many bytes, of which so many are used
// where names are copied to it, and so many names in a table of so many words. Else how many bytes the store of the pool's names has.
#[tactic(auto, using(std::proofs::lemmas::Bool::Decides::nat_tests), unfolding(crate::specs::Step::refused_first))]
pub fn check(
    base: usize,
    len: usize,
    copied: bool,
    store: usize,
    words: usize,
    names: usize,
    used: usize,
) -> Result<usize, Refusal>
    ensures ok { IfOk result (λ stored. (refused_first base len copied store words names used ≡ 0) × (stored ≡ cond copied store (base + len))) }
    ensures err { IfErr result (λ r. (number_of r ≡ refused_first base len copied store words names used) × ((detail_of r ≡ 0) × (0 < number_of r))) }
{
    if is_too_long(base, len, copied, store) {
        return Err(Refusal::BadSize);
    }
    if is_outside(words, names, copied, used, store) {
        return Err(Refusal::BadState);
    }
    Ok(if copied { store } else { base + len })
}

// The step, the quick way, where nothing is refused first and the event is one of the commonest; else nothing is written.
pub fn step_quickly(
    s: &[u8],
    base: usize,
    copied: bool,
    names: usize,
    used: usize,
    table: &[u32],
    store: &[u8],
    rows: &mut [u32],
) -> Option<Taken>
    ensures { SteppedQuickly s.now base copied names used table.now store.now rows.old rows.new result }
{
    let Ok(stored) = check(base, s.len(), copied, store.len(), table.len(), names, used) else {
        return None;
    };
    quick::read(s, base, copied, names, stored, table, rows)
}
