// Copies of bytes from one slice to another, in blocks (docs/BENCHMARKS.md, the writer, says what they give).
#![tactic(auto)]

ghost use Rattle.std.specs.Prelude.{◌≡◌, ◌+◌, ◌≤◌, ◌<◌, length, take, drop};
ghost use Rattle.std.proofs.lemmas.List.Edits.{sets};

// One by one: so few bytes are copied before `copy_from_slice` has told that the two do not overlap.
fn copy_bytes(to: &mut [u8], from: &[u8])
    requires { length to.old ≡ length from.now }
    ensures { to.new ≡ from.now }
{
    for (i, b) in from.iter().enumerate() {
        to[i] = *b;
    }
}

// N bytes from a place on. Read whole before it is written, a block of a known length is one word.
fn copy_block<const N: usize>(to: &mut [u8], from: &[u8], at: usize)
    requires to_len { length to.old ≡ length from.now }
    requires block_in_bounds { at + N ≤ length from.now }
    ensures { to.new ≡ sets to.old at (take N (drop at from.now)) }
{
    let mut block = [0u8; N];
    block.copy_from_slice(&from[at..at + N]);
    to[at..at + N].copy_from_slice(&block);
}

// Block by block; the last may overlap the one before it.
fn copy_blocks<const N: usize>(to: &mut [u8], from: &[u8])
    requires to_len { length to.old ≡ length from.now }
    requires block_in_bounds { (0 < N) × (N ≤ length from.now) }
    ensures { to.new ≡ from.now }
{
    let last = from.len() - N;
    let mut at = 0;
    while at < last {
        copy_block::<N>(to, from, at);
        at += N;
    }
    copy_block::<N>(to, from, last);
}

// All bytes, by the largest blocks that there are.
fn copy_all(to: &mut [u8], from: &[u8])
    requires { length to.old ≡ length from.now }
    ensures { to.new ≡ from.now }
{
    match from.len() {
        0..4 => copy_bytes(to, from),
        4..8 => copy_blocks::<4>(to, from),
        8..16 => copy_blocks::<8>(to, from),
        _ => copy_blocks::<16>(to, from),
    }
}

// Stores the bytes of a slice in another from a place on, as many as it has room for.
pub fn copy(from: &[u8], to: &mut [u8], at: usize)
    ensures { to.new ≡ sets to.old at from.now }
{
    if to.len() < at {
        return;
    }
    let room = to.len() - at;
    // Two calls, and not one of `from.len().min(room)` bytes: that was slower, since the length of a literal was no longer known.
    if room < from.len() {
        copy_all(&mut to[at..], &from[..room]);
        return;
    }
    copy_all(&mut to[at..at + from.len()], from);
}
