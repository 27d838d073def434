// Notes of names. Of each name that a call has met and that is in the pool, it keeps a note of five words: the name's span (source, start,
// length), its index in the pool, and the number of the note before it with the same slot, or 0. Notes are counted from 1;
// `heads` has each slot's last.
ghost use Rattle.std.specs.Prelude.{[], ◌∷◌, ◌≡◌, ◌+◌, ◌*◌, ◌/◌, ◌≤◌, ◌<◌, length, get_or, set};
ghost use Rattle.std.proofs.lemmas.List.Edits.{sets};
ghost use Rattle.event.specs.Span.{span, same};
ghost use Rattle.slots.specs.Slots.{slot_of};
ghost use Rattle.writer.specs.Notes.{note_name, Linked, LookSays, Recalled};
ghost use Rattle.writer.specs.Passes.{most-notes, Slots};

// Whether a note is of the name that a row has. A name read by its index has the same span again.
fn is_noted<'a>(
    first: &'a [u8],
    second: &'a [u8],
    w: &[u32; 8],
    name: &[u8],
    notes: &[u32],
    k: usize,
) -> bool
    requires k_in_bounds { 5 * k + 5 ≤ length notes.now }
    requires name_value { name.now ≡ span first.now second.now (get_or w.now 1 0) (get_or w.now 2 0) (get_or w.now 3 0) }
    ensures { result ≡ same (note_name first.now second.now notes.now k) name.now }
{
    let source = notes[5 * k];
    let start = notes[5 * k + 1];
    let len = notes[5 * k + 2];
    if start == w[2] && len == w[3] && source == w[1] {
        return true;
    }
    equal_bytes::same_bytes(event::span(first, second, source, start, len), name)
}

// The index that the note of a row's name has.
pub(crate) fn look_up<'a>(
    first: &'a [u8],
    second: &'a [u8],
    w: &[u32; 8],
    name: &[u8],
    notes: &[u32],
    heads: &[u16],
    slot: usize,
) -> Option<u32>
    requires name_value { name.now ≡ span first.now second.now (get_or w.now 1 0) (get_or w.now 2 0) (get_or w.now 3 0) }
    requires slot_value { (slot ≡ slot_of (length heads.now) name.now) × (slot < length heads.now) }
    requires linked { Linked first.now second.now notes.now heads.now }
    ensures { LookSays first.now second.now notes.now name.now result }
{
    let mut next = heads[slot] as usize;
    while next != 0 {
        let k = next - 1;
        if is_noted(first, second, w, name, notes, k) {
            return Some(notes[5 * k + 3]);
        }
        next = notes[5 * k + 4] as usize;
    }
    None
}

// Adds the note of a row's name.
pub(crate) fn note(
    w: &[u32; 8],
    index: u32,
    notes: &mut [u32],
    used: usize,
    heads: &mut [u16],
    slot: usize,
)
    requires used_in_bounds { (used + 5 ≤ length notes.old) × (used + 5 ≤ most-notes) }
    requires slot_in_bounds { slot < length heads.old }
    ensures notes_after { notes.new ≡ sets notes.old used (get_or w.now 1 0 ∷ get_or w.now 2 0 ∷ get_or w.now 3 0 ∷ index ∷ get_or heads.old slot 0 ∷ []) }
    ensures heads_after { heads.new ≡ set heads.old slot (used / 5 + 1) }
{
    notes[used..used + 5].copy_from_slice(&[w[1], w[2], w[3], index, heads[slot] as u32]);
    heads[slot] = (used / 5 + 1) as u16;
}

// Most names come again with the span that they were noted by. `seen` guesses the note by where a span starts, and the note
// itself says whether the guess is right, so that nothing hangs on what `seen` holds.
pub(crate) fn recall(w: &[u32; 8], notes: &[u32], seen: &[u16]) -> Option<u32>
    requires slots { Slots (length seen.now) }
    ensures { Recalled w.now notes.now result }
{
    let start = w[2];
    let k = seen[slots::slot_by(start as u64, seen.len() as u16)] as usize;
    let note = 5 * k;
    if notes.len() < note + 5 {
        return None;
    }
    if notes[note + 1] == start && notes[note + 2] == w[3] && notes[note] == w[1] {
        return Some(notes[note + 3]);
    }
    None
}

// Of the notes whose spans start at one place, or share its slot, the first is guessed.
pub(crate) fn remember(start: u32, k: u16, seen: &mut [u16])
    requires { Slots (length seen.old) }
{
    let place = slots::slot_by(start as u64, seen.len() as u16);
    if seen[place] == 0 {
        seen[place] = k;
    }
}
