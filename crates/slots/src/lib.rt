// Slots: names, and numbers, by a number among few.
#![tactic(auto)]

ghost use Rattle.std.specs.Prelude.{◌≡◌};
ghost use Rattle.slots.specs.Slots.{slot_by, slot_of};

// A number's slot, among so many.
pub fn slot_by(mixed: u64, slots: u16) -> usize
    ensures { result ≡ slot_by slots mixed }
{
    let spread = mixed % 4_294_967_296 * 2_654_435_761 % 4_294_967_296;
    (spread * (slots as u64) / 4_294_967_296) as usize
}

// A name's slot.
pub fn slot_of(name: &[u8], slots: u16) -> usize
    ensures { result ≡ slot_of slots name.now }
{
    slot_by(names::hash(name), slots)
}
