// The index of a writer's pool.
//
// The index has by slots the pairs before the first that ends outside the output. A pair is named by how far it is from 65,535, so
// that 0 names none. There are each slot's first pair (16,384 words), the number of those pairs, and of each pair the next of
// its slot.
#![tactic(auto)]

ghost use Rattle.std.specs.Prelude.{◌≡◌, ◌+◌, ◌*◌, ◌-◌, ◌≤◌, ◌<◌, length, get_or, set};
ghost use Rattle.slots.specs.Slots.{slot_of, Fresh};
ghost use Rattle.writer_spec.specs.Search.{end_of};
ghost use Rattle.pool_index.specs.Index.{pair_name, Inside, Indexed, MaybeIndexed};

// How many pairs there are before the first that ends outside.
fn inside(output: &[u8], pool: &[u32], names: usize) -> usize
    requires { 2 * names ≤ length pool.now }
    ensures { Inside output.now pool.now names result }
{
    for i in 0..names {
        let start = pool[2 * i] as usize;
        let len = pool[2 * i + 1] as usize;
        if output.len() < start + len {
            return i;
        }
    }
    names
}

// The slot of a pair's name.
fn pair_slot(output: &[u8], pool: &[u32], i: usize) -> usize
    requires i_in_bounds { 2 * i + 2 ≤ length pool.now }
    requires i_in_bounds_2 { end_of pool.now i ≤ length output.now }
    ensures { result ≡ slot_of 16384 (pair_name output.now pool.now i) }
{
    let start = pool[2 * i] as usize;
    let len = pool[2 * i + 1] as usize;
    slots::slot_of(&output[start..start + len], 16_384)
}

// A pair goes before the others of its slot.
fn index_pair(index: &mut [u16], slot: usize, i: usize)
    requires index_len { length index.old ≡ 81920 }
    requires slot_bound { (slot < 16384) × (i < 65535) }
    ensures { index.new ≡ set (set index.old (16385 + i) (get_or index.old slot 0)) slot (65535 - i) }
{
    index[16_385 + i] = index[slot];
    index[slot] = (65_535 - i) as u16;
}

// All pairs that there are, the last first.
fn index_pool(output: &[u8], pool: &[u32], names: usize, index: &mut [u16])
    requires names_in_bounds { (2 * names ≤ length pool.now) × (names ≤ 65535) }
    requires index_len { length index.old ≡ 81920 }
    ensures { Fresh index.old → Indexed output.now pool.now names index.new }
{
    let bound = inside(output, pool, names);
    let mut i = bound;
    while 0 < i {
        i -= 1;
        let slot = pair_slot(output, pool, i);
        index_pair(index, slot, i);
    }
    index[16_384] = bound as u16;
}

// Makes the index of so many pairs, in words of zero; words of another number than 81,920 stay as they are, and are no index.
pub fn prepare(output: &[u8], pool: &[u32], names: usize, index: &mut [u16])
    ensures { 2 * names ≤ length pool.now → names ≤ 65535 → Fresh index.old → MaybeIndexed output.now pool.now names index.new }
{
    if names <= pool.len() / 2 && names <= 65_535 && index.len() == 81_920 {
        index_pool(output, pool, names, index);
    }
}
