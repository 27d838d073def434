// The search of a writer's pool for a name: pair by pair, or by the index of the pairs.
#![tactic(auto)]

ghost use Rattle.std.specs.Prelude.{◌≡◌, ◌+◌, ◌*◌, ◌≤◌, length, take, drop};
ghost use Rattle.event.specs.Span.{same};
ghost use Rattle.pool_index.specs.Index.{Indexed, MaybeIndexed};
ghost use Rattle.pool_search.specs.Search.{searched, found_of};

// A pair that ends outside the output comes before any that spans the name.
#[derive(Clone, Copy, Debug, PartialEq, Eq)]
pub struct BadPair;

// Whether so many bytes from a place on are the name. Most pairs of a pool have another length.
fn spans_name(output: &[u8], start: usize, len: usize, name: &[u8]) -> bool
    requires { start + len ≤ length output.now }
    ensures { result ≡ same (take len (drop start output.now)) name.now }
{
    len == name.len() && names::same_name(&output[start..start + len], name)
}

// The first pair that spans the name, among so many.
fn search_pool(
    output: &[u8],
    pool: &[u32],
    names: usize,
    name: &[u8],
) -> Result<Option<usize>, BadPair>
    requires { 2 * names ≤ length pool.now }
    ensures { found_of result ≡ searched output.now names pool.now name.now }
{
    for i in 0..names {
        let start = pool[2 * i] as usize;
        let len = pool[2 * i + 1] as usize;
        if output.len() < start + len {
            return Err(BadPair);
        }
        if spans_name(output, start, len, name) {
            return Ok(Some(i));
        }
    }
    Ok(None)
}

// What `search_pool` finds, by the index. Of words that are no index of the pool it reads none outside the slices, and ends: the number
// falls along a chain. What it answers of them has no meaning; one answer for all leaves the caller's loop its registers.
fn search_index(
    output: &[u8],
    pool: &[u32],
    names: usize,
    name: &[u8],
    index: &[u16],
) -> Result<Option<usize>, BadPair>
    requires names_in_bounds { 2 * names ≤ length pool.now }
    requires index_len { length index.now ≡ 81920 }
    ensures { Indexed output.now pool.now names index.now → found_of result ≡ searched output.now names pool.now name.now }
{
    let mut next = index[slots::slot_of(name, 16_384)] as usize;
    while next != 0 {
        let i = 65_535 - next;
        if names <= i {
            return Ok(None);
        }
        let start = pool[2 * i] as usize;
        let len = pool[2 * i + 1] as usize;
        if output.len() < start + len {
            return Ok(None);
        }
        if spans_name(output, start, len, name) {
            return Ok(Some(i));
        }
        let after = index[16_385 + i] as usize;
        if next <= after {
            return Ok(None);
        }
        next = after;
    }
    if (index[16_384] as usize) < names {
        return Err(BadPair);
    }
    Ok(None)
}

// The first pair that spans the name, among so many, by the index where there is one. The first list of a document asks of no pairs, for each of its names.
pub fn search(
    output: &[u8],
    pool: &[u32],
    names: usize,
    name: &[u8],
    index: &[u16],
) -> Result<Option<usize>, BadPair>
    ensures { 2 * names ≤ length pool.now → MaybeIndexed output.now pool.now names index.now → found_of result ≡ searched output.now names pool.now name.now }
{
    if names == 0 {
        return Ok(None);
    }
    if pool.len() / 2 < names {
        return Err(BadPair);
    }
    if index.len() == 81_920 {
        return search_index(output, pool, names, name, index);
    }
    search_pool(output, pool, names, name)
}
