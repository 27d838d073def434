// The scanner of both readers: the step that reads an event in two passes, the first of which measures (crate extent) and the second, in
// module fill, keeps names and writes rows, after the quick way of crate quick was tried. Module select takes the rows of an event that a
// query asks for. A place is counted from the event's first byte, where the slice starts.
#![tactic(auto)]

mod fill;
pub mod select;

ghost use Rattle.std.specs.Prelude.{◌≡◌};
ghost use Rattle.quick_step.specs.Step.{step};
ghost use Rattle.scanner.specs.Step.{Placed, read_by, step_of};

use fill::{Home, Kept};
use wire::Refusal;

// ---- one event

// An event of so many rows and bytes, which adds so many names of so many bytes to the pool.
#[derive(Clone, Copy, Debug, PartialEq, Eq)]
pub struct Event {
    pub rows: usize,
    pub len: usize,
    pub added: usize,
    pub bytes: usize,
}

// The two passes over the event that stands in s.
fn read(
    s: &[u8],
    finished: bool,
    home: Home,
    kept: Kept,
    stored: usize,
    table: &mut [u32],
    store: &mut [u8],
    rows: &mut [u32],
) -> Result<Option<Event>, Refusal>
    requires { Placed home.base home.copied kept.names kept.used stored s.now table.old store.old }
    ensures { step_of table.new store.new rows.new result ≡ read_by finished home.copied home.base kept.names kept.used s.now table.old store.old rows.old }
{
    let m = extent::measure(s, finished, kept.names, stored, table);
    let Some(len) = m.outcome? else {
        return Ok(None);
    };
    if rows.len() / 8 < m.rows {
        return Err(Refusal::RowsFull);
    }
    if table.len() / 2 - kept.names < m.added {
        return Err(Refusal::PoolFull);
    }
    if home.copied && store.len() - kept.used < m.bytes {
        return Err(Refusal::NamesFull);
    }
    fill::fill(s, 0, home, table, store, kept, rows);
    Ok(Some(Event {
        rows: m.rows,
        len,
        added: m.added,
        bytes: m.bytes,
    }))
}

// ---- the step: what it checks first, the quick way, the two passes

// The step below by the two passes alone.
pub fn step_read(
    s: &[u8],
    base: usize,
    finished: bool,
    copied: bool,
    names: usize,
    used: usize,
    table: &mut [u32],
    store: &mut [u8],
    rows: &mut [u32],
) -> Result<Option<Event>, Refusal>
    ensures { step_of table.new store.new rows.new result ≡ step s.now base finished copied names used table.old store.old rows.old }
{
    let stored = quick_step::check(base, s.len(), copied, store.len(), table.len(), names, used)?;
    read(
        s,
        finished,
        Home { base, copied },
        Kept { names, used },
        stored,
        table,
        store,
        rows,
    )
}

// The event that stands in s, read and, where there is room, written. s lies in its store from base on. Where names are
// copied, they go to the name store, of which so many bytes are used; else they stay in the store of s, and the name store is
// not looked at.
pub fn step(
    s: &[u8],
    base: usize,
    finished: bool,
    copied: bool,
    names: usize,
    used: usize,
    table: &mut [u32],
    store: &mut [u8],
    rows: &mut [u32],
) -> Result<Option<Event>, Refusal>
    ensures { step_of table.new store.new rows.new result ≡ step s.now base finished copied names used table.old store.old rows.old }
{
    match quick_step::step_quickly(s, base, copied, names, used, table, store, rows) {
        Some(taken) => Ok(Some(Event {
            rows: taken.rows,
            len: taken.len,
            added: 0,
            bytes: 0,
        })),
        None => step_read(s, base, finished, copied, names, used, table, store, rows),
    }
}
