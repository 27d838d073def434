// The slice reader: it reads a document that lies in one slice, event by event. Its state is a place; the document, the pool
// table and the rows are lent to each call.
#![tactic(auto)]

pub mod queries;

ghost use Rattle.std.specs.Prelude.{◌≡◌};
ghost use Rattle.slice_spec.specs.Slice.{create, next_from, next};
ghost use Rattle.slice_spec.specs.Bounds.{Fits};
ghost use Rattle.slice.specs.Answers.{place_of, created_of, next_of};

use wire::Refusal;

// Where the next event starts in the document, and how many pairs of the pool table are names.
#[derive(Clone, Copy, Debug, PartialEq, Eq)]
pub struct Place {
    pub at: usize,
    pub names: usize,
}

// An event of so many rows, and the place after it.
#[derive(Clone, Copy, Debug, PartialEq, Eq)]
pub struct Event {
    pub rows: usize,
    pub place: Place,
}

// A reader of the document, past its header.
#[tactic(auto, unfolding(slice_spec::specs::Slice::create))]
pub fn create(document: &[u8], pool: &[u32]) -> Result<Place, Refusal>
    ensures { created_of result ≡ create document.now pool.now }
{
    if slice_bounds::sizes_bad(document, pool) {
        return Err(Refusal::BadSize);
    }
    header::check_magic(document)?;
    Ok(Place { at: 4, names: 0 })
}

// The event at a place that lies in the document, by the two passes. Its new names stay where they are, so there is no name store.
fn next_read(
    place: Place,
    document: &[u8],
    pool: &mut [u32],
    rows: &mut [u32],
) -> Result<Option<Event>, Refusal>
    requires { Fits (place_of place) document.now pool.old }
    ensures { next_of place pool.new rows.new result ≡ next_from (place_of place) document.now pool.old rows.old }
{
    let Place { at, names } = place;
    if at == document.len() {
        return Ok(None);
    }
    let mut store = [0u8; 1];
    match scanner::step_read(
        &document[at..],
        at,
        true,
        false,
        names,
        0,
        pool,
        &mut store,
        rows,
    )? {
        Some(read) => Ok(Some(Event {
            rows: read.rows,
            place: Place {
                at: at + read.len,
                names: names + read.added,
            },
        })),
        None => Ok(None),
    }
}

// The same, the quick way first: most events take it.
fn next_from(
    place: Place,
    document: &[u8],
    pool: &mut [u32],
    rows: &mut [u32],
) -> Result<Option<Event>, Refusal>
    requires { Fits (place_of place) document.now pool.old }
    ensures { next_of place pool.new rows.new result ≡ next_from (place_of place) document.now pool.old rows.old }
{
    let Place { at, names } = place;
    match quick_step::step_quickly(&document[at..], at, false, names, 0, pool, document, rows) {
        Some(taken) => Ok(Some(Event {
            rows: taken.rows,
            place: Place {
                at: at + taken.len,
                names,
            },
        })),
        None => next_read(place, document, pool, rows),
    }
}

// The next event, its rows written from the first word on and its new names to the pool; or the end.
#[tactic(auto, using(slice_spec::proofs::Bounds::fits), unfolding(slice_spec::specs::Slice::next))]
pub fn next_event(
    place: Place,
    document: &[u8],
    pool: &mut [u32],
    rows: &mut [u32],
) -> Result<Option<Event>, Refusal>
    ensures { next_of place pool.new rows.new result ≡ next (place_of place) document.now pool.old rows.old }
{
    if slice_bounds::sizes_bad(document, pool) {
        return Err(Refusal::BadSize);
    }
    if slice_bounds::place_bad(place.at, place.names, document, pool) {
        return Err(Refusal::BadState);
    }
    next_from(place, document, pool, rows)
}
