// The four queries over plain parameters: event after event from a place on, until what is asked for was found or no more is to be
// read. The rows that a query writes follow each other from the first word on.
#![tactic(auto)]

ghost use Rattle.std.specs.Prelude.{List, ◌≡◌, ℕ, ◌≤◌};
ghost use Rattle.scanner.specs.Select.{query_of, turn_of};
ghost use Rattle.slice_spec.specs.Queries.{Left, query, find-attribute, attributes-of, find-all-attributes, all-attributes-of};
ghost use Rattle.slice.specs.Answers.{place_of, reached_of, left_of};
ghost use Rattle.slice.specs.Going.{Addable, passed_of, step_by, Going};

use query_steps::{after, is_over, told};
use scanner::select;
use scanner::select::{Picked, Query};
use slice::Place;
use slice::queries::{End, Passed, Queried, Reached, Stopped};
use wire::Refusal;

// What comes of what was picked.
#[tactic(auto, unfolding(slice::specs::Going::step_by))]
fn pass(wanted: Query, reached: Reached, picked: Result<Option<Picked>, Refusal>) -> Passed
    requires { Addable reached picked }
    ensures { (element name table rows table' rows' : List ℕ) → passed_of table' rows' result ≡ step_by (query_of wanted element name) (turn_of (reached_of table rows reached) table' rows' picked) }
{
    match picked {
        Ok(Some(event)) => Passed {
            end: Ok(after(wanted, event.kind, event.rows)),
            reached: Reached {
                place: Place {
                    at: reached.place.at + event.len,
                    names: reached.place.names + event.added,
                },
                events: reached.events + 1,
                rows: reached.rows + event.rows,
            },
        },
        Ok(None) => Passed {
            end: Ok(Some(End::Done)),
            reached,
        },
        Err(refusal) => Passed {
            end: Err(refusal),
            reached,
        },
    }
}

// The rest of a query, from an event that is to be counted. Counting takes a large frame, which is entered here and once: one loop that enters
// it at each such event takes three times as long where the rows left are few.
#[inline(never)]
fn ask_on(
    wanted: Query,
    start: Reached,
    document: &[u8],
    pool: &mut [u32],
    rows: &mut [u32],
    element: &[u8],
    name: &[u8],
) -> Result<Queried, Stopped>
    requires { start.events ≤ start.place.at }
    ensures { (answer : Left) → Going (query_of wanted element.now name.now) document.now answer (reached_of pool.old rows.old start) → left_of pool.new rows.new result ≡ answer }
{
    let mut reached = start;
    loop {
        let Place { at, names } = reached.place;
        let picked = select::pick(
            wanted,
            element,
            name,
            document,
            at,
            names,
            pool,
            rows,
            reached.rows,
        );
        let passed = pass(wanted, reached, picked);
        if is_over(passed.end) {
            return told(passed);
        }
        reached = passed.reached;
    }
}

// Any of the four. Each turn makes the checks of a call, so a bad size or place is refused at the first; later the place lies in the
// document. A query without an attribute's name does not look at the one that is lent.
pub fn query(
    wanted: Query,
    place: Place,
    document: &[u8],
    pool: &mut [u32],
    rows: &mut [u32],
    element: &[u8],
    name: &[u8],
) -> Result<Queried, Stopped>
    ensures { left_of pool.new rows.new result ≡ query (query_of wanted element.now name.now) (place_of place) document.now pool.old rows.old }
{
    let mut reached = Reached {
        place,
        events: 0,
        rows: 0,
    };
    loop {
        let Place { at, names } = reached.place;
        let Some(picked) = select::pick_uncounted(
            wanted,
            element,
            name,
            document,
            at,
            names,
            pool,
            rows,
            reached.rows,
        ) else {
            return ask_on(wanted, reached, document, pool, rows, element, name);
        };
        let passed = pass(wanted, reached, picked);
        if is_over(passed.end) {
            return told(passed);
        }
        reached = passed.reached;
    }
}

// The first attribute of this name on the next element of that name that has it.
pub fn find_attribute(
    place: Place,
    document: &[u8],
    pool: &mut [u32],
    rows: &mut [u32],
    element: &[u8],
    name: &[u8],
) -> Result<Queried, Stopped>
    ensures { left_of pool.new rows.new result ≡ query (find-attribute element.now name.now) (place_of place) document.now pool.old rows.old }
{
    query(
        Query::FindAttribute,
        place,
        document,
        pool,
        rows,
        element,
        name,
    )
}

// The next element of this name: its row, and the rows of its attributes.
pub fn attributes_of(
    place: Place,
    document: &[u8],
    pool: &mut [u32],
    rows: &mut [u32],
    element: &[u8],
) -> Result<Queried, Stopped>
    ensures { left_of pool.new rows.new result ≡ query (attributes-of element.now) (place_of place) document.now pool.old rows.old }
{
    query(
        Query::AttributesOf,
        place,
        document,
        pool,
        rows,
        element,
        b"",
    )
}

// Every attribute of this name on every element of that name, to the end of the input.
pub fn find_all_attributes(
    place: Place,
    document: &[u8],
    pool: &mut [u32],
    rows: &mut [u32],
    element: &[u8],
    name: &[u8],
) -> Result<Queried, Stopped>
    ensures { left_of pool.new rows.new result ≡ query (find-all-attributes element.now name.now) (place_of place) document.now pool.old rows.old }
{
    query(
        Query::FindAllAttributes,
        place,
        document,
        pool,
        rows,
        element,
        name,
    )
}

// Every element of this name, its row and the rows of its attributes, to the end of the input.
pub fn all_attributes_of(
    place: Place,
    document: &[u8],
    pool: &mut [u32],
    rows: &mut [u32],
    element: &[u8],
) -> Result<Queried, Stopped>
    ensures { left_of pool.new rows.new result ≡ query (all-attributes-of element.now) (place_of place) document.now pool.old rows.old }
{
    query(
        Query::AllAttributesOf,
        place,
        document,
        pool,
        rows,
        element,
        b"",
    )
}
