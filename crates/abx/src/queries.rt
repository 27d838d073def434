// The four queries of the slice reader. An answer is seven words, and is written where there is room for seven: 0 where it was
// found, 1 where no more is to be read, 2 where the query was refused; the place and the names; the events consumed; the rows
// written; and a refusal's number and detail.
ghost use Rattle.slice_spec.specs.Queries.{query, find-attribute, attributes-of, find-all-attributes, all-attributes-of};
ghost use Rattle.abx_words.specs.QueryWords.{QueryLeft};

use slice::Place;

// The first attribute of this name on the next element of that name that has it.
pub fn abx_find_attribute(
    at: usize,
    names: usize,
    document: &[u8],
    pool: &mut [u32],
    rows: &mut [u32],
    element: &[u8],
    name: &[u8],
    answer: &mut [usize],
)
    ensures { QueryLeft answer.old answer.new pool.new rows.new (query (find-attribute element.now name.now) (record { at = at; names = names }) document.now pool.old rows.old) }
{
    let place = Place { at, names };
    slice_words::queries::tell(
        answer,
        slice_queries::find_attribute(place, document, pool, rows, element, name),
    )
}

// The next element of this name, with its attributes.
pub fn abx_attributes_of(
    at: usize,
    names: usize,
    document: &[u8],
    pool: &mut [u32],
    rows: &mut [u32],
    element: &[u8],
    answer: &mut [usize],
)
    ensures { QueryLeft answer.old answer.new pool.new rows.new (query (attributes-of element.now) (record { at = at; names = names }) document.now pool.old rows.old) }
{
    let place = Place { at, names };
    slice_words::queries::tell(
        answer,
        slice_queries::attributes_of(place, document, pool, rows, element),
    )
}

// Every attribute of this name on every element of that name.
pub fn abx_find_all_attributes(
    at: usize,
    names: usize,
    document: &[u8],
    pool: &mut [u32],
    rows: &mut [u32],
    element: &[u8],
    name: &[u8],
    answer: &mut [usize],
)
    ensures { QueryLeft answer.old answer.new pool.new rows.new (query (find-all-attributes element.now name.now) (record { at = at; names = names }) document.now pool.old rows.old) }
{
    let place = Place { at, names };
    slice_words::queries::tell(
        answer,
        slice_queries::find_all_attributes(place, document, pool, rows, element, name),
    )
}

// Every element of this name, with its attributes.
pub fn abx_all_attributes_of(
    at: usize,
    names: usize,
    document: &[u8],
    pool: &mut [u32],
    rows: &mut [u32],
    element: &[u8],
    answer: &mut [usize],
)
    ensures { QueryLeft answer.old answer.new pool.new rows.new (query (all-attributes-of element.now) (record { at = at; names = names }) document.now pool.old rows.old) }
{
    let place = Place { at, names };
    slice_words::queries::tell(
        answer,
        slice_queries::all_attributes_of(place, document, pool, rows, element),
    )
}
