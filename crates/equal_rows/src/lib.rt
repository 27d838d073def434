// Which rows of eight words are equal.
#![tactic(auto)]

ghost use Rattle.std.specs.Prelude.{◌≡◌, get_or};
ghost use Rattle.event.specs.Row.{row_at, same_value, same_row, equal_rows};
ghost use Rattle.event.specs.Span.{value_in};

use equal_bytes::same_bytes;
use event::stores::{Span, Stores};
use event::{Shape, has_name, shape_of};

// A row beside the stores that its spans name.
#[derive(Clone, Copy)]
struct Row<'a> {
    stores: Stores<'a>,
    words: &'a [u32; 8],
}

impl<'a> Row<'a> {
    // The bytes of its name; none where its kind has no name.
    #[tactic(auto, unfolding(event::specs::Row::row_at))]
    fn name(self) -> &'a [u8]
        ensures { result.now ≡ (row_at self.entry.stores.first.now self.entry.stores.second.now self.entry.words.now).name }
    {
        if has_name(self.words[0]) {
            self.stores.span(Span::of_name(self.words))
        } else {
            &self.stores.first[..0]
        }
    }

    // The bytes of its value, as a span.
    fn value(self) -> &'a [u8]
        ensures { result.now ≡ value_in self.entry.stores.first.now self.entry.stores.second.now self.entry.words.now }
    {
        self.stores.span(Span::of_value(self.words))
    }
}

// Whether the values of two rows of one type are equal.
#[tactic(auto, unfolding(event::specs::Row::row_at, event::specs::Row::value_at, event::specs::Row::same_value))]
fn same_value<'a>(a: Row<'a>, b: Row<'a>) -> bool
    requires { get_or a.words.now 4 0 ≡ get_or b.words.now 4 0 }
    ensures { result ≡ same_value (row_at a.entry.stores.first.now a.entry.stores.second.now a.entry.words.now).value (row_at b.entry.stores.first.now b.entry.stores.second.now b.entry.words.now).value }
{
    match shape_of(a.words[4]) {
        Shape::String | Shape::Blob => same_bytes(a.value(), b.value()),
        Shape::Word => a.words[7] == b.words[7],
        Shape::Pair => a.words[6] == b.words[6] && a.words[7] == b.words[7],
        Shape::Nothing | Shape::Interned | Shape::Unknown => true,
    }
}

// Whether two rows are equal, each with its own stores: the first eight words of w and of v. Fewer words are no row, and
// equal to none.
#[tactic(auto, unfolding(event::specs::Row::equal_rows, event::specs::Row::same_row, event::specs::Row::row_at))]
pub fn same_row<'a>(
    first: &'a [u8],
    second: &'a [u8],
    w: &[u32],
    other_first: &'a [u8],
    other_second: &'a [u8],
    v: &[u32],
) -> bool
    ensures { result ≡ equal_rows first.now second.now w.now other_first.now other_second.now v.now }
{
    let (Some(words), Some(other_words)) = (w.first_chunk::<8>(), v.first_chunk::<8>()) else {
        return false;
    };
    let a = Row {
        stores: Stores { first, second },
        words,
    };
    let b = Row {
        stores: Stores {
            first: other_first,
            second: other_second,
        },
        words: other_words,
    };
    words[0] == other_words[0]
        && words[4] == other_words[4]
        && same_bytes(a.name(), b.name())
        && same_value(a, b)
}
