// The pool of names that an event may name by index.
ghost use Rattle.std.specs.Prelude.{◌*◌, ◌≤◌, length};

// So many entries of the table are names, whose spans must end in a store of so many bytes.
#[derive(Clone, Copy)]
pub(crate) struct Pool<'a> {
    pub(crate) table: &'a [u32],
    pub(crate) kept: usize,
    pub(crate) stored: usize,
    ghost kept_in_table: { 2 * kept ≤ length table.now },
}
