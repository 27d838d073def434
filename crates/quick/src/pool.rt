// The pool of names that an event may name by index.
ghost use Rattle.std.specs.Prelude.{◌*◌, ◌≤◌, length};

// So many entries of the table are names. Their spans must end in a store of so many bytes, and their words have this source.
#[derive(Clone, Copy)]
pub(crate) struct Pool<'a> {
    pub(crate) table: &'a [u32],
    pub(crate) names: usize,
    pub(crate) stored: usize,
    pub(crate) source: u32,
    ghost names_in_table: { 2 * names ≤ length table.now },
}
