// A number with a detail that no refusal has.
ghost use Rattle.std.specs.Prelude.{◌≡◌, false};
ghost use Rattle.wire.specs.Refusal.{is_named};

#[derive(Clone, Copy, Debug, PartialEq, Eq)]
pub struct Unnamed {
    pub number: u32,
    pub detail: u32,
    pub ghost unnamed: { is_named number detail ≡ false },
}
