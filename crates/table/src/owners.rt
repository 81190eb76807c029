//! The owners of turns.

ghost use Rattle.std.specs.Prelude.{◌≡◌, length};

// An array of options: the rules fix the memory, and a turn is found by its number.
/// The owner of each of the 128 turns, a party, or none.
#[derive(Clone, Copy)]
pub struct Owners {
    pub(crate) turns: [Option<u8>; 128],
    ghost whole: { length turns ≡ 128 },
}
