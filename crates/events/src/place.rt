// Where reading stands: the next character, whether the disparity is +1, and a reader's state that keeps its rule.
ghost use Rattle.std.specs.Prelude.{◌≡◌, true};
ghost use Rattle.packet_rules.specs.State.{well_formed};

use packet_rules::Reader;

#[derive(Clone, Copy)]
pub struct Place {
    pub at: usize,
    pub plus: bool,
    pub reader: Reader,
    ghost rule: { well_formed reader ≡ true },
}
