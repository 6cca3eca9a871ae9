// A strategy: 2 to 4 legs on different components, each in range, and no other value exists.
ghost use Rattle.std.specs.Prelude.{◌≡◌, ◌≤◌, true, take};
ghost use Rattle.terms.specs.Legs.{well_formed};

use crate::leg::Leg;

mod made;

// The legs lie in the value itself, the first `count` of four places, for a strategy can be copied.
#[derive(Clone, Copy)]
pub struct Strategy {
    legs: [Leg; 4],
    count: usize,
    ghost few: { count ≤ 4 },
    ghost ok: { well_formed (take count legs) ≡ true },
}
