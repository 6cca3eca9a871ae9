// Awards in rank order, one step for each size.
ghost use Rattle.std.specs.Prelude.{◌≡◌, ℕ, ◌≤◌, ◌++◌, length, drop};
ghost use Rattle.share.specs.Turns.{Steps, awarded};

// A step takes a size and what is left, and gives the award and what is left then. The awards are
// written by place, for of a list whose `iter_mut` is zipped nothing is known after the loop. A place
// for each size is asked: it holds of two lists, and is no fact of one value.
pub(crate) fn award_in_turn<F: Fn(u32, u32) -> (u32, u32)>(
    sizes: &[u32],
    q: u32,
    step: F,
    given: &mut [u32],
)
    requires always { F.IsAlwaysCallable step }
    requires room { length sizes.now ≤ length given.old }
    ensures { (s : ℕ → ℕ → ℕ × ℕ) → Steps (F.post step) s → given.new ≡ awarded s q sizes.now ++ drop (length sizes.now) given.old }
{
    let mut left = q;
    for (place, &size) in sizes.iter().enumerate() {
        let (award, rest) = step(size, left);
        given[place] = award;
        left = rest;
    }
}
