// A simple price, in whole cents: 1 to 999,999, and no other value exists.
ghost use Rattle.std.specs.Prelude.{◌≡◌, true};
ghost use Rattle.terms.specs.Ranges.{simple_price};

mod made;

#[derive(Clone, Copy, PartialEq, Eq, PartialOrd, Ord, Debug)]
pub struct Price {
    cents: u32,
    ghost range: { simple_price cents ≡ true },
}
