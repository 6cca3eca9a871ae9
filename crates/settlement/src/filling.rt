// The fills of a settlement as they are written, and the contracts that remain.
ghost use Rattle.std.specs.Prelude.{◌≤◌};

use arrayvec::ArrayVec;
use ranked::fill::Fill;

// So many fills a settlement may write: two for each of 128 items, and one at the stop.
pub(crate) const MOST_FILLS: usize = 257;

pub(crate) type Fills = ArrayVec<Fill, MOST_FILLS>;

#[derive(Drop)]
pub(crate) struct Filling {
    pub(crate) fills: Fills,
    pub(crate) left: u32,
    ghost most: { left ≤ 100000 },
}

impl Filling {
    ghost use Rattle.std.specs.Prelude.{◌≡◌, ◌+◌, [], ◌++◌};
    ghost use Rattle.allocation.specs.Fillings.{unless_empty};
    ghost use Rattle.settlement.specs.Writes.{HasRoom};

    // Nothing is filled yet of so many contracts.
    pub(crate) fn new(size: u32) -> Filling
        requires { size ≤ 100000 }
        ensures left { result.left ≡ size }
        ensures empty { result.fills.items ≡ [] }
    {
        Filling {
            fills: ArrayVec::new(),
            left: size,
        }
    }

    // Takes the contracts of a fill, and writes it, unless its size is 0. Enough contracts and room
    // are asked, here and where fills are given: they hold of a fill beside those written, and are no
    // facts of one value.
    pub(crate) fn fill(&mut self, fill: Fill)
        requires enough { fill.size ≤ self.old.left }
        requires room { HasRoom (unless_empty fill) self.old.fills.items }
        ensures left { self.new.left + fill.size ≡ self.old.left }
        ensures after { self.new.fills.items ≡ self.old.fills.items ++ unless_empty fill }
    {
        if fill.size == 0 {
            return;
        }
        self.left -= fill.size;
        self.fills.push(fill);
    }
}
