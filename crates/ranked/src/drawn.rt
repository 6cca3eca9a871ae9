// Records that hold contracts, and drawing contracts from the front of a list of them.
ghost use Rattle.std.specs.Prelude.{◌≡◌, ℕ, ◌-◌, ◌≤◌, min};
ghost use Rattle.ranked.specs.Draws.{Drawing, drawn};

use crate::rank::Ranked;

pub trait Drawn: Ranked {
    ghost contracts: { Self → ℕ };

    // what is left of a record where so many contracts were taken
    ghost reduced: { Self → ℕ → Self };

    fn contracts(&self) -> u32
        ensures { result ≡ contracts self.now };

    // Takes so many contracts, or all it has, and answers how many it took.
    fn take(&mut self, most: u32) -> u32
        ensures taken { result ≡ min most (contracts self.old) }
        ensures after { self.new ≡ reduced self.old result };

    ghost left: { (x : Self) (k : ℕ) → k ≤ contracts x → contracts (reduced x k) ≡ contracts x - k };

    // to be drawn from changes no rank
    ghost ranked: { (x : Self) (k : ℕ) → Self.Ranked.rank (reduced x k) ≡ Self.Ranked.rank x };
}

// Draws from one record, and answers what is then left.
fn draw_one<T: Drawn>(item: &mut T, left: u32) -> u32
    ensures value { result ≡ left - min left (T.Drawn.contracts item.old) }
    ensures after { item.new ≡ T.Drawn.reduced item.old (min left (T.Drawn.contracts item.old)) }
{
    left - item.take(left)
}

// Draws from each record in turn, and answers what is left of q.
fn draw_in_turn<T: Drawn>(records: &mut [T], q: u32) -> u32
    ensures after { records.new ≡ drawn T.Drawn.contracts T.Drawn.reduced q records.old }
    ensures drawing { Drawing T.Ranked.rank T.Ranked.before T.Drawn.contracts records.old q (q - result) records.new }
    ensures bound { result ≤ q }
{
    let mut left = q;
    for item in records.iter_mut() {
        left = draw_one(item, left);
    }
    left
}

// Draws up to q contracts from the front and answers how many were drawn. Each record gives the
// lesser of its contracts and what is left, and an emptied one stays in its place.
pub fn draw<T: Drawn>(records: &mut [T], q: u32) -> u32
    ensures after { records.new ≡ drawn T.Drawn.contracts T.Drawn.reduced q records.old }
    ensures drawing { Drawing T.Ranked.rank T.Ranked.before T.Drawn.contracts records.old q result records.new }
{
    q - draw_in_turn(records, q)
}
