// Counts over the tables of a session.
ghost use Rattle.std.specs.Prelude.{◌≡◌, ◌≤◌, map, sum_by, count_by};
ghost use Rattle.std.specs.Option.{option_map};
ghost use Rattle.terms.specs.Tables.{entries};
ghost use Rattle.terms.specs.Strategies.{legs_of};
ghost use Rattle.session.specs.Steps.{strategy_at};
ghost use Rattle.session.specs.Rows.{counted, resting};

use terms::auction::{AuctionRow, Stage};
use terms::order::Order;
use terms::side::Side;
use terms::strategy::Strategy;
use terms::table::Table;

// Which auctions to count: all that are due, or those of a strategy that are running or due. A
// value and no test of the caller's own, for these three are all that a session tells.
#[derive(Clone, Copy)]
pub enum Standing {
    Due,
    DueIn(u32),
    RunningIn(u32),
}

impl Standing {
    // Whether this row of the table is counted.
    pub fn counts(self, row: &Option<AuctionRow>) -> bool
        ensures { result ≡ counted self row.now }
    {
        let Some(auction) = row else {
            return false;
        };
        let running = matches!(auction.stage, Stage::Running);
        match self {
            Standing::Due => !running,
            Standing::DueIn(strategy) => !running && auction.strategy == strategy,
            Standing::RunningIn(strategy) => running && auction.strategy == strategy,
        }
    }
}

// How many auctions of the table are counted.
pub fn tally(rows: &[Option<AuctionRow>; 8], which: Standing) -> u32
    ensures value { result ≡ count_by (counted which) rows.now }
    ensures bound { result ≤ 8 }
{
    rows.iter().filter(|row| which.counts(row)).count() as u32
}

// The contracts of an order, if it rests in this strategy and on this side.
fn contracts(order: &Order, strategy: u32, side: Side) -> u64
    ensures value { result ≡ resting strategy side order.now }
    ensures bound { result ≤ 4294967295 }
{
    if order.strategy == strategy && order.side == side {
        u64::from(order.size)
    } else {
        0
    }
}

// The contracts resting in a strategy on one side.
pub fn contracts_resting(orders: &Table<Order, 64>, strategy: u32, side: Side) -> u64
    ensures { result ≡ sum_by (resting strategy side) (entries orders.now) }
{
    orders
        .entries()
        .iter()
        .map(|order| contracts(order, strategy, side))
        .sum()
}

// The strategy of this number, from 1, among those listed.
pub(crate) fn strategy_at(listed: &Table<Strategy, 8>, number: u32) -> Option<Strategy>
    ensures { option_map legs_of result ≡ strategy_at (map legs_of (entries listed.now)) number }
{
    let index = number.checked_sub(1)?;
    listed.entries().get(index as usize).copied()
}
