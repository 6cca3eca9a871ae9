// What an auction says of itself, its prices as a buyer sees them.
ghost use Rattle.std.specs.Prelude.{◌≡◌, ◌≤◌, pos, negsuc, ◌≤ℤ◌, IfSome, FitsSigned};
ghost use Rattle.std.specs.Int.{w32};
ghost use Rattle.auction.specs.Orientation.{as_buyer};
ghost use Rattle.auction.specs.Records.{cap_at, last_priority, level_of, matches_at, stop_of, within_stop};
ghost use Rattle.auction.specs.Sizes.{guarantee_of};

use super::Auction;
use crate::agency::as_buyer;
use crate::size;
use terms::auction::Mode;
use terms::side::Side;

impl Auction {
    // The stop as a buyer sees it.
    pub fn stop(&self) -> i32
        ensures value { result ≡ stop_of self.now.row }
        ensures low { negsuc 31999999 ≤ℤ result }
        ensures high { result ≤ℤ pos 32000000 }
    {
        as_buyer(self.row.side, self.row.stop) as i32
    }

    // The cap as a buyer sees it.
    fn cap(&self) -> Option<i32>
        ensures { result ≡ cap_at self.now.row }
    {
        self.row.cap.map(|cap| as_buyer(self.row.side, cap) as i32)
    }

    // A price of contra interest as a buyer sees it, if that is at or below the stop.
    pub fn within_stop(&self, price: i32) -> Option<i32>
        ensures value { result ≡ within_stop self.now.row price }
        ensures fits { IfSome result (λ p. FitsSigned w32 (as_buyer self.now.row.side p)) }
    {
        let seen = as_buyer(self.row.side, price);
        if seen <= i64::from(self.stop()) {
            Some(seen as i32)
        } else {
            None
        }
    }

    // The level at which interest of this price trades, both as a buyer sees them: the price, or
    // the cap if that is greater.
    pub fn level(&self, price: i32) -> i32
        ensures { result ≡ level_of self.now.row price }
    {
        self.cap().map_or(price, |cap| price.max(cap))
    }

    // Whether the Initiating Order matches others at this level, as a buyer sees it.
    pub fn matches(&self, level: i32) -> bool
        ensures { result ≡ matches_at self.now.row level }
    {
        match self.row.mode {
            Mode::Single | Mode::LastPriority => false,
            Mode::MatchAll => true,
            Mode::MatchTo(limit) => as_buyer(self.row.side, limit) <= i64::from(level),
        }
    }

    // Whether the Initiating Order has last priority.
    fn last_priority(&self) -> bool
        ensures { result ≡ last_priority self.now.row.mode }
    {
        matches!(self.row.mode, Mode::LastPriority)
    }

    // What the Initiating Order is guaranteed where so many contracts are left after customers
    // and so many groups are there.
    pub fn guarantee(&self, left: u32, groups: usize) -> u32
        ensures value { result ≡ guarantee_of (last_priority self.now.row.mode) left groups }
        ensures most { result ≤ left }
    {
        size::guarantee(self.last_priority(), left, groups)
    }

    pub fn side(&self) -> Side
        ensures { result ≡ self.now.row.side }
    {
        self.row.side
    }

    pub fn id(&self) -> u32
        ensures { result ≡ self.now.row.id }
    {
        self.row.id
    }

    pub fn user(&self) -> u32
        ensures { result ≡ self.now.row.user }
    {
        self.row.user
    }

    pub fn strategy(&self) -> u32
        ensures { result ≡ self.now.row.strategy }
    {
        self.row.strategy
    }

    pub fn size(&self) -> u32
        ensures value { result ≡ self.now.row.size }
        ensures range { (1 ≤ result) × (result ≤ 100000) }
    {
        self.row.size
    }
}
