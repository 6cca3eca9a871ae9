// The Agency Order's side, capacity and stop price, against the prices that it must respect.
ghost use Rattle.std.specs.Prelude.{◌≡◌, if◌then◌else◌, int_le, int_lt};
ghost use Rattle.auction.specs.Caps.{unless_failed};
ghost use Rattle.auction.specs.Orientation.{as_buyer, seen};
ghost use Rattle.auction.specs.Stops.{failed_clause, meets_bid, meets_offer, meets_orders};

use terms::refusal::Clause;
use terms::side::Side;
use terms::synthetic::Synthetic;

mod opening;

#[derive(Clone, Copy)]
pub struct Agency {
    pub side: Side,
    pub customer: bool,
    pub stop: i32,
}

// The prices that a stop must respect, as they stand: the best bid and offer, and the best resting
// order of the Agency Order's side.
#[derive(Clone, Copy)]
pub struct Quotes {
    pub bid: Option<Synthetic>,
    pub best: Option<Synthetic>,
    pub offer: Option<Synthetic>,
}

// A price as a buyer sees it: negated for a seller. In 64 bits nothing is lost.
pub fn as_buyer(side: Side, price: i32) -> i64
    ensures { result ≡ as_buyer side price }
{
    match side {
        Side::Buy => i64::from(price),
        Side::Sell => -i64::from(price),
    }
}

// Whether one price is below another, as a buyer sees them, or at it where they need not be apart. A
// flag, for whether they must be apart is a fact of the quotes.
fn in_order(low: i64, high: i64, apart: bool) -> bool
    ensures { result ≡ (if apart then int_lt low high else int_le low high) }
{
    if apart { low < high } else { low <= high }
}

impl Agency {
    // The stop as a buyer sees it.
    fn seen_stop(self) -> i64
        ensures { result ≡ as_buyer self.side self.stop }
    {
        as_buyer(self.side, self.stop)
    }

    // Whether the stop is at or above the bid, and above it if a customer is there.
    pub fn meets_bid(self, bid: Option<Synthetic>) -> bool
        ensures { result ≡ meets_bid (as_buyer self.side self.stop) (seen self.side bid) }
    {
        bid.is_none_or(|bid| {
            in_order(
                as_buyer(self.side, bid.price),
                self.seen_stop(),
                bid.customer,
            )
        })
    }

    // Whether the stop is above the best resting order of its side, or at it if the Agency Order
    // is a customer's and no customer is there.
    pub fn meets_orders(self, best: Option<Synthetic>) -> bool
        ensures { result ≡ meets_orders (as_buyer self.side self.stop) self.customer (seen self.side best) }
    {
        best.is_none_or(|best| {
            in_order(
                as_buyer(self.side, best.price),
                self.seen_stop(),
                !self.customer || best.customer,
            )
        })
    }

    // Whether the stop is at or below the offer, and below it if a customer is there.
    pub fn meets_offer(self, offer: Option<Synthetic>) -> bool
        ensures { result ≡ meets_offer (as_buyer self.side self.stop) (seen self.side offer) }
    {
        offer.is_none_or(|offer| {
            in_order(
                self.seen_stop(),
                as_buyer(self.side, offer.price),
                offer.customer,
            )
        })
    }

    // That the stop meets every clause, or the first clause that it fails. A call of its own would cost
    // more than the tests.
    #[inline(always)]
    fn met(self, quotes: Quotes) -> Result<(), Clause>
        ensures { result ≡ unless_failed (failed_clause (as_buyer self.side self.stop) self.customer (seen self.side quotes.bid) (seen self.side quotes.best) (seen self.side quotes.offer)) tt }
    {
        if !self.meets_bid(quotes.bid) {
            return Err(Clause::Bid);
        }
        if !self.meets_orders(quotes.best) {
            return Err(Clause::Orders);
        }
        if !self.meets_offer(quotes.offer) {
            return Err(Clause::Offer);
        }
        Ok(())
    }

    // The first clause that the stop fails.
    pub fn failed(self, quotes: Quotes) -> Option<Clause>
        ensures { result ≡ failed_clause (as_buyer self.side self.stop) self.customer (seen self.side quotes.bid) (seen self.side quotes.best) (seen self.side quotes.offer) }
    {
        self.met(quotes).err()
    }
}
