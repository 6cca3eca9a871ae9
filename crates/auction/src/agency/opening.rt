// The cap at which an auction may start, and that the stop is at or above it.
ghost use Rattle.std.specs.Prelude.{◌≡◌, true, ◌≤ℤ◌, IfSome, IfOk, FitsSigned};
ghost use Rattle.std.specs.Int.{w32};
ghost use Rattle.std.specs.Option.{option_map};
ghost use Rattle.auction.specs.Caps.{cap_fits, cap_of, greater, opening_of, raised};
ghost use Rattle.auction.specs.Orientation.{as_buyer, least, seen};

use super::{Agency, Quotes, as_buyer};
use terms::refusal::Clause;
use terms::side::Side;
use terms::synthetic::Synthetic;

// A price as a buyer sees it, 1 higher if a customer is there.
fn raised(side: Side, quote: Option<Synthetic>) -> Option<i64>
    ensures value { result ≡ option_map raised (seen side quote) }
    ensures low { IfSome result (λ p. least side ≤ℤ p) }
{
    quote.map(|quote| as_buyer(side, quote.price) + i64::from(quote.customer))
}

// The greater of two prices, or the one that is there.
fn greater(a: Option<i64>, b: Option<i64>) -> Option<i64>
    ensures { result ≡ greater a b }
{
    a.max(b)
}

// The true price of one that a buyer sees, which fits 32 bits.
fn true_price(side: Side, seen: i64) -> i32
    requires { FitsSigned w32 (as_buyer side seen) }
    ensures { result ≡ as_buyer side seen }
{
    match side {
        Side::Buy => seen as i32,
        Side::Sell => -seen as i32,
    }
}

impl Agency {
    // The cap as a buyer sees it.
    fn cap(self, quotes: Quotes) -> Option<i64>
        ensures value { result ≡ cap_of (seen self.side quotes.bid) (seen self.side quotes.best) }
        ensures low { IfSome result (λ p. least self.side ≤ℤ p) }
    {
        greater(
            raised(self.side, quotes.bid),
            raised(self.side, quotes.best),
        )
    }

    // The cap at which an auction may start, or the first clause that the stop fails. A stop that
    // meets the clauses is at or above the cap.
    pub fn opening(self, quotes: Quotes) -> Result<Option<i32>, Clause>
        ensures value { result ≡ opening_of self.side self.stop self.customer quotes.bid quotes.best quotes.offer }
        ensures capped { IfOk result (λ c. cap_fits (option_map (as_buyer self.side) c) (as_buyer self.side self.stop) ≡ true) }
    {
        self.met(quotes)?;
        // No `map`: its closure would have to take any price, and a true price must fit.
        match self.cap(quotes) {
            Some(cap) => Ok(Some(true_price(self.side, cap))),
            None => Ok(None),
        }
    }
}
