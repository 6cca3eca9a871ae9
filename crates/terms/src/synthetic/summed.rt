ghost use Rattle.std.specs.Prelude.{◌≡◌, ℕ, ◌+◌, ◌*◌, ◌≤◌, true, pos, negsuc, ◌≤ℤ◌, IfSome};
ghost use Rattle.terms.specs.Legs.{leg_fits};
ghost use Rattle.terms.specs.Ranges.{complex_price};
ghost use Rattle.terms.specs.Strategies.{legs_of};
ghost use Rattle.terms.specs.Synthetics.{Within, plus, shown, valued, worth};

use super::Synthetic;
use crate::leg::Leg;
use crate::price::Price;
use crate::side::Side;
use crate::strategy::Strategy;
use crate::top::Top;

// So many times a price.
fn times(ratio: u32, price: &Price) -> u32
    requires { ratio ≤ 8 }
    ensures value { result ≡ ratio * price.now.cents }
    ensures bound { result ≤ 7999992 }
{
    ratio * price.cents()
}

// What a leg adds to the price of its strategy.
fn worth(leg: &Leg, top: &Top) -> i32
    requires { leg_fits leg.now ≡ true }
    ensures value { result ≡ worth leg.now top.now }
    ensures low { negsuc 7999991 ≤ℤ result }
    ensures high { result ≤ℤ pos 7999992 }
{
    let cents = times(leg.ratio, &top.price);
    match leg.side {
        Side::Buy => cents as i32,
        Side::Sell => -(cents as i32),
    }
}

// A price so far with what one more leg adds to it. Before the last leg three were added at most.
fn plus(sum: Synthetic, leg: &Leg, top: &Top) -> Synthetic
    requires fit { leg_fits leg.now ≡ true }
    requires bound { Within 3 sum.price }
    ensures value { result ≡ plus sum leg.now top.now }
    ensures bound { (n : ℕ) → Within n sum.price → Within (n + 1) result.price }
{
    Synthetic {
        price: sum.price + worth(leg, top),
        customer: sum.customer || top.customer,
    }
}

impl Strategy {
    // The sum of the legs, each priced by its own top; none if a top is absent.
    pub fn synthetic(&self, tops: &[Option<Top>]) -> Option<Synthetic>
        ensures value { result ≡ valued (legs_of self.now) (shown (legs_of self.now) tops.now) }
        ensures range { IfSome result (λ s. complex_price s.price ≡ true) }
    {
        let mut sum = Synthetic {
            price: 0,
            customer: false,
        };
        // No `zip`: a top that is missing makes no price, and `zip` would pass it over.
        let mut left = tops.iter();
        for leg in self.legs() {
            let top = left.next()?.as_ref()?;
            sum = plus(sum, leg, top);
        }
        Some(sum)
    }
}
