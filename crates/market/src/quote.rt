// A strategy's synthetic prices over a market.
ghost use Rattle.std.specs.Prelude.{◌≡◌, true, IfSome};
ghost use Rattle.terms.specs.Ranges.{complex_price};
ghost use Rattle.terms.specs.Strategies.{legs_of};
ghost use Rattle.terms.specs.Synthetics.{synthetic_of};

use crate::interface::Market;
use arrayvec::ArrayVec;
use terms::side::Side;
use terms::strategy::Strategy;
use terms::synthetic::Synthetic;
use terms::top::Top;

// The SBB (quote `Buy`) or the SBO (quote `Sell`) of the strategy.
pub fn synthetic<M: Market>(market: &mut M, strategy: &Strategy, quote: Side) -> Option<Synthetic>
    ensures value { result ≡ synthetic_of (M.Market.top (M.Market.model market.old)) quote (legs_of strategy.now) }
    ensures range { IfSome result (λ s. complex_price s.price ≡ true) }
    ensures same { market.new ≡ market.old }
{
    let mut tops: ArrayVec<Option<Top>, 4> = ArrayVec::new();
    for leg in strategy.legs() {
        tops.push(market.tell(leg.component, leg.reads(quote)));
    }
    strategy.synthetic(&tops)
}
