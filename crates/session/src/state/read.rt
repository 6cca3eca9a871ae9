ghost use Rattle.std.specs.Prelude.{◌≡◌};
ghost use Rattle.terms.specs.Refusals.{said};
ghost use Rattle.terms.specs.Strategies.{legs_of};
ghost use Rattle.session.specs.Steps.{Does, read_step, reading_for};
ghost use Rattle.session.specs.Views.{view};

use super::Session;
use crate::rows::{Standing, contracts_resting, strategy_at, tally};
use market::interface::Market;
use market::quote::synthetic;
use terms::answer::Reading;
use terms::refusal::Refusal;
use terms::side::Side;
use terms::strategy::Strategy;

impl<M: Market, S> Session<M, S> {
    // Tells what there is of a strategy.
    pub fn read(&mut self, strategy: u32) -> Result<Reading, Refusal<M::Fault>>
        ensures { Does (read_step M.Market.top (view M.Market.model self.old) strategy) (said result) (view M.Market.model self.new) }
    {
        // A closure, for the plain value would have to be one that can be dropped.
        let legs = strategy_at(&self.strategies, strategy).ok_or_else(|| Refusal::Range)?;
        Ok(self.reading(strategy, &legs))
    }

    fn reading(&mut self, number: u32, strategy: &Strategy) -> Reading
        ensures value { result ≡ reading_for M.Market.top (view M.Market.model self.old) number (legs_of strategy.now) }
        ensures same { view M.Market.model self.new ≡ view M.Market.model self.old }
    {
        let sbb = synthetic(&mut self.market, strategy, Side::Buy);
        let sbo = synthetic(&mut self.market, strategy, Side::Sell);
        Reading {
            sbb,
            sbo,
            running: tally(&self.auctions, Standing::RunningIn(number)),
            due: tally(&self.auctions, Standing::DueIn(number)),
            buy: contracts_resting(&self.orders, number, Side::Buy),
            sell: contracts_resting(&self.orders, number, Side::Sell),
        }
    }
}
