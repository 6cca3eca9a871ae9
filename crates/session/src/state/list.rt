ghost use Rattle.terms.specs.Refusals.{said};
ghost use Rattle.session.specs.Steps.{Does, list_step};
ghost use Rattle.session.specs.Views.{view};

use super::Session;
use market::interface::Market;
use terms::leg::Leg;
use terms::refusal::Refusal;
use terms::strategy::Strategy;

impl<M: Market, S> Session<M, S> {
    // Lists a strategy, and answers its number.
    pub fn list(&mut self, legs: &[Leg]) -> Result<u32, Refusal<M::Fault>>
        ensures { Does (list_step (view M.Market.model self.old) legs.now) (said result) (view M.Market.model self.new) }
    {
        self.unless_due(self.phase.is_listing())?;
        // A closure, for the plain value would have to be one that can be dropped.
        let strategy = Strategy::new(legs).ok_or_else(|| Refusal::Range)?;
        self.strategies.add(strategy).map_err(|_| Refusal::Full)?;
        Ok(self.strategies.entries().len() as u32)
    }
}
