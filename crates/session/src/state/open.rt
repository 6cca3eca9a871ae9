ghost use Rattle.terms.specs.Refusals.{said};
ghost use Rattle.session.specs.Steps.{Does, open_step};
ghost use Rattle.session.specs.Views.{view};

use super::{Phase, Session};
use market::interface::Market;
use terms::refusal::Refusal;

impl<M: Market, S> Session<M, S> {
    // Ends listing, and fixes the auction period.
    pub fn open(&mut self, period: u32) -> Result<u32, Refusal<M::Fault>>
        ensures { Does (open_step (view M.Market.model self.old) period) (said result) (view M.Market.model self.new) }
    {
        self.unless_due(self.phase.is_listing())?;
        if !(100..=1000).contains(&period) {
            return Err(Refusal::Range);
        }
        self.phase = Phase::Open { period };
        // The rules answer 0.
        Ok(0)
    }
}
