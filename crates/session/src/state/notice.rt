ghost use Rattle.terms.specs.Refusals.{said};
ghost use Rattle.session.specs.Steps.{Does, notice_step};
ghost use Rattle.session.specs.Views.{view};

use super::Session;
use market::interface::Market;
use terms::answer::Placing;
use terms::refusal::Refusal;

impl<M: Market, S> Session<M, S> {
    // Tells the market a notice.
    pub fn notice(&mut self, notice: &M::Notice) -> Result<Placing, Refusal<M::Fault>>
        ensures { Does (notice_step M.Market.fault M.Market.after (view M.Market.model self.old) notice.now) (said result) (view M.Market.model self.new) }
    {
        self.unless_due(self.phase.is_open())?;
        self.market.take(notice).map_err(Refusal::NotAdmitted)?;
        Ok(Placing::Booked)
    }
}
