ghost use Rattle.std.specs.Prelude.{◌≡◌, None};
ghost use Rattle.session.specs.Steps.{listing, opened, refusal_of, unless_due};
ghost use Rattle.session.specs.Views.{view};

use super::{Phase, Session};
use crate::rows::{Standing, tally};
use market::interface::Market;
use terms::refusal::Refusal;

impl Phase {
    pub(super) fn is_listing(self) -> bool
        ensures { result ≡ listing self }
    {
        matches!(self, Phase::Listing)
    }

    pub(super) fn is_open(self) -> bool
        ensures { result ≡ opened self }
    {
        matches!(self, Phase::Open { .. })
    }
}

impl<M: Market, S> Session<M, S> {
    // What goes before the other rows of a call: it belongs to the phase, and no auction is due.
    pub(super) fn unless_due(&self, in_phase: bool) -> Result<(), Refusal<M::Fault>>
        ensures { refusal_of result ≡ unless_due (view M.Market.model self.now) in_phase None }
    {
        if !in_phase {
            return Err(Refusal::Phase);
        }
        match tally(&self.auctions, Standing::Due) {
            0 => Ok(()),
            due => Err(Refusal::Due(due)),
        }
    }
}
