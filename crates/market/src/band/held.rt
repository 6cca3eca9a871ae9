ghost use Rattle.std.specs.Prelude.{◌≡◌};
ghost use Rattle.terms.specs.Refusals.{said};
ghost use Rattle.market.specs.Bands.{Banded, band_after, band_fault, band_top, banded, lowest, too_far, width_of, width_said, would_move};
ghost use Rattle.market.specs.Meaning.{led};
ghost use Rattle.std.proofs.Common.{rules};

use super::{Band, Width};
use crate::fault::{Fault, Outside};
use crate::interface::Market;
use terms::price::Price;
use terms::refusal::Refusal;
use terms::side::Side;
use terms::top::Top;

impl Width {
    pub fn new(cents: u32) -> Result<Width, Refusal<Fault>>
        ensures { said result ≡ width_said cents }
    {
        let cents = Price::new(cents).ok_or(Refusal::Range)?;
        Ok(Width { cents })
    }

    // Whether both tops are there and lie further apart than this.
    fn is_passed(self, before: Option<Top>, after: Option<Top>) -> bool
        ensures { result ≡ too_far (width_of self) before after }
    {
        before.zip(after).is_some_and(|(before, after)| {
            before.price.cents().abs_diff(after.price.cents()) > self.cents.cents()
        })
    }
}

impl<M> Band<M> {
    pub fn new(below: M, width: Width) -> Band<M>
        ensures below { result.below ≡ below }
        ensures width { result.width ≡ width }
    {
        Band { below, width }
    }
}

impl<M: Market> Band<M> {
    // Whether the notice would move this top too far.
    fn moves_far(&mut self, notice: &M::Notice, component: u32, side: Side) -> bool
        ensures value { result ≡ too_far (width_of self.old.width) (M.Market.top (M.Market.model self.old.below) component side) (M.Market.top (led M.Market.fault M.Market.after (M.Market.model self.old.below) notice.now) component side) }
        ensures same { self.new ≡ self.old }
    {
        let before = self.below.tell(component, side);
        let after = self.below.foresee(notice, component, side);
        self.width.is_passed(before, after)
    }

    // Whether the notice would move a top of this component too far.
    fn moves(&mut self, notice: &M::Notice, component: u32) -> bool
        ensures value { result ≡ would_move M.Market.top M.Market.fault M.Market.after (width_of self.old.width) (M.Market.model self.old.below) notice.now component }
        ensures same { self.new ≡ self.old }
    {
        self.moves_far(notice, component, Side::Buy)
            || self.moves_far(notice, component, Side::Sell)
    }

    // The lowest component of which the notice would move a top too far.
    fn lowest_moved(&mut self, notice: &M::Notice) -> Option<u32>
        ensures value { result ≡ lowest (would_move M.Market.top M.Market.fault M.Market.after (width_of self.old.width) (M.Market.model self.old.below) notice.now) 1 16 }
        ensures same { self.new ≡ self.old }
    {
        // No `find`: its closure would borrow the market to change, and nothing is proved of what such a closure leaves.
        for component in 1..17 {
            if self.moves(notice, component) {
                return Some(component);
            }
        }
        None
    }
}

impl<M: Market> Market for Band<M>
where
    M::Fault: Outside,
{
    type Notice = M::Notice;

    type Fault = M::Fault;

    ghost Model = { Banded M.Market.Model };

    ghost model = { banded M.Market.model };

    ghost top = { band_top M.Market.top };

    ghost fault = { band_fault M.Market.top M.Market.fault M.Market.after M.Fault.Outside.outside_of };

    ghost after = { band_after M.Market.after };

    ghost placed = { Prim.search rules };

    fn tell(&mut self, component: u32, side: Side) -> Option<Top> {
        self.below.tell(component, side)
    }

    fn foresee(&mut self, notice: &M::Notice, component: u32, side: Side) -> Option<Top> {
        if self.lowest_moved(notice).is_some() {
            return self.below.tell(component, side);
        }
        self.below.foresee(notice, component, side)
    }

    fn take(&mut self, notice: &M::Notice) -> Result<(), M::Fault> {
        match self.lowest_moved(notice) {
            Some(component) => Err(M::Fault::outside(component)),
            None => self.below.take(notice),
        }
    }
}
