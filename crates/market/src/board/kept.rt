ghost use Rattle.std.specs.Prelude.{◌≡◌, ℕ, None, OnErr, OnOk, IfOk};
ghost use Rattle.std.specs.Result.{result_err};
ghost use Rattle.terms.specs.declared.side.Side.{Side};
ghost use Rattle.market.specs.declared.board.Board.{Board};
ghost use Rattle.market.specs.Meaning.{admission, led_by};
ghost use Rattle.market.specs.Boards.{Shows, board_after, board_fault, board_top, notice_component, heard, on_side, priced, notice_side, with_on_side, with_top};
ghost use Rattle.std.proofs.Common.{rules};

use super::{Board, BoardNotice, Tops};
use crate::fault::{Cause, Fault};
use crate::interface::Market;
use crate::place::Place;
use terms::price::Price;
use terms::side::Side;
use terms::top::Top;

impl Tops {
    fn on(&self, side: Side) -> Option<Top>
        ensures { result ≡ on_side self.now side }
    {
        match side {
            Side::Buy => self.bid,
            Side::Sell => self.offer,
        }
    }

    // These tops with another one on that side.
    fn with(&self, side: Side, top: Option<Top>) -> Tops
        ensures { result ≡ with_on_side self.now side top }
    {
        match side {
            Side::Buy => Tops { bid: top, ..*self },
            Side::Sell => Tops {
                offer: top,
                ..*self
            },
        }
    }
}

impl Board {
    // A board with no tops.
    pub fn new() -> Board
        ensures { (c : ℕ) (s : Side) → board_top result c s ≡ None }
    {
        Board {
            tops: [Tops::default(); 16],
        }
    }

    fn top(&self, place: Place) -> Option<Top>
        ensures { result ≡ board_top self.now place.component place.side }
    {
        self.tops[place.index()].on(place.side)
    }

    // Sets the top there.
    fn set(&mut self, place: Place, top: Option<Top>)
        ensures { self.new ≡ with_top self.old place.component place.side top }
    {
        let at = place.index();
        let tops = self.tops[at].with(place.side, top);
        self.tops[at] = tops;
    }
}

impl BoardNotice {
    // The component and side that it speaks of.
    fn subject(&self) -> (u32, Side)
        ensures component { result.0 ≡ notice_component self.now }
        ensures side { result.1 ≡ notice_side self.now }
    {
        match self {
            BoardNotice::Set(quoted) => (quoted.component, quoted.side),
            BoardNotice::Clear { component, side } => (*component, *side),
        }
    }

    // The top that it leaves there.
    fn heard(&self) -> Option<Top>
        ensures { result ≡ heard self.now }
    {
        match self {
            BoardNotice::Set(quoted) => quoted.top(),
            BoardNotice::Clear { .. } => None,
        }
    }

    fn priced(&self) -> bool
        ensures { result ≡ priced self.now }
    {
        match self {
            BoardNotice::Set(quoted) => Price::new(quoted.price).is_some(),
            BoardNotice::Clear { .. } => true,
        }
    }

    // The place that it speaks of, if a board admits it.
    fn admitted(&self) -> Result<Place, Fault>
        ensures fault { result_err result ≡ board_fault self.now }
        ensures place { IfOk result (λ p. (p.component ≡ notice_component self.now) × (p.side ≡ notice_side self.now)) }
    {
        let (component, side) = self.subject();
        let place = Place::new(component, side).ok_or(Cause::OutOfRange.nowhere())?;
        if !self.priced() {
            return Err(Cause::OutOfRange.at(component));
        }
        Ok(place)
    }
}

impl Market for Board {
    type Notice = BoardNotice;

    type Fault = Fault;

    ghost Model = { Board };

    ghost model = { λ b. b };

    ghost top = { board_top };

    ghost fault = { λ _ n. board_fault n };

    ghost after = { board_after };

    ghost placed = { Prim.search rules };

    fn tell(&mut self, component: u32, side: Side) -> Option<Top> {
        self.top(Place::new(component, side)?)
    }

    fn foresee(&mut self, notice: &BoardNotice, component: u32, side: Side) -> Option<Top> {
        let place = Place::new(component, side)?;
        if notice.admitted().is_ok_and(|heard| heard == place) {
            notice.heard()
        } else {
            self.top(place)
        }
    }

    fn take(&mut self, notice: &BoardNotice) -> Result<(), Fault>
        ensures answer { result ≡ admission (board_fault notice.now) }
        ensures after { self.new ≡ led_by (board_fault notice.now) self.old (board_after self.old notice.now) }
        ensures kept { OnErr result (self.new ≡ self.old) }
        ensures shows { OnOk result (Shows self.old notice.now self.new) }
    {
        let place = notice.admitted()?;
        self.set(place, notice.heard());
        Ok(())
    }
}
