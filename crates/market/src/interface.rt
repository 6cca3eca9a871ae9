// What a market is to a session. Its model is the implementer's own. The model fixes the tops,
// which notices are admitted now, the fault of every other one, and what an admitted one leaves.
ghost use Rattle.std.specs.Prelude.{◌≡◌, ℕ, Option, OnErr};
ghost use Rattle.terms.specs.declared.side.Side.{Side};
ghost use Rattle.terms.specs.declared.top.Top.{Top};
ghost use Rattle.market.specs.Meaning.{Placed, admission, led};

use terms::side::Side;
use terms::top::Top;

pub trait Market {
    type Notice;

    type Fault;

    ghost Model: { Type 0 };

    ghost model: { Self → Model };

    // the top of a component and side, if there is one
    ghost top: { Model → ℕ → Side → Option Top };

    // why a notice is not admitted; none if it is
    ghost fault: { Model → Self.Notice → Option Self.Fault };

    // what an admitted notice leaves
    ghost after: { Model → Self.Notice → Model };

    // A component and a side, in range or not: a value of both would be made for each question and
    // taken apart at once.
    fn tell(&mut self, component: u32, side: Side) -> Option<Top>
        ensures value { result ≡ top (model self.old) component side }
        ensures same { self.new ≡ self.old };

    // The top as it would be after the notice; as it is, if the notice is not admitted.
    fn foresee(&mut self, notice: &Self::Notice, component: u32, side: Side) -> Option<Top>
        ensures value { result ≡ top (led fault after (model self.old) notice.now) component side }
        ensures same { self.new ≡ self.old };

    fn take(&mut self, notice: &Self::Notice) -> Result<(), Self::Fault>
        ensures answer { result ≡ admission (fault (model self.old) notice.now) }
        ensures after { model self.new ≡ led fault after (model self.old) notice.now }
        ensures kept { OnErr result (self.new ≡ self.old) };

    // tops are shown for components 1 to 16 alone, at prices of 1 to 999,999
    ghost placed: { (m : Model) (c : ℕ) (s : Side) → Placed c (top m c s) };
}
