// One leg of a strategy: a component bought or sold, so many for each one of the strategy.
ghost use Rattle.std.specs.Prelude.{◌≡◌};
ghost use Rattle.terms.specs.Legs.{leg_fits, reads};

use crate::side::Side;

#[derive(Clone, Copy, PartialEq, Eq, Debug)]
pub struct Leg {
    pub component: u32,
    pub side: Side,
    pub ratio: u32,
}

impl Leg {
    // Whether the component is 1 to 16 and the ratio 1 to 8.
    pub fn fits(&self) -> bool
        ensures { result ≡ leg_fits self.now }
    {
        (1..=16).contains(&self.component) && (1..=8).contains(&self.ratio)
    }

    // The side of the component's market that prices this leg in the strategy's best bid
    // (`Buy`) or best offer (`Sell`): a sold leg is priced from the other side.
    pub fn reads(&self, quote: Side) -> Side
        ensures { result ≡ reads quote self.now }
    {
        match self.side {
            Side::Buy => quote,
            Side::Sell => quote.other(),
        }
    }
}
