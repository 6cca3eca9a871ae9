// What a notice gives for a component and side: a price in cents, in range or not, marked where a
// customer's order is there.
ghost use Rattle.std.specs.Prelude.{◌≡◌};
ghost use Rattle.terms.specs.Tops.{top_of};

use terms::side::Side;
use terms::top::Top;

#[derive(Clone, Copy)]
pub struct Quoted {
    pub component: u32,
    pub side: Side,
    pub price: u32,
    pub customer: bool,
}

impl Quoted {
    // The top that it gives, if its price is in range.
    pub fn top(&self) -> Option<Top>
        ensures { result ≡ top_of self.now.price self.now.customer }
    {
        Top::new(self.price, self.customer)
    }
}
