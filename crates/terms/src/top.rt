// The best price of one side of one component, marked where a customer's order is there.
ghost use Rattle.std.specs.Prelude.{◌≡◌};
ghost use Rattle.terms.specs.Tops.{top_of};

use crate::price::Price;

#[derive(Clone, Copy, PartialEq, Eq, Debug)]
pub struct Top {
    pub price: Price,
    pub customer: bool,
}

impl Top {
    // The top at so many cents, if that is a price.
    pub fn new(cents: u32, customer: bool) -> Option<Top>
        ensures { result ≡ top_of cents customer }
    {
        let price = Price::new(cents)?;
        Some(Top { price, customer })
    }
}
