ghost use Rattle.std.specs.Prelude.{◌≡◌, ◌≤◌, Option};
ghost use Rattle.terms.specs.Prices.{price_of};

use super::Price;

impl Price {
    // The price of so many cents, if that is in range.
    pub fn new(cents: u32) -> Option<Price>
        ensures { result ≡ price_of cents }
    {
        if (1..=999_999).contains(&cents) {
            Some(Price { cents })
        } else {
            None
        }
    }

    pub fn cents(&self) -> u32
        ensures value { result ≡ self.now.cents }
        ensures range { (1 ≤ result) × (result ≤ 999999) }
    {
        self.cents
    }
}
