// First come: fills the sizes in rank order.
ghost use Rattle.std.specs.Prelude.{◌≡◌, ◌≤◌, ◌++◌, length, drop};
ghost use Rattle.share.specs.Filling.{first_come};
ghost use Rattle.share.specs.Firsts.{first_each, first_within, first_spent};

use crate::in_turn::award_in_turn;
use crate::range::check_request;
use crate::rule::ShareRule;
use std::convert::Infallible;
use terms::refusal::Refusal;

#[derive(Clone, Copy)]
pub struct FirstCome;

// Gives each size the lesser of it and what is left.
fn fill(sizes: &[u32], q: u32, given: &mut [u32])
    requires { length sizes.now ≤ length given.old }
    ensures { given.new ≡ first_come sizes.now q ++ drop (length sizes.now) given.old }
{
    let lesser = |size: u32, left: u32| {
        let award = size.min(left);
        (award, left - award)
    };
    award_in_turn(sizes, q, lesser, given);
}

impl ShareRule for FirstCome {
    ghost awards = { λ _ sizes q. first_come sizes q };

    ghost each = { λ _ sizes q. first_each sizes q };

    ghost within = { λ _ sizes q. first_within sizes q };

    ghost spent = { λ _ sizes q. first_spent sizes q };

    fn share(&self, sizes: &[u32], q: u32, given: &mut [u32]) -> Result<(), Refusal<Infallible>> {
        check_request(sizes, q, given.len())?;
        fill(sizes, q, given);
        Ok(())
    }
}
