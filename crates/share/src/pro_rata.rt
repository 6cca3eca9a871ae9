// Pro rata: gives each size its part of the quantity, rounded down, and then one more each in rank order.
ghost use Rattle.std.specs.Prelude.{◌≡◌, ◌+◌, ◌-◌, ◌^◌, ◌<◌, ◌≤◌, min, ◌++◌, length, drop, sum, sum_by};
ghost use Rattle.share.specs.Proration.{part, one_more, dealt, pro_rata};
ghost use Rattle.share.specs.Prorating.{pro_rata_each, pro_rata_within, pro_rata_spent};

use crate::in_turn::award_in_turn;
use crate::range::check_request;
use crate::rule::ShareRule;
use std::convert::Infallible;
use terms::refusal::Refusal;

#[derive(Clone, Copy)]
pub struct ProRata;

// A quantity that is short of the sum of the sizes.
#[derive(Clone, Copy)]
struct Short {
    q: u32,
    sum: u32,
    ghost below: { q < sum },
}

// One of what is left over, and none for a size of 0.
fn one_more(size: u32, left: u32) -> u32
    ensures value { result ≡ one_more size left }
    ensures within { result ≤ left }
    ensures room { result ≤ min 1 size }
{
    if size == 0 { 0 } else { left.min(1) }
}

impl Short {
    // size × q / sum, rounded down. The product of two numbers of 32 bits fits 64.
    fn rounded_down(self, size: u32) -> u64
        ensures { result ≡ part self.sum self.q size }
    {
        u64::from(size) * u64::from(self.q) / u64::from(self.sum)
    }

    // A size's part. A size above 0 has room for one more.
    fn part_of(self, size: u32) -> u32
        ensures value { result ≡ part self.sum self.q size }
        ensures room { result + min 1 size ≤ size }
    {
        self.rounded_down(size) as u32
    }

    // What the parts leave over.
    fn left_over(self, sizes: &[u32]) -> u32
        requires { sum_by (part self.sum self.q) sizes.now ≤ self.q }
        ensures { result ≡ self.q - sum_by (part self.sum self.q) sizes.now }
    {
        let given: u32 = sizes.iter().map(|size| self.part_of(*size)).sum();
        self.q - given
    }

    // Gives each size its part and, while some is left over, one more.
    fn deal(self, sizes: &[u32], over: u32, given: &mut [u32])
        requires { length sizes.now ≤ length given.old }
        ensures { given.new ≡ dealt self.sum self.q over sizes.now ++ drop (length sizes.now) given.old }
    {
        let part_and_more = |size: u32, left: u32| {
            let more = one_more(size, left);
            (self.part_of(size) + more, left - more)
        };
        award_in_turn(sizes, over, part_and_more, given);
    }
}

// Gives each its whole size if the quantity covers the sum, and else its part and what is left over.
fn prorate(sizes: &[u32], q: u32, given: &mut [u32])
    requires few { sum sizes.now < 2 ^ 32 }
    requires room { length sizes.now ≤ length given.old }
    ensures { given.new ≡ pro_rata sizes.now q ++ drop (length sizes.now) given.old }
{
    let sum = sizes.iter().sum();
    if sum <= q {
        given[..sizes.len()].copy_from_slice(sizes);
        return;
    }
    let short = Short { q, sum };
    short.deal(sizes, short.left_over(sizes), given);
}

impl ShareRule for ProRata {
    ghost awards = { λ _ sizes q. pro_rata sizes q };

    ghost each = { λ _ sizes q. pro_rata_each sizes q };

    ghost within = { λ _ sizes q. pro_rata_within sizes q };

    ghost spent = { λ _ sizes q. pro_rata_spent sizes q };

    fn share(&self, sizes: &[u32], q: u32, given: &mut [u32]) -> Result<(), Refusal<Infallible>> {
        check_request(sizes, q, given.len())?;
        prorate(sizes, q, given);
        Ok(())
    }
}
