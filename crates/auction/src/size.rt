// Sizes: what the Initiating Order is guaranteed at the stop, and which auctions are small.
ghost use Rattle.std.specs.Prelude.{◌≡◌, ◌≤◌};
ghost use Rattle.terms.specs.Strategies.{legs_of};
ghost use Rattle.auction.specs.Sizes.{entitled, guarantee_of, small, smallest_ratio};

use terms::leg::Leg;
use terms::strategy::Strategy;

// At least 1, and half of what is left beside one group, or two fifths beside more, rounded down.
fn entitled(left: u32, groups: usize) -> u32
    ensures { result ≡ entitled left groups }
{
    let part = if groups == 1 {
        left / 2
    } else {
        (2 * u64::from(left) / 5) as u32
    };
    part.max(1)
}

// What the Initiating Order is guaranteed where so many contracts are left after customers and so
// many groups are there: nothing in last priority, and everything beside no group.
pub fn guarantee(last: bool, left: u32, groups: usize) -> u32
    ensures value { result ≡ guarantee_of last left groups }
    ensures most { result ≤ left }
{
    if last || left == 0 {
        return 0;
    }
    if groups == 0 {
        return left;
    }
    entitled(left, groups)
}

// The smallest ratio of the legs. A ratio is never above 8.
fn smallest_ratio(legs: &[Leg]) -> u32
    ensures value { result ≡ smallest_ratio legs.now }
    ensures most { result ≤ 8 }
{
    legs.iter().fold(8, |smallest, leg| smallest.min(leg.ratio))
}

// Whether an auction of this size is so small that no other may be in its strategy.
pub fn is_small(size: u32, strategy: &Strategy) -> bool
    ensures { result ≡ small size (legs_of strategy.now) }
{
    u64::from(size) * u64::from(smallest_ratio(strategy.legs())) < 50
}
