// What a share rule is. The rule, the sizes in rank order and the quantity fix a list of awards:
// one to each size, none above its size, adding up to the lesser of the quantity and the sum of the sizes.
ghost use Rattle.std.specs.Prelude.{◌≡◌, ℕ, min, List, ◌++◌, length, drop, is_ok, if◌then◌else◌};
ghost use Rattle.terms.specs.Refusals.{said};
ghost use Rattle.share.specs.Awards.{Within, total};
ghost use Rattle.share.specs.Requests.{share_said};

use std::convert::Infallible;
use terms::refusal::Refusal;

pub trait ShareRule {
    ghost awards: { Self → List ℕ → ℕ → List ℕ };

    // Writes the awards into the first places of `given`. Takes up to 128 sizes, each at most
    // 100,000, and a quantity of 0 to 100,000; any other request, and then a list with too few
    // places, is refused and leaves `given` as it was. Each rule has two lines, the test of the request
    // and its own filling: a provided method would need a public one beneath it that asks something
    // of its caller, and a function that is given the filling would be as long at each call. The
    // sizes, the quantity and the list are each call's own, so they are arguments and no struct.
    fn share(&self, sizes: &[u32], q: u32, given: &mut [u32]) -> Result<(), Refusal<Infallible>>
        ensures answer { said result ≡ share_said sizes.now q (length given.old) }
        ensures after { given.new ≡ (if is_ok result then awards self.now sizes.now q ++ drop (length sizes.now) given.old else given.old) };

    ghost each: { (rule : Self) (sizes : List ℕ) (q : ℕ) → length (awards rule sizes q) ≡ length sizes };

    ghost within: { (rule : Self) (sizes : List ℕ) (q : ℕ) → Within (awards rule sizes q) sizes };

    ghost spent: { (rule : Self) (sizes : List ℕ) (q : ℕ) → total (awards rule sizes q) ≡ min q (total sizes) };
}
