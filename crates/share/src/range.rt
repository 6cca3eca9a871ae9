// The tests that every share rule makes before it shares.
ghost use Rattle.std.specs.Prelude.{◌≡◌, ◌≤◌, true, length, OnOk};
ghost use Rattle.terms.specs.Refusals.{said};
ghost use Rattle.share.specs.Requests.{sizes_fit, share_fits, share_said};

use std::convert::Infallible;
use terms::refusal::Refusal;

const MOST_SIZES: usize = 128;

const LARGEST: u32 = 100_000;

// Whether each size is in range.
fn sizes_fit(sizes: &[u32]) -> bool
    ensures { result ≡ sizes_fit sizes.now }
{
    sizes.iter().all(|size| *size <= LARGEST)
}

// Whether the request is in range, and then whether the award list has a place for each size.
pub fn check_request(sizes: &[u32], q: u32, places: usize) -> Result<(), Refusal<Infallible>>
    ensures answer { said result ≡ share_said sizes.now q places }
    ensures taken { OnOk result ((share_fits sizes.now q ≡ true) × (length sizes.now ≤ places)) }
{
    if sizes.len() > MOST_SIZES || q > LARGEST || !sizes_fit(sizes) {
        return Err(Refusal::Range);
    }
    if places < sizes.len() {
        return Err(Refusal::Full);
    }
    Ok(())
}
