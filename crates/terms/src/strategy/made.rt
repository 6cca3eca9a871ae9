ghost use Rattle.std.specs.Prelude.{◌≡◌, true, if◌then◌else◌, Some, None};
ghost use Rattle.std.specs.Option.{option_map};
ghost use Rattle.terms.specs.Legs.{apart, names, well_formed};
ghost use Rattle.terms.specs.Strategies.{legs_of};

use super::Strategy;
use crate::leg::Leg;
use crate::side::Side;

// Whether one of the legs is on this component.
fn names_component(component: u32, legs: &[Leg]) -> bool
    ensures { result ≡ names component legs.now }
{
    legs.iter().any(|leg| leg.component == component)
}

// Whether each leg is in range and on a component that no later leg is on.
fn are_apart(legs: &[Leg]) -> bool
    ensures { result ≡ apart legs.now }
{
    match legs {
        [] => true,
        [leg, later @ ..] => {
            leg.fits() && !names_component(leg.component, later) && are_apart(later)
        }
    }
}

// Whether these legs make a strategy.
fn makes_strategy(legs: &[Leg]) -> bool
    ensures { result ≡ well_formed legs.now }
{
    (2..=4).contains(&legs.len()) && are_apart(legs)
}

impl Strategy {
    // The strategy of these legs, if they make one.
    pub fn new(legs: &[Leg]) -> Option<Strategy>
        ensures { option_map legs_of result ≡ (if well_formed legs.now then Some legs.now else None) }
    {
        if !makes_strategy(legs) {
            return None;
        }
        let count = legs.len();
        let unused = Leg {
            component: 0,
            side: Side::Buy,
            ratio: 0,
        };
        let mut kept = [unused; 4];
        kept[0..count].copy_from_slice(legs);
        Some(Strategy { legs: kept, count })
    }

    pub fn legs(&self) -> &[Leg]
        ensures value { result.now ≡ legs_of self.now }
        ensures ok { well_formed result.now ≡ true }
    {
        &self.legs[0..self.count]
    }
}
