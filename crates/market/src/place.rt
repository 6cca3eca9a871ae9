// Where a top stands in a market: on one side of a component in range, and no other value exists.
ghost use Rattle.std.specs.Prelude.{◌≡◌, ◌-◌, true, is_some, IfSome};
ghost use Rattle.terms.specs.Ranges.{component as in_range};

use terms::side::Side;

#[derive(Clone, Copy, PartialEq, Eq)]
pub(crate) struct Place {
    pub(crate) component: u32,
    pub(crate) side: Side,
    ghost range: { in_range component ≡ true },
}

impl Place {
    // That side of the component, if there is a component of that number.
    pub(crate) fn new(component: u32, side: Side) -> Option<Place>
        ensures known { is_some result ≡ in_range component }
        ensures value { IfSome result (λ p. (p.component ≡ component) × (p.side ≡ side)) }
    {
        if !(1..=16).contains(&component) {
            return None;
        }
        Some(Place { component, side })
    }

    // The component's index among all, from 0.
    pub(crate) fn index(self) -> usize
        ensures { result ≡ self.component - 1 }
    {
        self.component as usize - 1
    }
}
