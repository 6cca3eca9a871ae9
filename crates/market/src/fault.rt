// The fault of a board, a depth book or a price band: a component, 0 if the notice names none
// in range, and a cause.
ghost use Rattle.std.specs.Prelude.{◌≡◌, ℕ};
ghost use Rattle.market.specs.Faults.{cause_number, fault_at, outside_band};

// Each cause with the number that tells it.
#[derive(Clone, Copy, PartialEq, Eq, Debug)]
pub enum Cause {
    OutOfRange = 1,
    BookFull = 2,
    OrderNumber = 3,
    OutsideBand = 4,
}

impl Cause {
    pub fn number(self) -> u32
        ensures { result ≡ cause_number self }
    {
        self as u32
    }

    // The fault of a notice about this component.
    pub(crate) fn at(self, component: u32) -> Fault
        ensures { result ≡ fault_at component self }
    {
        Fault {
            component,
            cause: self,
        }
    }

    // The fault of a notice that names no component in range: such a fault tells component 0.
    pub(crate) fn nowhere(self) -> Fault
        ensures { result ≡ fault_at 0 self }
    {
        self.at(0)
    }
}

#[derive(Clone, Copy, PartialEq, Eq, Debug)]
pub struct Fault {
    pub component: u32,
    pub cause: Cause,
}

// A fault that can tell that a top of a component would leave its band.
pub trait Outside: Sized {
    ghost outside_of: { ℕ → Self };

    fn outside(component: u32) -> Self
        ensures { result ≡ outside_of component };
}

impl Outside for Fault {
    ghost outside_of = { outside_band };

    fn outside(component: u32) -> Fault {
        Cause::OutsideBand.at(component)
    }
}
