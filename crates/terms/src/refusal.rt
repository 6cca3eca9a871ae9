// Why a call is refused. Each case has its number, and the values that are told beside it.
ghost use Rattle.std.specs.Prelude.{◌≡◌};
ghost use Rattle.terms.specs.Refusals.{clause_number, number_of};

// A clause of the stop price.
#[derive(Clone, Copy, PartialEq, Eq, Debug)]
pub enum Clause {
    // at or above the SBB, and above it if marked
    Bid = 1,
    // above every resting complex buy, or at a non-customer's if the Agency Order is a customer's
    Orders = 2,
    // at or below the SBO, and below it if marked
    Offer = 3,
}

impl Clause {
    pub fn number(self) -> u32
        ensures { result ≡ clause_number self }
    {
        self as u32
    }
}

// `F` is the market's fault.
#[derive(Clone, Copy, PartialEq, Eq, Debug)]
pub enum Refusal<F> {
    // the call does not belong to this phase of the session
    Phase,
    // so many auctions are due
    Due(u32),
    // a field is out of its range, or fields do not go together
    Range,
    // a table is full, the numbers are spent, or a lent list is too short
    Full,
    // the market does not admit the notice
    NotAdmitted(F),
    // the strategy or one of its components is halted
    Halted,
    // another auction in the strategy stands in the way
    Concurrent,
    // the stop price fails this clause, and none before it
    Stop(Clause),
    // the order would trade at once
    Crosses,
    // the response has no auction to respond to
    NoAuction,
    // nothing there to cancel or to settle
    Nothing,
    // the clock would go back
    Earlier,
}

impl<F> Refusal<F> {
    // A match, for cases that hold values have no number of their own.
    pub fn number(&self) -> u32
        ensures { result ≡ number_of self.now }
    {
        match self {
            Refusal::Phase => 1,
            Refusal::Due(_) => 2,
            Refusal::Range => 3,
            Refusal::Full => 4,
            Refusal::NotAdmitted(_) => 5,
            Refusal::Halted => 6,
            Refusal::Concurrent => 7,
            Refusal::Stop(_) => 8,
            Refusal::Crosses => 9,
            Refusal::NoAuction => 10,
            Refusal::Nothing => 11,
            Refusal::Earlier => 12,
        }
    }
}
