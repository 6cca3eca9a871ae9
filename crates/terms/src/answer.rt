// What calls of a session answer.
use crate::synthetic::Synthetic;

// A notice or an order is booked, or held because it ends so many auctions.
#[derive(Clone, Copy, PartialEq, Eq, Debug)]
pub enum Placing {
    Booked,
    Held(u32),
}

// What there is of a strategy: its synthetic prices, the auctions running and due, and the
// contracts resting on each side.
#[derive(Clone, Copy, PartialEq, Eq, Debug)]
pub struct Reading {
    pub sbb: Option<Synthetic>,
    pub sbo: Option<Synthetic>,
    pub running: u32,
    pub due: u32,
    pub buy: u64,
    pub sell: u64,
}
