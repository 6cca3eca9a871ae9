// What a session holds.
use terms::auction::AuctionRow;
use terms::order::{Order, Response};
use terms::strategy::Strategy;
use terms::table::Table;

mod due;
mod list;
mod notice;
mod open;
mod read;
mod start;

// Strategies are listed, then auctions are run until the close.
#[derive(Clone, Copy)]
pub enum Phase {
    Listing,
    Open { period: u32 },
    Closed,
}

// What is halted until the close, by the number of the strategy or component less one.
#[derive(Clone, Copy)]
pub struct Halts {
    pub strategies: [bool; 8],
    pub components: [bool; 16],
}

// A session over a market, with a share rule. Its tables are fixed, so that no call wants memory. Its
// abstract state is `view` of specs/Views.antt, which is given the market's model: a `Model` of its own
// could not speak of that.
#[derive(Drop)]
pub struct Session<M, S> {
    market: M,
    rule: S,
    phase: Phase,
    strategies: Table<Strategy, 8>,
    auctions: [Option<AuctionRow>; 8],
    orders: Table<Order, 64>,
    responses: Table<Response, 64>,
    halts: Halts,
    clock: u32,
    next: u32,
}
