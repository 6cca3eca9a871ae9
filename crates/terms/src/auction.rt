// A row of a session's auction table.
use crate::side::Side;

// How the Initiating Order takes part below the stop price.
#[derive(Clone, Copy)]
pub enum Mode {
    Single,
    LastPriority,
    MatchAll,
    MatchTo(i32),
}

#[derive(Clone, Copy)]
pub enum Stage {
    Running,
    Due,
    // due, and to be settled without execution
    Halted,
}

#[derive(Clone, Copy)]
pub struct AuctionRow {
    pub id: u32,
    pub user: u32,
    pub strategy: u32,
    pub side: Side,
    pub customer: bool,
    pub size: u32,
    pub stop: i32,
    pub mode: Mode,
    pub cap: Option<i32>,
    pub start: u32,
    pub stage: Stage,
}
