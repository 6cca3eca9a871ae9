ghost use Rattle.std.specs.Prelude.{IfOk};
ghost use Rattle.session.specs.States.{Fresh};
ghost use Rattle.session.specs.Views.{view};

use super::{Halts, Phase, Session};
use market::interface::Market;
use std::alloc::{AllocError, Global};
use terms::table::Table;

impl<M: Market + Drop, S: Drop> Session<M, S> {
    // A new session: nothing is listed or accepted. It takes all the room that it will need.
    #[tactic(auto, unfolding(crate::specs::States::free_rows, crate::specs::States::no_halts))]
    pub fn new(heap: Global, market: M, rule: S) -> Result<Session<M, S>, AllocError>
        ensures { IfOk result (λ s. Fresh (M.Market.model market) rule (view M.Market.model s)) }
    {
        let strategies = Table::new(heap)?;
        let orders = Table::new(heap)?;
        let responses = Table::new(heap)?;
        Ok(Session {
            market,
            rule,
            phase: Phase::Listing,
            strategies,
            auctions: [None; 8],
            orders,
            responses,
            halts: Halts {
                strategies: [false; 8],
                components: [false; 16],
            },
            clock: 0,
            next: 1,
        })
    }
}
