// An item of the contra side, ranked by rising level, customers first, then number.
ghost use Rattle.ranked.specs.Contras.{contra_before, contra_rank, contra_reduced};
ghost use Rattle.std.specs.Ordering.{bool_cmp, int_cmp, nat_cmp};
ghost use Rattle.ranked.specs.ContraLaws.{contra_compares};
ghost use Rattle.ranked.specs.Fields.{customers_same, numbers_same, prices_same, same_fields};
ghost use Rattle.std.proofs.Common.{rules};

use crate::drawn::Drawn;
use crate::rank::ByRank;
use std::cmp::Reverse;

#[derive(Clone, Copy, Default)]
pub struct ContraItem {
    pub user: u32,
    pub number: u32,
    pub price: i32,
    pub level: i32,
    pub customer: bool,
    pub counted: u32,
}

impl ByRank for ContraItem {
    type Rank = (i32, Reverse<bool>, u32);

    ghost rank = { contra_rank };

    ghost before = { contra_before };

    ghost compares = { contra_compares };

    ghost exact = { λ x y. same_fields int_cmp (λ c d. bool_cmp d.0 c.0) nat_cmp prices_same customers_same numbers_same (contra_rank x) (contra_rank y) };

    fn rank(&self) -> (i32, Reverse<bool>, u32) {
        (self.level, Reverse(self.customer), self.number)
    }
}

impl Drawn for ContraItem {
    ghost contracts = { λ x. x.counted };

    ghost reduced = { contra_reduced };

    ghost left = { Prim.search rules };

    ghost ranked = { Prim.search rules };

    fn contracts(&self) -> u32 {
        self.counted
    }

    fn take(&mut self, most: u32) -> u32 {
        let taken = most.min(self.counted);
        self.counted -= taken;
        taken
    }
}
