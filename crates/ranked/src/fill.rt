// A fill of a user's, ranked by user, then rising price, then number.
ghost use Rattle.ranked.specs.Fills.{fill_before, fill_rank};
ghost use Rattle.std.specs.Ordering.{int_cmp, nat_cmp};
ghost use Rattle.ranked.specs.Fields.{by_user, numbers_same, prices_same, same_fields};

use crate::rank::ByRank;

#[derive(Clone, Copy, Default)]
pub struct Fill {
    pub id: u32,
    pub user: u32,
    pub number: u32,
    pub price: i32,
    pub size: u32,
}

impl ByRank for Fill {
    type Rank = (u32, i32, u32);

    ghost rank = { fill_rank };

    ghost before = { fill_before };

    ghost compares = { λ x y. by_user x.user y.user x.price y.price x.number y.number };

    ghost exact = { λ x y. same_fields nat_cmp int_cmp nat_cmp numbers_same prices_same numbers_same (fill_rank x) (fill_rank y) };

    fn rank(&self) -> (u32, i32, u32) {
        (self.user, self.price, self.number)
    }
}
