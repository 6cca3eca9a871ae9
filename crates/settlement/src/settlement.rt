// An auction, a share rule, and the ranked and counted contra items that settle it.
ghost use Rattle.std.specs.Prelude.{◌≤◌, length};
ghost use Rattle.ranked.specs.Contras.{contra_before};
ghost use Rattle.ranked.specs.Ranks.{InOrder};
ghost use Rattle.settlement.specs.Groups.{LevelsFit};
ghost use Rattle.settlement.specs.Ordered.{InOrder-prop};

use auction::record::Auction;
use ranked::contra::ContraItem;

mod give;
mod level;
mod levels;
mod share_out;

#[derive(Drop)]
pub(crate) struct Settlement<'a, S> {
    pub(crate) auction: &'a Auction,
    pub(crate) rule: &'a S,
    pub(crate) items: &'a [ContraItem],
    ghost few: { length items.now ≤ 128 },
    ghost fits: { LevelsFit items.now },
    ghost order: { InOrder contra_before items.now } by { InOrder-prop contra_before items.now },
}
