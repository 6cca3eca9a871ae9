// Works the levels, from the lowest to the stop, while contracts remain.
ghost use Rattle.std.specs.Prelude.{◌≡◌, ◌≤◌, not, ◌&&◌, [], length};
ghost use Rattle.allocation.specs.Deals.{deal_of};
ghost use Rattle.allocation.specs.Fillings.{fills_of};
ghost use Rattle.allocation.specs.Levels.{below_stop};
ghost use Rattle.contra.specs.Kinds.{same_level};
ghost use Rattle.std.specs.List.{list_any};

use super::Settlement;
use crate::filling::Filling;
use ranked::contra::ContraItem;
use share::rule::ShareRule;

// Whether one of the items is of this one's level.
fn has_level(items: &[ContraItem], item: &ContraItem) -> bool
    ensures { result ≡ list_any (same_level item.now) items.now }
{
    items.iter().any(|other| item.level == other.level)
}

impl<S> Settlement<'_, S> {
    // Whether an item trades below the stop.
    fn is_below(&self, item: &ContraItem) -> bool
        ensures { result ≡ below_stop (deal_of self.now.auction.now.row) item.now }
    {
        item.level < self.auction.stop()
    }

    // Whether an item, which has these before it, begins a level below the stop.
    fn begins_below(&self, item: &ContraItem, earlier: &[ContraItem]) -> bool
        ensures { result ≡ below_stop (deal_of self.now.auction.now.row) item.now && not (list_any (same_level item.now) earlier.now) }
    {
        self.is_below(item) && !has_level(earlier, item)
    }
}

impl<S: ShareRule> Settlement<'_, S> {
    // Writes the fills, as a buyer sees them. The filling is lent, for its fills are large to move.
    pub(crate) fn fill(&self, filling: &mut Filling)
        requires size { filling.old.left ≡ (deal_of self.now.auction.now.row).size }
        requires empty { filling.old.fills.items ≡ [] }
        requires most { length (fills_of (S.ShareRule.awards self.now.rule.now) (deal_of self.now.auction.now.row) self.now.items.now) ≤ 257 }
        ensures { filling.new.fills.items ≡ fills_of (S.ShareRule.awards self.now.rule.now) (deal_of self.now.auction.now.row) self.now.items.now }
    {
        // Whether an item begins a level is told by all in front of it, so its place is counted.
        for (i, first) in self.items.iter().enumerate() {
            if filling.left > 0 && self.begins_below(first, &self.items[..i]) {
                self.work_below(first, filling);
            }
        }
        if filling.left > 0 {
            self.work_stop(filling);
        }
    }
}
