// Works one level: who is given what at one price.
ghost use Rattle.std.specs.Prelude.{◌≡◌, ◌≤◌, length, min, int_lt};
ghost use Rattle.std.specs.List.{prefix_len};
ghost use Rattle.allocation.specs.Deals.{deal_of};
ghost use Rattle.allocation.specs.Fillings.{level_fills};
ghost use Rattle.allocation.specs.Levels.{at_level, below_in, items_at, matched_in, stop_in};
ghost use Rattle.allocation.specs.Parts.{counts, customers_in, is_customer, others_in, total};
ghost use Rattle.auction.specs.Records.{matches_at, stop_of};
ghost use Rattle.settlement.specs.Groups.{CustomersFirst};
ghost use Rattle.settlement.specs.Writes.{HasRoom, Worked};

use super::Settlement;
use crate::filling::Filling;
use crate::group::Groups;
use ranked::contra::ContraItem;
use share::rule::ShareRule;

// How many items in front are below a level.
fn lower(items: &[ContraItem], level: i32) -> usize
    ensures value { result ≡ prefix_len (λ y. int_lt y.level level) items.now }
    ensures bound { result ≤ length items.now }
{
    items.iter().take_while(|item| item.level < level).count()
}

// How many items in front are of a level.
fn level_len(items: &[ContraItem], level: i32) -> usize
    ensures value { result ≡ prefix_len (at_level level) items.now }
    ensures bound { result ≤ length items.now }
{
    items.iter().take_while(|item| level == item.level).count()
}

// How many items in front are customers'.
fn customers(here: &[ContraItem]) -> usize
    ensures value { result ≡ prefix_len is_customer here.now }
    ensures bound { result ≤ length here.now }
{
    here.iter().take_while(|item| item.customer).count()
}

// The customers' items of a level, and the others behind them.
fn by_kind(here: &[ContraItem]) -> (&[ContraItem], &[ContraItem])
    requires { CustomersFirst here.now }
    ensures customers { result.0.now ≡ customers_in here.now }
    ensures others { result.1.now ≡ others_in here.now }
    ensures bound { length result.1.now ≤ length here.now }
{
    here.split_at(customers(here))
}

// The lesser of what is left and all that counts here.
fn matched(here: &[ContraItem], left: u32) -> u32
    ensures { result ≡ min left (total counts here.now) }
{
    let rest = here
        .iter()
        .fold(left, |rest, item| rest.saturating_sub(item.counted));
    left - rest
}

impl<S> Settlement<'_, S> {
    // The items of a level, which stand together in the order of the items.
    fn at_level(&self, level: i32) -> &[ContraItem]
        ensures here { result.now ≡ items_at level self.now.items.now }
        ensures customers { CustomersFirst result.now }
        ensures few { length result.now ≤ 128 }
    {
        let from = &self.items[lower(self.items, level)..];
        &from[..level_len(from, level)]
    }

    // What the Initiating Order takes first at a level below the stop, which this item begins.
    fn own_below(&self, first: &ContraItem, here: &[ContraItem], left: u32) -> u32
        ensures value { result ≡ matched_in (matches_at self.now.auction.now.row first.now.level) here.now left }
        ensures most { result ≤ left }
    {
        if self.auction.matches(first.level) {
            matched(here, left)
        } else {
            0
        }
    }
}

impl<S: ShareRule> Settlement<'_, S> {
    // Works a level below the stop, which this item begins: the Initiating Order's match, customers
    // by number, then groups. The Initiating Order's fill is written last.
    pub(super) fn work_below(&self, first: &ContraItem, filling: &mut Filling)
        requires { HasRoom (level_fills (deal_of self.now.auction.now.row) (below_in (S.ShareRule.awards self.now.rule.now) (deal_of self.now.auction.now.row) first.now.level (items_at first.now.level self.now.items.now) filling.old.left)) filling.old.fills.items }
        ensures { Worked (deal_of self.now.auction.now.row) (below_in (S.ShareRule.awards self.now.rule.now) (deal_of self.now.auction.now.row) first.now.level (items_at first.now.level self.now.items.now) filling.old.left) filling.old filling.new }
    {
        let here = self.at_level(first.level);
        let own = self.own_below(first, here, filling.left);
        let (customers, others) = by_kind(here);
        let left = filling.left - own;
        self.give_in_turn(customers, left, filling);
        let rest = filling.left - own;
        self.share_out(&Groups::among(others), rest, filling);
        self.give_own(first.level, own, filling);
    }

    // Works the stop: customers by number, the Initiating Order's guarantee, groups, and the rest to
    // the Initiating Order. Nothing is left then.
    pub(super) fn work_stop(&self, filling: &mut Filling)
        requires { HasRoom (level_fills (deal_of self.now.auction.now.row) (stop_in (S.ShareRule.awards self.now.rule.now) (deal_of self.now.auction.now.row) (items_at (stop_of self.now.auction.now.row) self.now.items.now) filling.old.left)) filling.old.fills.items }
        ensures { Worked (deal_of self.now.auction.now.row) (stop_in (S.ShareRule.awards self.now.rule.now) (deal_of self.now.auction.now.row) (items_at (stop_of self.now.auction.now.row) self.now.items.now) filling.old.left) filling.old filling.new }
    {
        let stop = self.auction.stop();
        let here = self.at_level(stop);
        let (customers, others) = by_kind(here);
        let left = filling.left;
        self.give_in_turn(customers, left, filling);
        let groups = Groups::among(others);
        let kept = self.auction.guarantee(filling.left, groups.users.len());
        let rest = filling.left - kept;
        self.share_out(&groups, rest, filling);
        let own = filling.left;
        self.give_own(stop, own, filling);
    }
}
