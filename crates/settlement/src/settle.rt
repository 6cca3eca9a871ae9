// Settles one auction: which contracts go to whom at which price.
ghost use Rattle.std.specs.Prelude.{◌≡◌, ◌≤◌, length, take, is_ok, IfOk, if◌then◌else◌};
ghost use Rattle.std.specs.List.{AllByRecursion};
ghost use Rattle.terms.specs.Refusals.{said};
ghost use Rattle.terms.specs.Tables.{entries};
ghost use Rattle.contra.specs.Counting.{contra_of};
ghost use Rattle.contra.specs.Turns.{ItemTurns};
ghost use Rattle.allocation.specs.Deals.{deal_of};
ghost use Rattle.allocation.specs.Fillings.{fills_of};
ghost use Rattle.allocation.specs.Outcomes.{Outcome, auction_fills, shown_fills, shown_items};
ghost use Rattle.ranked.specs.Contras.{contra_before};
ghost use Rattle.ranked.specs.Ranks.{InOrder};
ghost use Rattle.settlement.specs.Groups.{LevelsFit};
ghost use Rattle.settlement.specs.Settles.{over, settle_said};
ghost use Rattle.settlement.specs.Shows.{FillTurns};

use crate::counts::Counts;
use crate::filling::{Filling, MOST_FILLS};
use crate::settlement::Settlement;
use crate::show::show_all;
use auction::record::Auction;
use contra::items::contra_items;
use ranked::contra::ContraItem;
use ranked::fill::Fill;
use share::rule::ShareRule;
use std::convert::Infallible;
use terms::order::{Order, Response};
use terms::refusal::Refusal;
use terms::table::Table;

// Fills an auction from its items, shows both lists in true prices, and answers how many fills
// it wrote. That the items are few and in order is asked, as `contra_items` answers.
fn fill_and_show<S: ShareRule>(
    auction: &Auction,
    rule: &S,
    items: &mut [ContraItem],
    fills: &mut [Fill],
) -> usize
    requires few { length items.old ≤ 128 }
    requires fits { LevelsFit items.old }
    requires order { InOrder contra_before items.old }
    requires most { length (fills_of (S.ShareRule.awards rule.now) (deal_of auction.now.row) items.old) ≤ 257 }
    requires room { 257 ≤ length fills.old }
    requires turns { AllByRecursion (ItemTurns auction.now.row.side) items.old }
    requires filled { AllByRecursion (FillTurns auction.now.row.side) (fills_of (S.ShareRule.awards rule.now) (deal_of auction.now.row) items.old) }
    ensures count { result ≡ length (fills_of (S.ShareRule.awards rule.now) (deal_of auction.now.row) items.old) }
    ensures items { items.new ≡ shown_items auction.now.row items.old }
    ensures fills { fills.new ≡ over (shown_fills auction.now.row (fills_of (S.ShareRule.awards rule.now) (deal_of auction.now.row) items.old)) fills.old }
{
    let side = auction.side();
    let settlement = Settlement {
        auction,
        rule,
        items: &*items,
    };
    let mut filling = Filling::new(auction.size());
    settlement.fill(&mut filling);
    show_all(side, items);
    show_all(side, filling.fills.as_mut_slice());
    fills[..filling.fills.len()].copy_from_slice(&filling.fills);
    filling.fills.len()
}

// Settles an auction against the orders and responses that rest, by a share rule. Writes the contra
// items and the fills from the front of their lists, in true prices, and answers how many of each
// it wrote. A fill list of fewer than 257 places, or a contra list of fewer than 128, is refused.
pub fn settle<S: ShareRule>(
    auction: &Auction,
    orders: &Table<Order, 64>,
    responses: &Table<Response, 64>,
    rule: &S,
    contra: &mut [ContraItem],
    fills: &mut [Fill],
) -> Result<Counts, Refusal<Infallible>>
    ensures answer { said result ≡ settle_said (length fills.old) (length contra.old) (record { fills = length (auction_fills (S.ShareRule.awards rule.now) auction.now.row (entries orders.now) (entries responses.now)); items = length (contra_of auction.now.row (entries orders.now) (entries responses.now)) }) }
    ensures contra { contra.new ≡ (if is_ok result then over (shown_items auction.now.row (contra_of auction.now.row (entries orders.now) (entries responses.now))) contra.old else contra.old) }
    ensures fills { fills.new ≡ (if is_ok result then over (shown_fills auction.now.row (auction_fills (S.ShareRule.awards rule.now) auction.now.row (entries orders.now) (entries responses.now))) fills.old else fills.old) }
    ensures law { IfOk result (λ n. Outcome (S.ShareRule.awards rule.now) auction.now.row (entries orders.now) (entries responses.now) (take n.items contra.new) (take n.fills fills.new)) }
{
    if fills.len() < MOST_FILLS {
        return Err(Refusal::Full);
    }
    let items = contra_items(auction, orders, responses, contra)?;
    let fills = fill_and_show(auction, rule, &mut contra[..items], fills);
    Ok(Counts { fills, items })
}
