// Gives contracts to items and to the Initiating Order, and writes their fills.
ghost use Rattle.std.specs.Prelude.{◌≡◌, ◌+◌, ◌≤◌, ◌++◌, min};
ghost use Rattle.allocation.specs.Deals.{deal_of};
ghost use Rattle.allocation.specs.Fillings.{own_fill, part_fill, part_fills, unless_empty};
ghost use Rattle.allocation.specs.Parts.{come, part_of};
ghost use Rattle.settlement.specs.Groups.{of_user};
ghost use Rattle.settlement.specs.Writes.{Given, HasRoom};

use super::Settlement;
use crate::filling::Filling;
use crate::group::Groups;
use ranked::contra::ContraItem;
use ranked::fill::Fill;

impl<S> Settlement<'_, S> {
    // The fill of an item that is given so many contracts.
    fn item_fill(&self, item: &ContraItem, size: u32) -> Fill
        ensures { result ≡ part_fill (deal_of self.now.auction.now.row) (part_of item.now size) }
    {
        Fill {
            id: self.auction.id(),
            user: item.user,
            number: item.number,
            price: item.level,
            size,
        }
    }

    // The Initiating Order's fill.
    fn own_fill(&self, price: i32, size: u32) -> Fill
        ensures { result ≡ own_fill (deal_of self.now.auction.now.row) price size }
    {
        Fill {
            id: self.auction.id(),
            user: self.auction.user(),
            // The rules number it 0.
            number: 0,
            price,
            size,
        }
    }

    // Gives an item the lesser of what is left and its counted contracts, and answers how many.
    fn give(&self, item: &ContraItem, rest: u32, filling: &mut Filling) -> u32
        requires enough { rest ≤ filling.old.left }
        requires room { HasRoom (unless_empty (part_fill (deal_of self.now.auction.now.row) (part_of item.now (min rest item.now.counted)))) filling.old.fills.items }
        ensures given { result ≡ min rest item.now.counted }
        ensures left { filling.new.left + result ≡ filling.old.left }
        ensures after { filling.new.fills.items ≡ filling.old.fills.items ++ unless_empty (part_fill (deal_of self.now.auction.now.row) (part_of item.now result)) }
    {
        let given = rest.min(item.counted);
        filling.fill(self.item_fill(item, given));
        given
    }

    // Gives items in turn up to q contracts, to each the lesser of what is left of them and its
    // counted contracts.
    pub(super) fn give_in_turn(&self, items: &[ContraItem], q: u32, filling: &mut Filling)
        requires enough { q ≤ filling.old.left }
        requires room { HasRoom (part_fills (deal_of self.now.auction.now.row) (come items.now q)) filling.old.fills.items }
        ensures given { Given (deal_of self.now.auction.now.row) (come items.now q) filling.old filling.new }
        ensures most { filling.old.left ≤ filling.new.left + q }
    {
        // `ranked::drawn::draw` changes the list that it draws from: the items would have to be
        // copied, and compared with it afterwards.
        let mut rest = q;
        for item in items {
            rest -= self.give(item, rest, filling);
        }
    }

    // Gives the items of a user's group in turn up to q contracts.
    pub(super) fn give_group(&self, groups: &Groups, user: u32, q: u32, filling: &mut Filling)
        requires enough { q ≤ filling.old.left }
        requires room { HasRoom (part_fills (deal_of self.now.auction.now.row) (come (of_user groups.now.others.now user) q)) filling.old.fills.items }
        ensures { Given (deal_of self.now.auction.now.row) (come (of_user groups.now.others.now user) q) filling.old filling.new }
    {
        let mut rest = q;
        for item in groups.others {
            if user == item.user {
                rest -= self.give(item, rest, filling);
            }
        }
    }

    // Gives the Initiating Order contracts at a price.
    pub(super) fn give_own(&self, price: i32, size: u32, filling: &mut Filling)
        requires enough { size ≤ filling.old.left }
        requires room { HasRoom (unless_empty (own_fill (deal_of self.now.auction.now.row) price size)) filling.old.fills.items }
        ensures left { filling.new.left + size ≡ filling.old.left }
        ensures after { filling.new.fills.items ≡ filling.old.fills.items ++ unless_empty (own_fill (deal_of self.now.auction.now.row) price size) }
    {
        filling.fill(self.own_fill(price, size));
    }
}
