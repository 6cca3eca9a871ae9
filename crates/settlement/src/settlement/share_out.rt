// Shares contracts among the groups at a level by the share rule.
ghost use Rattle.std.specs.Prelude.{◌≡◌, ◌+◌, ◌≤◌, length};
ghost use Rattle.share.specs.Awards.{total};
ghost use Rattle.allocation.specs.Deals.{deal_of};
ghost use Rattle.allocation.specs.Fillings.{part_fills};
ghost use Rattle.allocation.specs.Parts.{shared};
ghost use Rattle.settlement.specs.Groups.{GroupsFit, dealt_to};
ghost use Rattle.settlement.specs.Writes.{Given, HasRoom};

use super::Settlement;
use crate::filling::Filling;
use crate::group::Groups;
use share::rule::ShareRule;

impl<S> Settlement<'_, S> {
    // Gives the items of each group their award in turn.
    fn deal(&self, groups: &Groups, awards: &[u32], filling: &mut Filling)
        requires each { length groups.now.users.items ≡ length awards.now }
        requires enough { total awards.now ≤ filling.old.left }
        requires room { HasRoom (part_fills (deal_of self.now.auction.now.row) (dealt_to groups.now.others.now groups.now.users.items awards.now)) filling.old.fills.items }
        ensures { Given (deal_of self.now.auction.now.row) (dealt_to groups.now.others.now groups.now.users.items awards.now) filling.old filling.new }
    {
        for (user, award) in groups.users.iter().zip(awards.iter()) {
            self.give_group(groups, *user, *award, filling);
        }
    }
}

impl<S: ShareRule> Settlement<'_, S> {
    // Gives the groups up to q contracts.
    pub(super) fn share_out(&self, groups: &Groups, q: u32, filling: &mut Filling)
        requires fits { GroupsFit groups.now.others.now }
        requires enough { q ≤ filling.old.left }
        requires room { HasRoom (part_fills (deal_of self.now.auction.now.row) (shared (S.ShareRule.awards self.now.rule.now) groups.now.others.now q)) filling.old.fills.items }
        ensures given { Given (deal_of self.now.auction.now.row) (shared (S.ShareRule.awards self.now.rule.now) groups.now.others.now q) filling.old filling.new }
        ensures most { filling.old.left ≤ filling.new.left + q }
    {
        let sizes = groups.sizes();
        // A share rule writes into memory that it is lent.
        let mut awards = [0; 128];
        let _shared = self.rule.share(&sizes, q, &mut awards);
        self.deal(groups, &awards[..sizes.len()], filling);
    }
}
