// The groups at a level: all items of a user that are no customer's form one.
ghost use Rattle.std.specs.Prelude.{◌≡◌, ◌≤◌, length};
ghost use Rattle.std.specs.List.{list_any};
ghost use Rattle.contra.specs.Kinds.{same_user};
ghost use Rattle.settlement.specs.Groups.{users_in};

use arrayvec::ArrayVec;
use ranked::contra::ContraItem;

#[derive(Drop)]
pub(crate) struct Groups<'a> {
    pub(crate) others: &'a [ContraItem],
    pub(crate) users: ArrayVec<u32, 128>,
    ghost led: { users.items ≡ users_in others.now },
}

// Whether one of the items is of this one's user.
fn has_user(items: &[ContraItem], item: &ContraItem) -> bool
    ensures { result ≡ list_any (same_user item.now) items.now }
{
    items.iter().any(|other| item.user == other.user)
}

// The users of items, each once, in the order of their first items. That the items are few is asked: a
// type that says it of a slice would have to be made at each call.
fn users_of(items: &[ContraItem]) -> ArrayVec<u32, 128>
    requires few { length items.now ≤ 128 }
    ensures { result.items ≡ users_in items.now }
{
    let mut users = ArrayVec::new();
    // Each item is compared with all in front of it, so its place is counted.
    for (i, item) in items.iter().enumerate() {
        if !has_user(&items[..i], item) {
            users.push(item.user);
        }
    }
    users
}

impl<'a> Groups<'a> {
    ghost use Rattle.std.specs.Prelude.{◌^◌, ◌<◌, sum_by};
    ghost use Rattle.allocation.specs.Parts.{counts, group_sizes};
    ghost use Rattle.settlement.specs.Groups.{GroupsFit, of_user};

    // The groups among items that are no customers'.
    pub(crate) fn among(others: &'a [ContraItem]) -> Groups<'a>
        requires few { length others.now ≤ 128 }
        ensures { result.others.now ≡ others.now }
    {
        let users = users_of(others);
        Groups { others, users }
    }

    // The counted contracts of a user's group.
    fn size(&self, user: u32) -> u32
        requires { sum_by counts (of_user self.now.others.now user) < 2 ^ 32 }
        ensures { result ≡ sum_by counts (of_user self.now.others.now user) }
    {
        self.others
            .iter()
            .filter(|item| user == item.user)
            .map(|item| item.counted)
            .sum()
    }

    // The size of each group, in the order of their users.
    pub(crate) fn sizes(&self) -> ArrayVec<u32, 128>
        requires { GroupsFit self.now.others.now }
        ensures { result.items ≡ group_sizes self.now.others.now }
    {
        let mut sizes = ArrayVec::new();
        for user in self.users.iter() {
            sizes.push(self.size(*user));
        }
        sizes
    }
}
