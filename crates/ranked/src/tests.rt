ghost use Rattle.std.specs.Prelude.{◌≡◌, ◌∷◌, drop, if◌then◌else◌};

use crate::contra::ContraItem;
use crate::drawn::draw;
use crate::fill::Fill;
use crate::list::Ordered;
use crate::rank::Ranked;
use crate::statement::statement;
use std::test::Fail;

fn fill(id: u32, user: u32, price: i32, number: u32) -> Fill {
    Fill {
        id,
        user,
        number,
        price,
        size: 1,
    }
}

fn contra(number: u32, counted: u32) -> ContraItem {
    ContraItem {
        user: 1,
        number,
        price: 0,
        level: 0,
        customer: false,
        counted,
    }
}

// The owner of the memory knows what it holds afterwards.
fn holds_one(items: &mut [Fill], item: Fill) -> bool
    ensures { items.new ≡ (if result then item ∷ drop 1 items.old else items.old) }
{
    let mut list = Ordered::new(items);
    list.insert(item).is_ok()
}

#[test]
fn equals_stay_as_they_arrived(rt: HostRuntime) {
    let mut items = [fill(0, 0, 0, 0); 4];
    let mut list = Ordered::new(&mut items);
    assert!(rt; list.insert(fill(1, 7, -5, 1)).is_ok());
    assert!(rt; list.insert(fill(2, 7, -6, 1)).is_ok());
    assert!(rt; list.insert(fill(3, 7, -5, 1)).is_ok());
    let records = list.as_slice();
    assert!(rt; records.len() == 3);
    assert_eq!(rt; (records[0].id, records[1].id, records[2].id), (2, 1, 3));
}

#[test]
fn full_list_refuses_by_row_4(rt: HostRuntime) -> Result<(), Fail> {
    let mut items = [fill(0, 0, 0, 0); 1];
    let mut list = Ordered::new(&mut items);
    assert!(rt; list.insert(fill(1, 7, 500, 1)).is_ok());
    match list.insert(fill(2, 7, 400, 1)) {
        Ok(()) => return Err(Fail::new("no room")),
        Err(refusal) => assert_eq!(rt; refusal.number(), 4),
    }
    let records = list.as_slice();
    assert!(rt; records.len() == 1);
    assert_eq!(rt; records[0].id, 1);
    Ok(())
}

#[test]
fn four_fills_by_user_price_and_number(rt: HostRuntime) {
    let given = [
        fill(1, 9, 300, 1),
        fill(2, 4, 310, 1),
        fill(3, 4, 305, 8),
        fill(4, 4, 305, 2),
    ];
    let mut list = [fill(0, 0, 0, 0); 5];
    assert_eq!(rt; statement(&given, &mut list).ok(), Some(4));
    assert_eq!(rt;
        (list[0].id, list[1].id, list[2].id, list[3].id, list[4].id),
        (4, 3, 2, 1, 0)
    );
    assert!(rt; statement(&list, &mut [fill(0, 0, 0, 0); 4]).is_err());
}

#[test]
fn draws_from_the_front(rt: HostRuntime) {
    let mut items = [contra(1, 5), contra(2, 0), contra(3, 4), contra(4, 9)];
    assert_eq!(rt; draw(&mut items, 7), 7);
    assert_eq!(rt;
        (
            items[0].counted,
            items[1].counted,
            items[2].counted,
            items[3].counted,
        ),
        (0, 0, 2, 9)
    );
    assert_eq!(rt; draw(&mut items, 20), 11);
}

// An order that compares by a test of its own, a higher price first.
#[derive(Clone, Copy)]
struct Bid {
    id: u32,
    cents: u32,
}

impl Ranked for Bid {
    ghost use Rattle.std.specs.Prelude.{ℕ, nat_le};
    ghost use Rattle.std.proofs.Common.{rules, sym};
    ghost use Rattle.ranked.specs.Fields.{last_agreed, last_passed};

    ghost Rank = { ℕ };

    ghost rank = { λ x. x.cents };

    ghost before = { λ x y. nat_le y.cents x.cents };

    ghost compared = { Prim.search rules };

    ghost agreed = { λ x y e f. last_agreed x.cents y.cents f e };

    ghost level = { Prim.search rules };

    ghost passed = { λ x y z e f. last_passed z.cents y.cents x.cents f e };

    fn is_before(&self, other: &Bid) -> bool {
        self.cents >= other.cents
    }
}

#[test]
fn ranks_by_a_test_of_its_own(rt: HostRuntime) {
    let none = Bid { id: 0, cents: 0 };
    let mut items = [none; 3];
    let mut list = Ordered::new(&mut items);
    assert!(rt; list.insert(Bid { id: 1, cents: 300 }).is_ok());
    assert!(rt; list.insert(Bid { id: 2, cents: 310 }).is_ok());
    assert!(rt; list.insert(Bid { id: 3, cents: 300 }).is_ok());
    let records = list.as_slice();
    assert!(rt; records.len() == 3);
    assert_eq!(rt; (records[0].id, records[1].id, records[2].id), (2, 1, 3));
}
