// Puts the contra items of an auction into an ordered list.
ghost use Rattle.std.specs.Prelude.{◌≡◌, ◌+◌, ◌<◌, ◌≤◌, ◌++◌, length, drop};
ghost use Rattle.std.specs.Option.{option_to_list};
ghost use Rattle.std.specs.List.{AllByRecursion};
ghost use Rattle.ranked.specs.Contras.{contra_before};
ghost use Rattle.ranked.specs.Orders.{places};
ghost use Rattle.contra.specs.Gathered.{gathered};
ghost use Rattle.contra.specs.Turns.{ItemTurns};
ghost use Rattle.contra.specs.Named.{items_of, named};
ghost use Rattle.contra.specs.Counting.{ranked_of};

use crate::interest::Interest;
use auction::record::Auction;
use ranked::contra::ContraItem;
use ranked::list::Ordered;
use terms::order::{Order, Response};

// Puts an item in its place, if there is one.
#[inline(always)]
fn put(list: &mut Ordered<'_, ContraItem>, item: Option<ContraItem>)
    requires { list.old.len < length (places list.old) }
    ensures after { places list.new ≡ gathered contra_before (places list.old) list.old.len (option_to_list item) }
    ensures len { list.new.len ≡ list.old.len + length (option_to_list item) }
    ensures size { length (places list.new) ≡ length (places list.old) }
    ensures owner { list.new.items.ghost_name ≡ list.old.items.ghost_name }
{
    if let Some(item) = item {
        let _put = list.insert(item);
    }
}

// Puts the items that these entries make into the list, where there is room for one of each.
fn gather<T: Interest>(list: &mut Ordered<'_, ContraItem>, auction: &Auction, entries: &[T])
    requires { list.old.len + length entries.now ≤ length (places list.old) }
    ensures after { places list.new ≡ gathered contra_before (places list.old) list.old.len (items_of (T.Interest.item auction.now.row) entries.now) }
    ensures len { list.new.len ≡ list.old.len + length (items_of (T.Interest.item auction.now.row) entries.now) }
    ensures size { length (places list.new) ≡ length (places list.old) }
    ensures owner { list.new.items.ghost_name ≡ list.old.items.ghost_name }
    ensures turns { AllByRecursion (ItemTurns auction.now.row.side) (items_of (T.Interest.item auction.now.row) entries.now) }
{
    for entry in entries {
        put(list, entry.item(auction));
    }
}

// Ranks all contra items of an auction in the first places of the list, which has room for them,
// and answers how many they are.
pub(crate) fn rank(
    auction: &Auction,
    orders: &[Order],
    responses: &[Response],
    list: &mut [ContraItem],
) -> usize
    requires { length orders.now + length responses.now ≤ length list.old }
    ensures value { result ≡ length (named auction.now.row orders.now responses.now) }
    ensures few { result ≤ length orders.now + length responses.now }
    ensures turns { AllByRecursion (ItemTurns auction.now.row.side) (named auction.now.row orders.now responses.now) }
    ensures after { list.new ≡ ranked_of auction.now.row orders.now responses.now ++ drop result list.old }
{
    let mut ranked = Ordered::new(list);
    gather(&mut ranked, auction, orders);
    gather(&mut ranked, auction, responses);
    ranked.len()
}
