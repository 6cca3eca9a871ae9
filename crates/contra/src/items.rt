// The contra items of an auction, ranked and counted, as a buyer sees them.
ghost use Rattle.std.specs.Prelude.{◌≡◌, ◌≤◌, ◌++◌, length, take, drop, is_ok, IfOk, if◌then◌else◌, OnOk};
ghost use Rattle.std.specs.List.{AllByRecursion};
ghost use Rattle.terms.specs.Refusals.{said};
ghost use Rattle.terms.specs.Tables.{entries};
ghost use Rattle.contra.specs.Counting.{contra_of};
ghost use Rattle.contra.specs.Laws.{Contra};
ghost use Rattle.contra.specs.Turns.{ItemTurns};
ghost use Rattle.contra.specs.Answers.{contra_said};

use crate::count::count_all;
use crate::gather::rank;
use auction::record::Auction;
use ranked::contra::ContraItem;
use std::convert::Infallible;
use terms::order::{Order, Response};
use terms::refusal::Refusal;
use terms::table::Table;

// Writes the contra items into the first places of the list and answers how many they are. A list
// of fewer than 128 places is refused, for so many items there may be.
pub fn contra_items(
    auction: &Auction,
    orders: &Table<Order, 64>,
    responses: &Table<Response, 64>,
    list: &mut [ContraItem],
) -> Result<usize, Refusal<Infallible>>
    ensures answer { said result ≡ contra_said (length list.old) (length (contra_of auction.now.row (entries orders.now) (entries responses.now))) }
    ensures after { list.new ≡ (if is_ok result then contra_of auction.now.row (entries orders.now) (entries responses.now) ++ drop (length (contra_of auction.now.row (entries orders.now) (entries responses.now))) list.old else list.old) }
    ensures within { IfOk result (λ n. n ≤ length list.new) }
    ensures turns { OnOk result (AllByRecursion (ItemTurns auction.now.row.side) (contra_of auction.now.row (entries orders.now) (entries responses.now))) }
    ensures law { IfOk result (λ n. Contra auction.now.row (entries orders.now) (entries responses.now) (take n list.new)) }
{
    if list.len() < 128 {
        return Err(Refusal::Full);
    }
    let count = rank(auction, orders.entries(), responses.entries(), list);
    count_all(&mut list[..count], auction.size());
    Ok(count)
}
