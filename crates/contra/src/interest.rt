// What may rest on the contra side of an auction.
ghost use Rattle.std.specs.Prelude.{◌≡◌, IfSome, Option};
ghost use Rattle.terms.specs.declared.auction.AuctionRow.{AuctionRow};
ghost use Rattle.ranked.specs.declared.contra.ContraItem.{ContraItem as Item};
ghost use Rattle.contra.specs.Turns.{ItemTurns};
ghost use Rattle.contra.specs.Named.{against, answering, entry_item, order_entry, order_item, response_entry, response_item};

use crate::entry::Entry;
use auction::record::Auction;
use ranked::contra::ContraItem;
use terms::order::{Order, Response};

// Each kind says by a test of its own what is contra interest, and `entry_item` serves them all.
pub trait Interest {
    ghost item: { AuctionRow → Self → Option Item };

    // The contra item that this makes in an auction, its whole size counted; none if it is no
    // contra interest there.
    fn item(&self, auction: &Auction) -> Option<ContraItem>
        ensures value { result ≡ item auction.now.row self.now }
        ensures turns { IfSome result (ItemTurns auction.now.row.side) };
}

// The item of an entry that is priced at or below the stop.
fn entry_item(auction: &Auction, entry: &Entry) -> Option<ContraItem>
    ensures value { result ≡ entry_item auction.now.row entry.now }
    ensures turns { IfSome result (ItemTurns auction.now.row.side) }
{
    let price = auction.within_stop(entry.price)?;
    Some(ContraItem {
        user: entry.user,
        number: entry.number,
        price,
        level: auction.level(price),
        customer: entry.customer,
        counted: entry.size,
    })
}

// Whether the order is of the other side in the strategy, and not the Initiating Member's.
fn is_against(order: &Order, auction: &Auction) -> bool
    ensures { result ≡ against auction.now.row order.now }
{
    order.strategy == auction.strategy()
        && order.side != auction.side()
        && order.user != auction.user()
}

// Whether the response is to this auction, and not the Initiating Member's.
fn is_answering(response: &Response, auction: &Auction) -> bool
    ensures { result ≡ answering auction.now.row response.now }
{
    response.auction == auction.id() && response.user != auction.user()
}

impl From<&Order> for Entry {
    ghost from_gives = { λ order entry. entry ≡ order_entry order.now };

    fn from(order: &Order) -> Entry {
        Entry {
            user: order.user,
            number: order.number,
            customer: order.customer,
            size: order.size,
            price: order.price,
        }
    }
}

// A response is never a customer's.
impl From<&Response> for Entry {
    ghost from_gives = { λ response entry. entry ≡ response_entry response.now };

    fn from(response: &Response) -> Entry {
        Entry {
            user: response.user,
            number: response.number,
            customer: false,
            size: response.size,
            price: response.price,
        }
    }
}

impl Interest for Order {
    ghost item = { order_item };

    fn item(&self, auction: &Auction) -> Option<ContraItem> {
        if !is_against(self, auction) {
            return None;
        }
        entry_item(auction, &self.into())
    }
}

impl Interest for Response {
    ghost item = { response_item };

    fn item(&self, auction: &Auction) -> Option<ContraItem> {
        if !is_answering(self, auction) {
            return None;
        }
        entry_item(auction, &self.into())
    }
}
