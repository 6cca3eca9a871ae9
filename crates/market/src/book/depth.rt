ghost use Rattle.std.specs.Prelude.{◌≡◌, ◌<◌, ◌&&◌, List, [], length, position, IfOk, ◌==◌, is_some};
ghost use Rattle.std.specs.Result.{result_err};
ghost use Rattle.terms.specs.Ranges.{number as number_in_range};
ghost use Rattle.terms.specs.Tables.{entries};
ghost use Rattle.terms.specs.Tops.{top_of};
ghost use Rattle.market.specs.declared.book.BookOrder.{BookOrder};
ghost use Rattle.market.specs.Books.{Fits, IsOrder, ShowsBest, add_fault, best_among, better, book_after, book_fault, book_top, changed, is_at, joined, place_of, with_order, withdraw_fault};
ghost use Rattle.std.proofs.Common.{rules};

use super::{BookNotice, BookOrder, DepthBook};
use crate::fault::{Cause, Fault};
use crate::interface::Market;
use crate::place::Place;
use crate::quoted::Quoted;
use std::alloc::{AllocError, Global};
use terms::side::Side;
use terms::table::Table;
use terms::top::Top;

// Whether price a is better than price b on this side.
fn better(side: Side, a: &Top, b: &Top) -> bool
    ensures { result ≡ better side a.now b.now }
{
    match side {
        Side::Buy => a.price > b.price,
        Side::Sell => a.price < b.price,
    }
}

// The better of two tops of one side; at one price, a customer's if either is. Asked both ways of
// `better`, which knows that the sides run opposite ways.
fn joined(side: Side, best: &Top, top: &Top) -> Top
    ensures { result ≡ joined side best.now top.now }
{
    if better(side, best, top) {
        *best
    } else if better(side, top, best) {
        *top
    } else {
        Top {
            price: best.price,
            customer: best.customer || top.customer,
        }
    }
}

impl BookOrder {
    fn is_at(&self, place: Place) -> bool
        ensures { result ≡ is_at place.component place.side self.now }
    {
        self.component == place.component && self.side == place.side
    }

    // The best so far of a place, with this order if it is there.
    fn join(&self, place: Place, best: Option<Top>) -> Option<Top>
        ensures { result ≡ with_order place.component place.side best self.now }
    {
        if !self.is_at(place) {
            return best;
        }
        Some(best.map_or(self.top, |best| joined(place.side, &best, &self.top)))
    }
}

// The best so far of a place, with those of these orders that are there.
fn best_among(place: Place, best: Option<Top>, orders: &[BookOrder]) -> Option<Top>
    ensures { result ≡ best_among place.component place.side best orders.now }
{
    orders
        .iter()
        .fold(best, |best, order| order.join(place, best))
}

// The index of the order with this number, searched for: a map would want memory at each notice.
fn index_of(number: u32, orders: &[BookOrder]) -> Option<usize>
    ensures { result ≡ position (λ o. o.number == number) orders.now }
{
    orders.iter().position(|order| order.number == number)
}

fn is_number(number: u32) -> bool
    ensures { result ≡ number_in_range number }
{
    (1..=999_999).contains(&number)
}

// What an admitted notice does to the orders.
#[derive(Clone, Copy)]
enum Change {
    Added(BookOrder),
    // the index, by which the table takes an order out
    Withdrawn(usize),
}

// The order that a notice adds, if a book with these orders admits it.
fn added(orders: &[BookOrder], number: u32, quoted: &Quoted) -> Result<BookOrder, Fault>
    ensures fault { result_err result ≡ add_fault orders.now number quoted.now.component (is_some (top_of quoted.now.price quoted.now.customer)) }
    ensures order { IfOk result (IsOrder number quoted.now) }
    ensures room { IfOk result (λ o. length orders.now < 64) }
{
    let Quoted {
        component,
        side,
        ..
    } = *quoted;
    Place::new(component, side).ok_or(Cause::OutOfRange.nowhere())?;
    let top = quoted.top().ok_or(Cause::OutOfRange.at(component))?;
    if !is_number(number) {
        return Err(Cause::OutOfRange.at(component));
    }
    if orders.len() >= 64 {
        return Err(Cause::BookFull.at(component));
    }
    if index_of(number, orders).is_some() {
        return Err(Cause::OrderNumber.at(component));
    }
    Ok(BookOrder {
        number,
        component,
        side,
        top,
    })
}

// The place of the order that a notice withdraws, if a book with these orders admits it.
fn withdrawn(orders: &[BookOrder], number: u32) -> Result<usize, Fault>
    ensures fault { result_err result ≡ withdraw_fault orders.now number }
    ensures place { IfOk result (λ at. at ≡ place_of number orders.now) }
    ensures within { IfOk result (λ at. at < length orders.now) }
{
    if !is_number(number) {
        return Err(Cause::OutOfRange.nowhere());
    }
    index_of(number, orders).ok_or(Cause::OrderNumber.nowhere())
}

impl Change {
    // What the notice does, if a book with these orders admits it.
    fn of(orders: &[BookOrder], notice: &BookNotice) -> Result<Change, Fault>
        ensures fault { result_err result ≡ book_fault orders.now notice.now }
        ensures after { IfOk result (λ c. changed orders.now c ≡ book_after orders.now notice.now) }
        ensures fits { IfOk result (Fits orders.now) }
    {
        match notice {
            BookNotice::Add { number, quoted } => added(orders, *number, quoted).map(Change::Added),
            BookNotice::Withdraw { number } => withdrawn(orders, *number).map(Change::Withdrawn),
        }
    }

    // The best of a place among what it leaves of these orders.
    fn best(&self, place: Place, orders: &[BookOrder]) -> Option<Top>
        requires { Fits orders.now self.now }
        ensures { result ≡ best_among place.component place.side None (changed orders.now self.now) }
    {
        match self {
            Change::Added(order) => order.join(place, best_among(place, None, orders)),
            Change::Withdrawn(at) => {
                let before = best_among(place, None, &orders[..*at]);
                best_among(place, before, &orders[*at + 1..])
            }
        }
    }
}

impl DepthBook {
    // A book that holds no orders.
    pub fn new(heap: Global) -> Result<DepthBook, AllocError>
        ensures { IfOk result (λ b. entries b.orders ≡ []) }
    {
        let orders = Table::new(heap)?;
        Ok(DepthBook { orders })
    }
}

impl Market for DepthBook {
    type Notice = BookNotice;

    type Fault = Fault;

    ghost Model = { List BookOrder };

    ghost model = { λ b. entries b.orders };

    ghost top = { book_top };

    ghost fault = { book_fault };

    ghost after = { book_after };

    ghost placed = { Prim.search rules };

    #[tactic(auto, using(crate::proofs::Besting::shows_best))]
    fn tell(&mut self, component: u32, side: Side) -> Option<Top>
        ensures value { result ≡ book_top (entries self.old.orders) component side }
        ensures same { self.new ≡ self.old }
        ensures best { ShowsBest (entries self.old.orders) component side result }
    {
        let place = Place::new(component, side)?;
        best_among(place, None, self.orders.entries())
    }

    fn foresee(&mut self, notice: &BookNotice, component: u32, side: Side) -> Option<Top> {
        let place = Place::new(component, side)?;
        let orders = self.orders.entries();
        match Change::of(orders, notice) {
            Ok(change) => change.best(place, orders),
            Err(_) => best_among(place, None, orders),
        }
    }

    fn take(&mut self, notice: &BookNotice) -> Result<(), Fault> {
        match Change::of(self.orders.entries(), notice)? {
            Change::Added(order) => {
                let _added = self.orders.add(order);
            }
            Change::Withdrawn(at) => self.orders.remove(at),
        }
        Ok(())
    }
}
