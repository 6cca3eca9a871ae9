// A depth book: up to 64 orders, added one by one and withdrawn by number alone. Its room is
// taken when it is made, so that no notice wants memory.
use crate::quoted::Quoted;
use terms::side::Side;
use terms::table::Table;
use terms::top::Top;

mod depth;

#[derive(Clone, Copy)]
pub enum BookNotice {
    Add { number: u32, quoted: Quoted },
    Withdraw { number: u32 },
}

#[derive(Clone, Copy)]
pub struct BookOrder {
    number: u32,
    component: u32,
    side: Side,
    top: Top,
}

#[derive(Drop)]
pub struct DepthBook {
    orders: Table<BookOrder, 64>,
}
