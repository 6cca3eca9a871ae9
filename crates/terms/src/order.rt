// Complex orders and responses, as they rest in a session.
use crate::side::Side;

#[derive(Clone, Copy)]
pub struct Order {
    pub number: u32,
    pub user: u32,
    pub strategy: u32,
    pub side: Side,
    pub customer: bool,
    pub size: u32,
    pub price: i32,
}

// A response to an auction. It is never a customer's.
#[derive(Clone, Copy)]
pub struct Response {
    pub number: u32,
    pub user: u32,
    pub auction: u32,
    pub side: Side,
    pub size: u32,
    pub price: i32,
}
