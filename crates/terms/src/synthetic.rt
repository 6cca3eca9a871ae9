// A strategy's synthetic price: its SBB or SBO, marked where one of its tops is a customer's.
mod summed;

#[derive(Clone, Copy, PartialEq, Eq, Debug)]
pub struct Synthetic {
    pub price: i32,
    pub customer: bool,
}
