// A price band: stands over any market, has its tops, and narrows what it admits.
use terms::price::Price;

mod held;

// How far a top may move, in cents: 1 to 999,999.
#[derive(Clone, Copy)]
pub struct Width {
    cents: Price,
}

#[derive(Drop)]
pub struct Band<M> {
    below: M,
    width: Width,
}
