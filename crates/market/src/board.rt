// A board: one top for each component and side, set or cleared by each notice.
use crate::quoted::Quoted;
use terms::side::Side;
use terms::top::Top;

mod kept;

#[derive(Clone, Copy)]
pub enum BoardNotice {
    Set(Quoted),
    Clear { component: u32, side: Side },
}

// The two tops of a component.
#[derive(Clone, Copy, Default)]
struct Tops {
    bid: Option<Top>,
    offer: Option<Top>,
}

#[derive(Clone, Copy)]
pub struct Board {
    tops: [Tops; 16],
}
