// How many places of each list a settlement wrote. The lists are the caller's memory, so that no call
// of a session wants any, and their counts stand beside them.
#[derive(Clone, Copy)]
pub struct Counts {
    pub fills: usize,
    pub items: usize,
}
