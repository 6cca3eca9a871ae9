// A table of at most N entries, whose room is taken when it is made, so that no entry wants memory.
ghost use Rattle.std.specs.Prelude.{◌≤◌, vec_len, vec_capacity};

mod kept;

#[derive(Drop)]
pub struct Table<T, const N: usize> {
    items: Vec<T>,
    ghost room: { N ≤ vec_capacity items },
    ghost few: { vec_len items ≤ N },
}
