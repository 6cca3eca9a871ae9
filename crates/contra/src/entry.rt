// What orders and responses have alike.
#[derive(Drop)]
pub struct Entry {
    pub user: u32,
    pub number: u32,
    pub customer: bool,
    pub size: u32,
    pub price: i32,
}
