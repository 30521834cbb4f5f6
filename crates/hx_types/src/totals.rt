/// How many posts of a driver's actors were delivered, lost and delivered twice, of all that they
/// posted: `posts` is the sum of the other three.
#[derive(Clone, Copy)]
pub struct Totals {
    pub posts: u64,
    pub deliver: u64,
    pub lose: u64,
    pub twice: u64,
}
