/// The most spaces of a bundle. Each is a store with all its actors, and two threads at least can
/// work for each where there are 16 in all.
pub const MOST_SPACES: usize = 8;

const _: () = prove!(2 * MOST_SPACES == 16);
