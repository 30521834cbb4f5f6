use hx_types::MOST_ACTORS;

/// How many actors a clock enrols: room for all of a script, and for as many more. As each makes at
/// most [`MOST_ENTRIES`](hx_types::MOST_ENTRIES), a stamp stays below 2 ^ 26, so that neither a
/// stamp nor the number of an entry, which is its stamp plus 1, ever wraps.
pub const MOST_ENROLLED: u32 = 64;

const _: () = prove!(MOST_ENROLLED as u64 >= MOST_ACTORS);
