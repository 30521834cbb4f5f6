/// The left edge of the first actor's line, in pixels: calls stand left of it.
const LEFT: usize = 470;

/// From one actor's line to the next.
const COLUMN: usize = 120;

/// The height of the first entry.
const TOP: usize = 96;

/// From one entry to the next.
const ROW: usize = 24;

/// What is free on the right and below.
const MARGIN: usize = 90;

/// Where an actor's line stands.
pub fn across(line: usize) -> usize {
    LEFT.saturating_add(line.saturating_mul(COLUMN))
}

/// The left and the right edge of what stands round an actor's line.
pub fn column(line: usize) -> (usize, usize) {
    let half = COLUMN / 2;
    let middle = across(line);
    (middle.saturating_sub(half), middle.saturating_add(half))
}

/// How far down an entry stands; entry 1 is the first.
pub fn down(entry: usize) -> usize {
    TOP.saturating_add(entry.saturating_mul(ROW))
}

/// The width of a picture with so many actors.
pub fn width(actors: usize) -> usize {
    across(actors).saturating_add(MARGIN)
}

/// The height of a picture with so many entries.
pub fn height(entries: usize) -> usize {
    down(entries).saturating_add(MARGIN)
}
