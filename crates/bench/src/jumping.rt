//! An order of places whose jumps a processor doesn't learn.

/// The prime nearest to 2^32 divided by the golden ratio.
const STEP: u32 = 0x9E37_79B1;

/// The place of a turn, of 256. Each 256 turns take another order, and miss some places.
pub fn place_at(turn: u32) -> u8 {
    // (the multiples of the prime alone jump too, but a newer processor learns their order, and a search with branches gains by that)
    let once = turn.wrapping_mul(STEP);
    let twice = (once ^ once >> 15).wrapping_mul(STEP);
    ((twice ^ twice >> 13).wrapping_mul(STEP) >> 24) as u8
}
