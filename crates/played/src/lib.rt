// How what a line of the flat form records is printed, and how long the lists of a line may be.
#![tactic(auto)]

pub mod blocks;
pub mod print;

// How many numbers a line's list may have: characters of a label; queries, or words of barriers,
// offsets and immediates; words of regions.
pub const MAX_LABEL: usize = 65537;

pub const MAX_NUMBERS: usize = 65536;

pub const MAX_REGIONS: usize = 12291;
