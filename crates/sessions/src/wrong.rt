// A line that is wrong, by its number.
use flat::line::Wrong;

#[derive(Clone, Copy)]
pub struct WrongLine {
    pub number: u64,
    pub wrong: Wrong,
}
