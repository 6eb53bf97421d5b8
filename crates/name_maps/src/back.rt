// Prints the way back of a map: for a number the word of the name that it reads as, or `refused 8`.
// `title` is what the map is called.
use name_reads::word::{Map, read_number, read_word};
use std::io;

fn read_row(rt: &impl Print, map: Map, title: &str, n: u32) -> io::Result<()> {
    match read_number(map, n) {
        0 => println!(rt; "{title} reads {n} {}", read_word(map, n)),
        refusal => println!(rt; "{title} reads {n} refused {refusal}"),
    }
}

// The numbers from 0 to 16, each entry of the map's table with its neighbours, and the largest.
pub(crate) fn read_back(rt: &impl Print, map: Map, title: &str, table: &[u32]) -> io::Result<()> {
    for n in 0..=16 {
        read_row(rt, map, title, n)?;
    }
    for entry in table {
        for n in entry.saturating_sub(1)..=entry.saturating_add(1) {
            read_row(rt, map, title, n)?;
        }
    }
    read_row(rt, map, title, u32::MAX)
}
