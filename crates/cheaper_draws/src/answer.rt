// The line that is printed for a question.
use cheaper::search::{Cheaper, Refusal, number_of};
use played::print::Printer;
use std::io::Write;

// The first `count` places of an order, after its price and the floor.
fn put_order<W: Write>(out: &mut Printer<W>, r: Cheaper, count: usize) {
    let _ = write!(out, "price {} floor {} order", r.price, r.floor);
    for place in r.order.iter().take(count) {
        let _ = write!(out, " {place}");
    }
    let _ = writeln!(out, "");
}

// The price, the floor and the order, or the number of the refusal.
pub(crate) fn put_cheaper<W: Write>(
    out: &mut Printer<W>,
    r: Result<Cheaper, Refusal>,
    count: usize,
) {
    match r {
        Ok(found) => put_order(out, found, count),
        Err(_) => {
            let _ = writeln!(out, "refused {}", number_of(r));
        }
    }
}
