// The line before a session, with two numbers, and the line that is printed for it.
use flat::line::{Line, Wrong};
use played::print::Printer;
use spans::{Span, span_number};
use std::io::Write;

// The lower and the upper first instance.
#[derive(Clone, Copy)]
pub(crate) struct Bounds {
    pub lower: u32,
    pub upper: u32,
}

pub(crate) fn take_bounds(line: &mut Line) -> Result<Bounds, Wrong> {
    let lower = line.take_u32()?;
    let upper = line.take_u32()?;
    line.end()?;
    Ok(Bounds { lower, upper })
}

// The masks, or the number of the refusal.
pub(crate) fn put_span<W: Write>(out: &mut Printer<W>, span: Span) {
    let _ = match span {
        Span::Masks(always, sometimes) => writeln!(out, "always {always} sometimes {sometimes}"),
        Span::Broken(_) | Span::Reversed => writeln!(out, "refused {}", span_number(span)),
    };
}
