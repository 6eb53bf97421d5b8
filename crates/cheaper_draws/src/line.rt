// The line of a question: the budget, how many pieces there are, and eighteen numbers for each.
use cheaper::pieces::{MAX_PIECES, Piece};
use cheaper::search::Pieces;
use flat::line::{Line, Wrong};

// How many pieces a line may have; those past the eighth are read and not kept.
const MAX_READ: usize = 64;

#[derive(Clone, Copy)]
pub(crate) struct Question {
    pub budget: u32,
    pub pieces: Pieces,
}

fn take_piece(line: &mut Line) -> Result<Piece, Wrong> {
    let pipeline = line.take_u32()?;
    let mut slots = [0u32; 16];
    for slot in slots.iter_mut() {
        *slot = line.take_u32()?;
    }
    let index = line.take_u32()?;
    Ok(Piece {
        pipeline,
        slots,
        index,
    })
}

fn take_pieces(line: &mut Line, count: usize) -> Result<[Piece; MAX_PIECES], Wrong> {
    let none = Piece {
        pipeline: 0,
        slots: [0; 16],
        index: 0,
    };
    let mut pieces = [none; MAX_PIECES];
    for i in 0..count {
        let piece = take_piece(line)?;
        if let Some(place) = pieces.get_mut(i) {
            *place = piece;
        }
    }
    Ok(pieces)
}

pub(crate) fn take_question(line: &mut Line) -> Result<Question, Wrong> {
    let budget = line.take_u32()?;
    let count = line.take_count(MAX_READ)?;
    let pieces = take_pieces(line, count)?;
    line.end()?;
    let pieces = Pieces { pieces, count };
    Ok(Question { budget, pieces })
}
