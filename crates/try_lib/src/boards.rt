// The boards of small jobs, by the calls and by hand, and what differs between two boards.
use crate::jobs::Line;
use board::{Board, Stage};
use refusal::Refused;

// The board that open, add for each line, and close give.
pub fn board_of(rack: u8, lines: &[Line]) -> Result<Board, Refused> {
    let mut board = Board::open(usize::from(rack))?;
    for line in lines {
        board.add(line.tips, line.quantity)?;
    }
    board.close()?;
    Ok(board)
}

// The closed board of the lines, written down without a call.
pub fn board_by_hand(rack: u8, lines: &[Line]) -> Board {
    let mut sets = [0; 512];
    let mut quantities = [0; 512];
    for (set, line) in sets.iter_mut().zip(lines) {
        *set = line.tips;
    }
    for (quantity, line) in quantities.iter_mut().zip(lines) {
        *quantity = line.quantity;
    }
    Board {
        rack: usize::from(rack),
        stage: Stage::Closed,
        count: lines.len(),
        sets,
        quantities,
    }
}

fn count_changes<T: PartialEq>(a: &[T], b: &[T]) -> usize {
    a.iter().zip(b).filter(|(x, y)| x != y).count()
}

// How many of rack, stage, count, the 512 sets and the 512 quantities differ between two boards.
pub fn changes(a: &Board, b: &Board) -> usize {
    usize::from(a.rack != b.rack)
        .saturating_add(usize::from(a.stage != b.stage))
        .saturating_add(usize::from(a.count != b.count))
        .saturating_add(count_changes(&a.sets, &b.sets))
        .saturating_add(count_changes(&a.quantities, &b.quantities))
}
