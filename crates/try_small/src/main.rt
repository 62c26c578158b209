// Small boards solved by trying every plan by lines, counted in placements, compared with what common tip, keep, quick, best and exact
// sharing and the plan along the list answer.
#![tactic(auto)]

mod calls;
mod small;
mod tally;

use crate::calls::{try_along, try_best, try_common_tip, try_exact, try_keeps, try_quick};
use crate::small::Small;
use crate::tally::{Calls, Tally};
use board::Board;
use std::alloc::{AllocError, Global};
use std::io;
use std::io::{BufWriter, Write};
use try_lib::{Line, board_by_hand, board_of, changes, set_of, words};

// The jobs of one rack that are tried: those of at least and at most so many lines.
struct Cases {
    rack: u8,
    least: usize,
    most: usize,
}

// Jobs in which each line has one of these quantities.
struct Round {
    quantities: &'static [u8],
    name: &'static str,
    cases: [Cases; 4],
}

const BY_LINES: Round = Round {
    quantities: &[1],
    name: "",
    cases: [
        Cases {
            rack: 1,
            least: 0,
            most: 3,
        },
        Cases {
            rack: 2,
            least: 0,
            most: 4,
        },
        Cases {
            rack: 3,
            least: 0,
            most: 4,
        },
        Cases {
            rack: 4,
            least: 1,
            most: 3,
        },
    ],
};

const BY_PLACEMENTS: Round = Round {
    quantities: &[1, 2, 3],
    name: " quantities 1 to 3",
    cases: [
        Cases {
            rack: 1,
            least: 1,
            most: 2,
        },
        Cases {
            rack: 2,
            least: 1,
            most: 4,
        },
        Cases {
            rack: 3,
            least: 1,
            most: 3,
        },
        Cases {
            rack: 4,
            least: 1,
            most: 2,
        },
    ],
};

// A refused board is compared as the blank one.
fn try_board(alloc: Global, small: &Small<'_>) -> Result<Tally, AllocError> {
    let board = board_of(small.rack, &small.lines).unwrap_or(Board::blank());
    let by_hand = board_by_hand(small.rack, &small.lines);
    Ok(Tally {
        boards: Calls::one(false, changes(&by_hand, &board)),
        common_tip: try_common_tip(small, &board),
        keep: try_keeps(alloc, small, &board)?,
        quick: try_quick(small, &board),
        best: try_best(alloc, small, &board)?,
        along: try_along(small, &board),
        exact: try_exact(small, &board),
    })
}

// Tries every board of so many lines over the rack, each with every quantity of these, where `plans` are all plans of so many lines.
fn try_boards(
    alloc: Global,
    rack: u8,
    count: usize,
    quantities: &[u8],
    plans: &[Vec<u8>],
) -> Result<Tally, AllocError> {
    let sets: Vec<u64> = (1..set_of(rack)).collect(alloc)?;
    let boards = words(alloc, &sets, count)?;
    let mut tally = Tally::default();
    for quantities in &words(alloc, quantities, count)? {
        for sets in &boards {
            let lines = sets
                .iter()
                .zip(quantities)
                .map(|(tips, quantity)| Line {
                    tips: *tips,
                    quantity: *quantity,
                })
                .collect(alloc)?;
            tally += try_board(alloc, &Small::new(alloc, rack, lines, plans)?)?;
        }
    }
    Ok(tally)
}

fn try_round<W: Write>(alloc: Global, out: &mut W, round: &Round) -> io::Result<()> {
    let name = round.name;
    let mut total = Tally::default();
    for cases in &round.cases {
        let rack = cases.rack;
        let tips: Vec<u8> = (0..rack).collect(alloc)?;
        for count in cases.least..=cases.most {
            let plans = words(alloc, &tips, count)?;
            let tally = try_boards(alloc, rack, count, round.quantities, &plans)?;
            let all = plans.len();
            writeln!(out, "rack {rack} lines {count} plans {all}{name} {tally}")?;
            total += tally;
        }
    }
    writeln!(out, "all{name} {total}")
}

fn main(rt: HostRuntime) -> io::Result<()> {
    let mut out = BufWriter::new(rt.alloc(), io::writer(&rt))?;
    try_round(rt.alloc(), &mut out, &BY_LINES)?;
    try_round(rt.alloc(), &mut out, &BY_PLACEMENTS)?;
    out.flush()
}
