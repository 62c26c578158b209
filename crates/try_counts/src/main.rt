// Source document 002's counts: of all assignments of n variables to the values 0 to n, how many are within each bound of the variable cost.
// Each assignment is tried twice: its variables are counted, and it is a board of single tips on which common tip and keep are called.
#![tactic(auto)]

use board::Board;
use std::alloc::{AllocError, Global};
use std::io;
use std::io::{BufWriter, Write};
use try_lib::{Line, board_of, off, set_of, words};

// How many assignments are within the bound, have boards whose common tip has at most `bound` lines off it, and have boards
// that keep accepts for it.
#[derive(Clone, Copy, Default)]
struct Counts {
    within: u64,
    common: u64,
    kept: u64,
}

impl Counts {
    fn add(&mut self, within: bool, common: bool, kept: bool) {
        self.within = self.within.saturating_add(u64::from(within));
        self.common = self.common.saturating_add(u64::from(common));
        self.kept = self.kept.saturating_add(u64::from(kept));
    }
}

// Whether common tip answers for the board with at most `bound` lines off the tip.
fn has_common_tip(board: &Board, bound: u16) -> bool {
    board
        .common_tip()
        .is_ok_and(|common| common.off <= usize::from(bound))
}

// Whether keep accepts the bound for the board.
fn keeps(board: &Board, bound: u16) -> bool {
    let mut kept = *board;
    kept.keep(bound).is_ok()
}

// The lines that may each be picked with the one tip alone.
fn single_tips(alloc: Global, tips: &[u8]) -> Result<Vec<Line>, AllocError> {
    tips.iter()
        .map(|tip| Line {
            tips: set_of(*tip),
            quantity: 1,
        })
        .collect(alloc)
}

// The counts for the assignments of values below `rack` to variables.
fn count_bound(
    alloc: Global,
    assignments: &[Vec<u8>],
    rack: u8,
    bound: u16,
) -> Result<Counts, AllocError> {
    let mut counts = Counts::default();
    for values in assignments {
        let lines = single_tips(alloc, values)?;
        let board = board_of(rack, &lines).unwrap_or(Board::blank());
        counts.add(
            off(rack, &lines, values) <= usize::from(bound),
            has_common_tip(&board, bound),
            keeps(&board, bound),
        );
    }
    Ok(counts)
}

// Prints the counts of so many variables for each bound up to their number.
fn show_counts<W: Write>(alloc: Global, out: &mut W, variables: u8) -> io::Result<()> {
    let rack = variables.saturating_add(1);
    let values: Vec<u8> = (0..rack).collect(alloc)?;
    let assignments = words(alloc, &values, usize::from(variables))?;
    for bound in 0..=u16::from(variables) {
        let counts = count_bound(alloc, &assignments, rack, bound)?;
        writeln!(
            out,
            "variables {variables} assignments {} bound {bound} within {} common tip {} kept {}",
            assignments.len(),
            counts.within,
            counts.common,
            counts.kept
        )?;
    }
    Ok(())
}

fn main(rt: HostRuntime) -> io::Result<()> {
    let mut out = BufWriter::new(rt.alloc(), io::writer(&rt))?;
    show_counts(rt.alloc(), &mut out, 3)?;
    show_counts(rt.alloc(), &mut out, 4)?;
    out.flush()
}
