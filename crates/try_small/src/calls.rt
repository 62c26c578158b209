// Each call on the board of a small job, compared with what trying every plan gives.
use crate::small::Small;
use crate::tally::Calls;
use board::{AlongCounts, Board, Shared};
use refusal::{Reason, Unkept};
use std::alloc::{AllocError, Global};
use try_lib::{
    JUNK, JUNK_PLACE, PLAN_ROOM, TABLE_ROOM, board_by_hand, changed, changes, placements,
};

pub fn try_common_tip(small: &Small<'_>, board: &Board) -> Calls {
    let told = board
        .common_tip()
        .map(|common| (common.top, common.off, common.tips));
    let off = small.least_off();
    let top = placements(&small.lines).saturating_sub(off);
    let tips = if top == 0 { 0 } else { small.busiest(top) };
    Calls::one(false, usize::from(told != Ok((top, off, tips))))
}

// Keep within k, refused below the least number of placements off the most used tip.
fn try_keep(
    alloc: Global,
    small: &Small<'_>,
    board: &Board,
    least: u16,
    k: u16,
) -> Result<Calls, AllocError> {
    let mut kept = *board;
    let told = kept.keep(k);
    let margin = i32::from(k).saturating_sub(i32::from(least));
    let refused = Err(Unkept {
        refused: Reason::NoPlan.at(0),
        margin,
    });
    let (expected, pruned) = if k < least {
        (refused, *board)
    } else {
        let supported = small.supported(alloc, usize::from(k))?;
        (Ok(margin), board_by_hand(small.rack, &supported))
    };
    let wrong = usize::from(told != expected).saturating_add(changes(&pruned, &kept));
    Ok(Calls::one(told == refused, wrong))
}

// Keep for each k from 0 to one more than there are placements.
pub fn try_keeps(alloc: Global, small: &Small<'_>, board: &Board) -> Result<Calls, AllocError> {
    let most = u16::try_from(placements(&small.lines)).unwrap_or(u16::MAX);
    let least = u16::try_from(small.least_off()).unwrap_or(u16::MAX);
    let mut calls = Calls::default();
    for k in 0..=most.saturating_add(1) {
        calls += try_keep(alloc, small, board, least, k)?;
    }
    Ok(calls)
}

// What is wrong with an accepted plan: its tips, its number of pairs, its bytes past the lines.
fn wrong_plan(small: &Small<'_>, plan: &[u8], pairs: usize) -> usize {
    let (plan, rest) = plan.split_at(plan.len().min(small.lines.len()));
    small
        .misses(plan)
        .saturating_add(usize::from(small.pairs(plan) != pairs))
        .saturating_add(changed(rest, &JUNK))
}

pub fn try_quick(small: &Small<'_>, board: &Board) -> Calls {
    let mut plan = [JUNK; PLAN_ROOM];
    let wrong = match board.quick(None, &mut plan) {
        Ok(pairs) => {
            let pairs = pairs as usize;
            let below_half = pairs.saturating_add(pairs) < small.most_pairs();
            wrong_plan(small, &plan, pairs).saturating_add(usize::from(below_half))
        }
        Err(_) => 1,
    };
    Calls::one(false, wrong)
}

// What is wrong with an accepted table: its places for the rack, and those past them.
fn wrong_table(expected: &[usize], table: &[u32]) -> usize {
    let (table, rest) = table.split_at(table.len().min(expected.len()));
    table
        .iter()
        .zip(expected)
        .filter(|(place, pairs)| **place as usize != **pairs)
        .count()
        .saturating_add(changed(rest, &JUNK_PLACE))
}

pub fn try_best(alloc: Global, small: &Small<'_>, board: &Board) -> Result<Calls, AllocError> {
    let mut plan = [JUNK; PLAN_ROOM];
    let mut table = [JUNK_PLACE; TABLE_ROOM];
    let told = board
        .best(None, &mut plan, &mut table)
        .map(|pairs| pairs as usize);
    let (expected, laid) = match small.first_no_run() {
        Some(place) => (
            Err(Reason::NoRun.at(place)),
            changed(&plan, &JUNK).saturating_add(changed(&table, &JUNK_PLACE)),
        ),
        None => {
            let pairs = small.most_pairs();
            let table = wrong_table(&small.table(alloc)?, &table);
            (
                Ok(pairs),
                wrong_plan(small, &plan, pairs).saturating_add(table),
            )
        }
    };
    let refused = told.is_err_and(|refused| refused.reason == Reason::NoRun);
    let wrong = usize::from(told != expected).saturating_add(laid);
    Ok(Calls::one(refused, wrong))
}

// The plan along the list from a mounted tip, or none.
fn try_along_from(small: &Small<'_>, board: &Board, mounted: Option<u8>) -> Calls {
    let mut plan = [JUNK; PLAN_ROOM];
    let wrong = match board.along(mounted.map(usize::from), &mut plan) {
        Ok(AlongCounts { changes, pairs }) => wrong_plan(small, &plan, pairs as usize)
            .saturating_add(usize::from(changes != small.fewest_changes(mounted)))
            .saturating_add(usize::from(changes != small.tip_changes(mounted, &plan))),
        Err(_) => 1,
    };
    Calls::one(false, wrong)
}

// The plan along the list without a mounted tip, and from each tip of the rack.
pub fn try_along(small: &Small<'_>, board: &Board) -> Calls {
    let mut calls = try_along_from(small, board, None);
    for tip in 0..small.rack {
        calls += try_along_from(small, board, Some(tip));
    }
    calls
}

// The prices at which exact sharing is tried.
const PRICES: [u32; 4] = [0, 1, 4, u32::MAX];

// Exact sharing at a price, and the places behind its table.
fn try_exact_at(small: &Small<'_>, board: &Board, price: u32) -> Calls {
    let mut plan = [JUNK; PLAN_ROOM];
    let mut table = [JUNK_PLACE; TABLE_ROOM];
    let wrong = match board.exact(None, price, &mut plan, &mut table) {
        Ok(Shared { pairs, tips }) => {
            let pairs = pairs as usize;
            let best = small.none_better(price as usize, pairs, tips);
            let behind = &table[small.exact_places().min(TABLE_ROOM)..];
            wrong_plan(small, &plan, pairs)
                .saturating_add(usize::from(tips != small.tips_used(&plan)))
                .saturating_add(usize::from(!best))
                .saturating_add(changed(behind, &JUNK_PLACE))
        }
        Err(_) => 1,
    };
    Calls::one(false, wrong)
}

// Exact sharing at each price.
pub fn try_exact(small: &Small<'_>, board: &Board) -> Calls {
    let mut calls = Calls::default();
    for price in PRICES {
        calls += try_exact_at(small, board, price);
    }
    calls
}
