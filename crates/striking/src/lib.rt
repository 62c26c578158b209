// The kept set of each line for a goal of K pairs, by the inside and outside tables of all lines, made on the board renumbered. The sums of the
// other lines settle what these leave open.
#![tactic(auto)]

mod each;
mod first;
mod live;
mod reach;
mod rest;
mod start;

ghost use Rattle.std.specs.Prelude.{◌≡◌, ◌*◌, ◌^◌, ◌<◌, ◌≤◌, length};
ghost use Rattle.spans.specs.Spans.{sums_size};
ghost use Rattle.ranks.specs.Runs.{RunsOf, FullRuns};
ghost use Rattle.refusal.specs.Reasons.{refusal_of};
ghost use Rattle.striking.specs.Striking.{goal_refusal, struck_by};

use each::Each;
use intervals::Lines;
use live::Live;
use refusal::{Reason, Refused};
use spans::{MOST_SUMS, MOST_TABLE, SMALL_SUMS, SMALL_TABLE};

// The goal's refusal and the struck sets of lines that name each tip of the rack, with room for the sums and the tables of a rack of m tips.
fn strike_in<const SUMS: usize, const CELLS: usize>(
    lines: placements::Lines<'_>,
    goal: u32,
    struck: &mut [u64],
) -> Result<(), Refused>
    requires full { FullRuns lines.rack lines.quantities.now lines.sets.now }
    requires as_lines { length struck.old ≡ length lines.sets.now }
    requires sums { sums_size lines.rack ≤ SUMS }
    requires cells { lines.rack * lines.rack ≤ CELLS }
    requires few_sums { SUMS < 2 ^ 16 }
    requires few_cells { CELLS < 2 ^ 16 }
    ensures answer { refusal_of result ≡ goal_refusal lines.entry.rack lines.entry.quantities.now lines.entry.sets.now goal }
    ensures struck { struck.new ≡ struck_by lines.entry.rack lines.entry.quantities.now lines.entry.sets.now goal struck.old }
{
    let m = lines.rack;
    let size = spans::sums_size(m);
    let mut sums = [0u32; SUMS];
    let sums = &mut sums[..size];
    spans::sum_spans(m, lines.sets, lines.quantities, sums);
    let mut inner = [0u32; CELLS];
    let inner = &mut inner[..m * m];
    table::fill_table(m, sums, inner);
    if intervals::entry_at(m, 0, m, inner) < u64::from(goal) {
        return Err(Reason::GoalMissed.at(0));
    }
    let all = Lines { m, added: 0, sums };
    let mut upper = [0u32; CELLS];
    all.fill_outside(inner, &mut upper);
    let mut widest = [0u8; model::MOST_TIPS];
    let widest = &mut widest[..m];
    let live = Live {
        m,
        goal,
        inner,
        upper: &upper,
    };
    live.list_widest(widest);
    let each = Each {
        lines: lines.sets,
        quantities: lines.quantities,
        goal,
        all,
        inner,
        upper: &upper,
        widest,
    };
    let mut rest = [0u32; SUMS];
    let mut outer = [0u32; CELLS];
    each.strike(&mut rest[..size], &mut outer, struck);
    Ok(())
}

// The six arrays for a rack of more than 16 tips take 83,016 bytes of the stack; for a small rack small ones are filled, as it is quicker.
fn strike_full(lines: placements::Lines<'_>, goal: u32, struck: &mut [u64]) -> Result<(), Refused>
    requires full { FullRuns lines.rack lines.quantities.now lines.sets.now }
    requires as_lines { length struck.old ≡ length lines.sets.now }
    ensures answer { refusal_of result ≡ goal_refusal lines.entry.rack lines.entry.quantities.now lines.entry.sets.now goal }
    ensures struck { struck.new ≡ struck_by lines.entry.rack lines.entry.quantities.now lines.entry.sets.now goal struck.old }
{
    if lines.rack <= 16 {
        return strike_in::<SMALL_SUMS, SMALL_TABLE>(lines, goal, struck);
    }
    strike_in::<MOST_SUMS, MOST_TABLE>(lines, goal, struck)
}

// The same by the ranks of the named tips: no table has a place for another tip. A copy of the sets is renumbered, and the struck sets are named.
fn strike_ranks(
    lines: placements::Lines<'_>,
    names: u64,
    goal: u32,
    struck: &mut [u64],
) -> Result<(), Refused>
    requires named { RunsOf names lines.sets.now }
    requires as_lines { length struck.old ≡ length lines.sets.now }
    ensures answer { refusal_of result ≡ goal_refusal lines.entry.rack lines.entry.quantities.now lines.entry.sets.now goal }
    ensures struck { struck.new ≡ struck_by lines.entry.rack lines.entry.quantities.now lines.entry.sets.now goal struck.old }
{
    let mut rank_list = [0u8; model::MOST_TIPS];
    let mut tip_list = [0u8; model::MOST_TIPS];
    let count = ranks::list_tips(names, lines.rack, &mut rank_list, &mut tip_list);
    if count == 0 {
        if 0 < goal {
            return Err(Reason::GoalMissed.at(0));
        }
        return Ok(());
    }
    let mut sets = [0u64; model::MOST_LINES];
    let sets = &mut sets[..lines.sets.len()];
    sets.copy_from_slice(lines.sets);
    ranks::renumber_lines(sets, &rank_list);
    let ranked = placements::Lines {
        rack: count,
        sets,
        quantities: lines.quantities,
    };
    strike_full(ranked, goal, struck)?;
    ranks::name_sets(&tip_list, struck);
    Ok(())
}

// `GoalMissed` where the best plan has fewer pairs than the goal, and nothing is struck. `names` is the set of the tips that the lines name.
pub fn strike(
    lines: placements::Lines<'_>,
    names: u64,
    goal: u32,
    struck: &mut [u64],
) -> Result<(), Refused>
    requires named { RunsOf names lines.sets.now }
    requires as_lines { length struck.old ≡ length lines.sets.now }
    ensures answer { refusal_of result ≡ goal_refusal lines.entry.rack lines.entry.quantities.now lines.entry.sets.now goal }
    ensures struck { struck.new ≡ struck_by lines.entry.rack lines.entry.quantities.now lines.entry.sets.now goal struck.old }
{
    if names == tips::between(0, lines.rack - 1) {
        return strike_full(lines, goal, struck);
    }
    strike_ranks(lines, names, goal, struck)
}
