// Whether a table from other software fits the lines and the claim: by the ranks of the named tips where these are few and the table is spread,
// else by all tips.
ghost use Rattle.std.specs.Prelude.{◌≡◌, true, ◌*◌, ◌^◌, ◌≤◌, ◌<◌, length};
ghost use Rattle.model.specs.Plan.{has};
ghost use Rattle.spans.specs.Spans.{sums_size};
ghost use Rattle.ranks.specs.Listed.{Ranks};
ghost use Rattle.ranks.specs.Runs.{RunsOf};
ghost use Rattle.checking.specs.Checking.{table_ok};
ghost use Rattle.checking.specs.Spread.{is_spread};

use crate::ranked::Wide;
use crate::tabled::Foreign;
use placements::Lines;
use spans::{MOST_SUMS, SMALL_SUMS, SMALL_TABLE};

// By all tips of the rack, with room for its sums.
// The clauses on a table's length stay here and below: it is the size of a buffer of the caller.
fn fits_in<const SUMS: usize>(lines: Lines<'_>, names: u64, claim: u32, table: &[u32]) -> bool
    requires named { RunsOf names lines.sets.now }
    requires cells { lines.rack * lines.rack ≤ length table.now }
    requires sums { sums_size lines.rack ≤ SUMS }
    requires few { SUMS < 2 ^ 16 }
    ensures { result ≡ table_ok lines.entry.rack lines.entry.quantities.now lines.entry.sets.now claim table.now }
{
    let m = lines.rack;
    let mut room = [0u32; SUMS];
    let sums = &mut room[..spans::sums_size(m)];
    spans::sum_spans(m, lines.sets, lines.quantities, sums);
    let foreign = Foreign { m, sums, table };
    foreign.fits(names, claim)
}

// For a small rack in a small room, which is cleared more quickly.
fn fits_rack(lines: Lines<'_>, names: u64, claim: u32, table: &[u32]) -> bool
    requires named { RunsOf names lines.sets.now }
    requires cells { lines.rack * lines.rack ≤ length table.now }
    ensures { result ≡ table_ok lines.entry.rack lines.entry.quantities.now lines.entry.sets.now claim table.now }
{
    if lines.rack <= 16 {
        return fits_in::<SMALL_SUMS>(lines, names, claim, table);
    }
    fits_in::<MOST_SUMS>(lines, names, claim, table)
}

// Of a spread table the numbers of the named tips are enough, by their ranks. A copy of the sets is renumbered. The room is for 16 named tips: for
// 64 the numbers would take 16 KB more of the stack.
fn fits_spread(wide: &Wide<'_>, rank_list: &[u8], lines: Lines<'_>, claim: u32) -> bool
    requires named { RunsOf wide.now.names lines.sets.now }
    requires rack { wide.now.m ≡ lines.rack }
    requires ranked { Ranks (has wide.now.names) wide.now.m rank_list.now }
    requires spread { is_spread wide.now.names wide.now.m wide.now.table.now ≡ true }
    requires some { 0 < wide.now.count }
    requires few { wide.now.count ≤ 16 }
    ensures { result ≡ table_ok lines.entry.rack lines.entry.quantities.now lines.entry.sets.now claim wide.now.table.now }
{
    let mut sets = [0u64; model::MOST_LINES];
    let sets = &mut sets[..lines.len()];
    unplanned::copy_sets(lines.sets, sets);
    ranks::renumber_lines(sets, rank_list);
    let names = ranks::names_of(sets);
    let mut own = [0u32; SMALL_TABLE];
    let own = &mut own[..wide.count * wide.count];
    wide.gather(own);
    let ranked = Lines {
        rack: wide.count,
        sets,
        quantities: lines.quantities,
    };
    fits_in::<SMALL_SUMS>(ranked, names, claim, own)
}

// Where no tip is named no entry has a split, and the claim alone is asked.
pub fn table_fits(lines: Lines<'_>, names: u64, claim: u32, table: &[u32]) -> bool
    requires named { RunsOf names lines.sets.now }
    requires cells { lines.rack * lines.rack ≤ length table.now }
    ensures { result ≡ table_ok lines.entry.rack lines.entry.quantities.now lines.entry.sets.now claim table.now }
{
    let mut rank_list = [0u8; model::MOST_TIPS];
    let mut tip_list = [0u8; model::MOST_TIPS];
    let count = ranks::list_tips(names, lines.rack, &mut rank_list, &mut tip_list);
    let wide = Wide {
        m: lines.rack,
        names,
        count,
        tips: &tip_list,
        table,
    };
    if count == 0 {
        return intervals::entry_at(lines.rack, 0, lines.rack, table) == u64::from(claim);
    }
    if count <= 16 && count < lines.rack && wide.is_spread() {
        return fits_spread(&wide, &rank_list, lines, claim);
    }
    fits_rack(lines, names, claim, table)
}
