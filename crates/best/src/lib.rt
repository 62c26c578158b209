// Best sharing over slices, on the board renumbered: its placements are summed, its table filled and its plan laid; then both are made the board's.
#![tactic(auto)]

ghost use Rattle.std.specs.Prelude.{◌≡◌, ◌+◌, ◌*◌, ◌^◌, ◌<◌, ◌≤◌, length, take};
ghost use Rattle.model.specs.Interval.{C, table as table_of};
ghost use Rattle.model.specs.Plan.{has};
ghost use Rattle.model.specs.Renumber.{names as names_of, rank};
ghost use Rattle.placements.specs.Repeated.{repeated};
ghost use Rattle.placements.specs.Good.{All-prop};
ghost use Rattle.placements.specs.Plans.{best_plan_q};
ghost use Rattle.spans.specs.Spans.{sums_size};
ghost use Rattle.head.specs.OnHead.{on_head};
ghost use Rattle.ranks.specs.Runs.{NamedRuns, FullRuns};
ghost use Rattle.best.specs.Runs.{PlanLent, Ranked, rank_places, TableByRanks};
ghost use Rattle.std.proofs.Props.{props};

use layout::Counted;
use spans::{MOST_SUMS, MOST_TABLE, SMALL_SUMS, SMALL_TABLE};
use spread::Ranking;

// The most tips, in a rack or named, for which the places of a small rack are enough.
const SMALL_RACK: usize = 16;

// Unbroken runs that name every tip of a rack of m tips, and the tip that is mounted.
#[derive(Clone, Copy)]
struct Full<'a> {
    m: usize,
    mounted: Option<usize>,
    sets: &'a [u64],
    quantities: &'a [u8],
    ghost runs: { FullRuns m quantities.now sets.now } by { Prim.hlevel (All-prop, props) },
}

impl Full<'_> {
    // The plan and the table, with room for the sums and for the owner of each run.
    // The clause on the table's length stays here and below: it is the size of a buffer that is written.
    fn plan_in<const SUMS: usize, const OWNERS: usize>(&self, plan: &mut [u8], table: &mut [u32])
        requires sums { sums_size self.now.m ≤ SUMS }
        requires owners { self.now.m * self.now.m ≤ OWNERS }
        requires few { SUMS * 4 + OWNERS < 2 ^ 63 }
        requires lines { length plan.old ≡ length self.now.sets.now }
        requires cells { length table.old ≡ self.now.m * self.now.m }
        ensures plan { plan.new ≡ best_plan_q (on_head self.now.mounted) self.now.m self.now.quantities.now self.now.sets.now }
        ensures table { table.new ≡ table_of self.now.m (repeated self.now.quantities.now self.now.sets.now) }
    {
        let m = self.m;
        let mut sums = [0u32; SUMS];
        let sums = &mut sums[..spans::sums_size(m)];
        let mut owner = [0u8; OWNERS];
        spans::sum_spans(m, self.sets, self.quantities, sums);
        table::fill_table(m, sums, table);
        let counted = Counted {
            m,
            mounted: self.mounted,
            sums,
            table,
        };
        counted.plan_lines(self.sets, &mut owner, plan);
    }

    // The same: for a small rack in small places, which are made more quickly.
    fn plan_runs(&self, plan: &mut [u8], table: &mut [u32])
        requires lines { length plan.old ≡ length self.now.sets.now }
        requires cells { length table.old ≡ self.now.m * self.now.m }
        ensures plan { plan.new ≡ best_plan_q (on_head self.now.mounted) self.now.m self.now.quantities.now self.now.sets.now }
        ensures table { table.new ≡ table_of self.now.m (repeated self.now.quantities.now self.now.sets.now) }
    {
        if self.m <= SMALL_RACK {
            self.plan_in::<SMALL_SUMS, SMALL_TABLE>(plan, table);
        } else {
            self.plan_in::<MOST_SUMS, MOST_TABLE>(plan, table);
        }
    }
}

// The same at the front of the table, for a rack that may have no tip: then there is no line.
fn plan_ranks(
    r: usize,
    mounted: Option<usize>,
    sets: &[u64],
    quantities: &[u8],
    plan: &mut [u8],
    table: &mut [u32],
)
    requires { Ranked r quantities.now sets.now plan.old table.old }
    ensures plan { plan.new ≡ best_plan_q (on_head mounted) r quantities.now sets.now }
    ensures table { take (r * r) table.new ≡ table_of r (repeated quantities.now sets.now) }
{
    if r == 0 {
        return;
    }
    let full = Full {
        m: r,
        mounted,
        sets,
        quantities,
    };
    full.plan_runs(plan, &mut table[..r * r]);
}

// A rack of m tips, the tip that is mounted, and the tips that the lines name.
#[derive(Clone, Copy)]
struct Rack {
    m: usize,
    mounted: Option<usize>,
    names: u64,
}

impl Rack {
    // The plan of runs of the named tips, with the table by their ranks at the front. The sets end renumbered; the answer is how many tips are named.
    fn plan_by_ranks(
        &self,
        sets: &mut [u64],
        quantities: &[u8],
        plan: &mut [u8],
        table: &mut [u32],
    ) -> usize
        requires lent { PlanLent self.now.names self.now.m quantities.now sets.old plan.old }
        requires room { rank_places self.now.names self.now.m ≤ length table.old }
        ensures size { result ≡ rank (has self.now.names) self.now.m }
        ensures plan { plan.new ≡ best_plan_q (on_head self.now.mounted) self.now.m quantities.now sets.old }
        ensures table { TableByRanks self.now.m quantities.now sets.old table.new }
    {
        let names = self.names;
        let mut rank_list = [0u8; model::MOST_TIPS];
        let mut tip_list = [0u8; model::MOST_TIPS];
        let count = ranks::list_tips(names, self.m, &mut rank_list, &mut tip_list);
        ranks::renumber_lines(sets, &rank_list);
        let on = ranks::renumber_mounted(self.mounted, names, &rank_list);
        plan_ranks(count, on, sets, quantities, plan, table);
        spread::name_tips(&tip_list, plan);
        count
    }

    // The plan, and the table spread over the rack.
    fn plan_named(&self, sets: &mut [u64], quantities: &[u8], plan: &mut [u8], table: &mut [u32])
        requires lent { PlanLent self.now.names self.now.m quantities.now sets.old plan.old }
        requires cells { length table.old ≡ self.now.m * self.now.m }
        ensures plan { plan.new ≡ best_plan_q (on_head self.now.mounted) self.now.m quantities.now sets.old }
        ensures table { table.new ≡ table_of self.now.m (repeated quantities.now sets.old) }
    {
        let count = self.plan_by_ranks(sets, quantities, plan, table);
        let ranking = Ranking {
            set: self.names,
            m: self.m,
            count,
        };
        spread::spread_table(&ranking, table);
    }

    // The plan and the pairs, with room for the table by ranks. Where each tip of the rack is named, no line is renumbered.
    fn pairs_in<const PLACES: usize>(
        &self,
        sets: &mut [u64],
        quantities: &[u8],
        plan: &mut [u8],
    ) -> u32
        requires lent { PlanLent self.now.names self.now.m quantities.now sets.old plan.old }
        requires room { rank_places self.now.names self.now.m ≤ PLACES }
        requires few { PLACES * 4 < 2 ^ 63 }
        ensures pairs { result ≡ C (repeated quantities.now sets.old) 0 self.now.m }
        ensures plan { plan.new ≡ best_plan_q (on_head self.now.mounted) self.now.m quantities.now sets.old }
    {
        let m = self.m;
        let mut table = [0u32; PLACES];
        if self.names == tips::between(0, m - 1) {
            let full = Full {
                m,
                mounted: self.mounted,
                sets,
                quantities,
            };
            full.plan_runs(plan, &mut table[..m * m]);
            spread::cell_at(m, &table, 0, m)
        } else {
            let count = self.plan_by_ranks(sets, quantities, plan, &mut table);
            spread::cell_at(count, &table, 0, count)
        }
    }
}

// The most placement pairs of the lines, each of which is a run of the named tips. The sets are the caller's working copy, which is used up.
// The table and the plan end whole, whatever they held.
pub fn plan_lines(
    m: usize,
    mounted: Option<usize>,
    sets: &mut [u64],
    quantities: &[u8],
    plan: &mut [u8],
    table: &mut [u32],
) -> u32
    requires runs { NamedRuns m quantities.now sets.old }
    requires lines { length plan.old ≡ length sets.old }
    requires cells { length table.old ≡ m * m }
    ensures answer { result ≡ C (repeated quantities.now sets.old) 0 m }
    ensures plan { plan.new ≡ best_plan_q (on_head mounted) m quantities.now sets.old }
    ensures table { table.new ≡ table_of m (repeated quantities.now sets.old) }
{
    let names = ranks::names_of(sets);
    if names == tips::between(0, m - 1) {
        let full = Full {
            m,
            mounted,
            sets,
            quantities,
        };
        full.plan_runs(plan, table);
    } else {
        let rack = Rack { m, mounted, names };
        rack.plan_named(sets, quantities, plan, table);
    }
    table[m - 1]
}

// The same without the table: only as much room is cleared as the table by ranks can need, and nothing is spread over the rack.
pub fn plan_without_table(
    m: usize,
    mounted: Option<usize>,
    sets: &mut [u64],
    quantities: &[u8],
    plan: &mut [u8],
) -> u32
    requires runs { NamedRuns m quantities.now sets.old }
    requires lines { length plan.old ≡ length sets.old }
    ensures pairs { result ≡ C (repeated quantities.now sets.old) 0 m }
    ensures plan { plan.new ≡ best_plan_q (on_head mounted) m quantities.now sets.old }
{
    let names = ranks::names_of(sets);
    let rack = Rack { m, mounted, names };
    if names.count_ones() as usize <= SMALL_RACK {
        rack.pairs_in::<SMALL_TABLE>(sets, quantities, plan)
    } else {
        rack.pairs_in::<MOST_TABLE>(sets, quantities, plan)
    }
}
