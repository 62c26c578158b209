// Exact sharing over slices: a plan for any lines that name at most 20 tips, at a price for each tip that it uses.
#![tactic(auto)]

mod picking;
mod planning;
mod renumbering;

ghost use Rattle.std.specs.Prelude.{◌≡◌, ◌≤◌};
ghost use Rattle.model.specs.Limits.{most_tips};
ghost use Rattle.model.specs.Plan.{pairs};
ghost use Rattle.model.specs.Interval.{named};
ghost use Rattle.model.specs.Renumber.{rank};
ghost use Rattle.placements.specs.Repeated.{repeated};
ghost use Rattle.head.specs.OnHead.{on_head};
ghost use Rattle.subset_rules.specs.Subsets.{tips_used, exact_plan_q};
ghost use Rattle.subset_rules.specs.Exact.{most_named, capped, ExactShared};
ghost use Rattle.subset_rules.specs.Table.{table_places, exact_table, rank_table};
ghost use Rattle.exact.specs.Leaf.{RanksLent, BoardLent};

use picking::Tables;

// The most tips that the lines can name.
pub const MOST_NAMED: usize = 20;

// One more than the pairs of any plan: a higher price changes nothing.
const MOST_PRICE: u32 = 2_096_129;

// The pairs of a plan, and how many tips it uses.
#[derive(Clone, Copy)]
pub struct Shared {
    pub pairs: u32,
    pub tips: usize,
}

// How many tips below m the lines name.
pub fn count_named(m: usize, sets: &[u64]) -> usize
    requires { m ≤ most_tips }
    ensures { result ≡ rank (named sets.now) m }
{
    let names = ranks::names_of(sets);
    let mut count = 0;
    for t in 0..m {
        count += usize::from(tips::has_tip(names, t));
    }
    count
}

// The places of the table where r tips are named.
pub fn table_places(r: usize) -> usize
    requires { r ≤ most_named }
    ensures { result ≡ table_places r }
{
    2 * subset_table::set_count(r)
}

// The plan on lines whose tips are below m, with its pairs and its tips, and the table of all sets of m tips.
fn plan_ranks(
    m: usize,
    mounted: Option<usize>,
    price: u32,
    sets: &[u64],
    quantities: &[u8],
    plan: &mut [u8],
    table: &mut [u32],
) -> Shared
    requires { RanksLent m quantities.now sets.now plan.old table.old }
    ensures plan { plan.new ≡ exact_plan_q (on_head mounted) (capped price) m quantities.now sets.now }
    ensures pairs { result.pairs ≡ pairs (repeated quantities.now plan.new) }
    ensures tips { result.tips ≡ tips_used m plan.new }
    ensures table { table.new ≡ rank_table (capped price) m (repeated quantities.now sets.now) }
{
    let price = price.min(MOST_PRICE);
    let (counts, scores) = table.split_at_mut(subset_table::set_count(m));
    subset_table::fill_table(m, price, sets, quantities, counts, scores);
    let all = ranks::names_of(sets) as usize;
    let tables = Tables {
        m,
        price,
        counts,
        scores,
    };
    let mut tips = [0; MOST_NAMED];
    let count = tables.pick_tips(mounted, all, &mut tips);
    planning::put_tips(&tips[..count], sets, plan);
    planning::sum_tips(counts, all, &tips[..count])
}

// The plan of exact sharing, its pairs, and how many tips it uses. The sets are the caller's working copy: they end renumbered.
// The plan and the table end whole, whatever they held.
pub fn plan_board(
    m: usize,
    mounted: Option<usize>,
    price: u32,
    sets: &mut [u64],
    quantities: &[u8],
    plan: &mut [u8],
    table: &mut [u32],
) -> Shared
    requires { BoardLent m quantities.now sets.old plan.old table.old }
    ensures plan { plan.new ≡ exact_plan_q (on_head mounted) (capped price) m quantities.now sets.old }
    ensures pairs { result.pairs ≡ pairs (repeated quantities.now plan.new) }
    ensures tips { result.tips ≡ tips_used m plan.new }
    ensures table { table.new ≡ exact_table (capped price) m (repeated quantities.now sets.old) }
    ensures rule { ExactShared price m quantities.now sets.old plan.new }
{
    let names = ranks::names_of(sets);
    let mut rank_list = [0; model::MOST_TIPS];
    let mut tip_list = [0; model::MOST_TIPS];
    let r = ranks::list_tips(names, m, &mut rank_list, &mut tip_list);
    renumbering::renumber_sets(m, &rank_list, sets);
    let on = ranks::renumber_mounted(mounted, names, &rank_list);
    let shared = plan_ranks(r, on, price, sets, quantities, plan, table);
    spread::name_tips(&tip_list, plan);
    shared
}
