// What each call gives for a job file in memory: the lines are read once, and the calls work on them where reading accepts the file.
#![tactic(auto)]

ghost use Rattle.std.specs.Prelude.{◌≡◌, ◌≤◌, length};
ghost use Rattle.model.specs.Limits.{most_lines, most_pairs};
ghost use Rattle.head.specs.OnHead.{on_head};
ghost use Rattle.file_calls.specs.Outcomes.{outcome_of, twos_complement};
ghost use Rattle.file_calls.specs.Calls.{read_in, quick_in, quick_plan_in, best_in, best_plan_in, best_table_in};
ghost use Rattle.file_calls.specs.Calls.{check_in};
ghost use Rattle.file_calls.specs.Rules.{HalfRuleOf, BestRuleOf, CheckRuleOf, ReadRuleOf, TableRuleOf, CheckAcceptsOf};
ghost use Rattle.job_read.specs.Reading.{HasRoom};
ghost use Rattle.cases.specs.Cases.{Told};
ghost use Rattle.file_calls.specs.Cases.{read_cases, quick_cases, best_cases, check_cases};

use job_read::{FEW, MOST, Room, RoomOf};
use refusal::Refused;

mod along_call;
mod common_call;
mod exact_call;
mod goal_call;
mod junior_call;
mod keep_call;
mod mend_call;
mod panel_calls;

pub use along_call::along_outcome;
pub use common_call::common_outcome;
pub use exact_call::exact_outcome;
pub use goal_call::goal_outcome;
pub use junior_call::junior_outcome;
pub use keep_call::keep_outcome;
pub use mend_call::mend_outcome;
pub use panel_calls::{alone_outcome, merge_outcome};

// Up to three counts that a call gives.
#[derive(Clone, Copy, Debug, PartialEq, Eq)]
pub struct Counts {
    pub first: u64,
    pub second: u64,
    pub third: u64,
}

impl Counts {
    // One count alone.
    pub fn one(first: u64) -> Counts
        ensures { result ≡ record { first = first; second = 0; third = 0 } }
    {
        Counts {
            first,
            second: 0,
            third: 0,
        }
    }
}

// Two's complement in 64 bits.
pub fn twos_complement(x: i32) -> u64
    ensures { result ≡ twos_complement x }
{
    i64::from(x).cast_unsigned()
}

pub fn read_outcome(file: &[u8]) -> Result<Counts, Refused>
    ensures outcome { outcome_of result ≡ read_in file.now }
    ensures cases { Told (read_cases file.now) (outcome_of result).refusal }
    ensures rule { ReadRuleOf file.now (outcome_of result) }
{
    let opened = job_read::open(file)?;
    Ok(Counts {
        first: opened.file.header.rack as u64,
        second: opened.file.header.count as u64,
        third: 0,
    })
}

// A file of at most N lines.
fn quick_in<const N: usize>(
    file: &[u8],
    mounted: Option<usize>,
    plan: &mut [u8],
) -> Result<Counts, Refused>
    requires size { N ≤ most_lines }
    requires room { HasRoom N file.now }
    ensures outcome { outcome_of result ≡ quick_in file.now (on_head mounted) (length plan.old) }
    ensures plan { plan.new ≡ quick_plan_in file.now (on_head mounted) plan.old }
    ensures rule { HalfRuleOf file.now plan.new (outcome_of result) }
    ensures cases { Told (quick_cases file.now (on_head mounted) (length plan.old)) (outcome_of result).refusal }
    ensures few { (outcome_of result).first ≤ most_pairs }
{
    let mut room = RoomOf::<N>::new();
    let lines = room.read_short(file)?;
    let pairs = line_calls::quick(lines, mounted, plan)?;
    Ok(Counts::one(u64::from(pairs)))
}

#[tactic(auto, using(job_read::proofs::ReadLines::most_room))]
pub fn quick_outcome(
    file: &[u8],
    mounted: Option<usize>,
    plan: &mut [u8],
) -> Result<Counts, Refused>
    ensures outcome { outcome_of result ≡ quick_in file.now (on_head mounted) (length plan.old) }
    ensures plan { plan.new ≡ quick_plan_in file.now (on_head mounted) plan.old }
    ensures rule { HalfRuleOf file.now plan.new (outcome_of result) }
    ensures cases { Told (quick_cases file.now (on_head mounted) (length plan.old)) (outcome_of result).refusal }
    ensures few { (outcome_of result).first ≤ most_pairs }
{
    if job_read::is_short(file) {
        quick_in::<FEW>(file, mounted, plan)
    } else {
        quick_in::<MOST>(file, mounted, plan)
    }
}

pub fn best_outcome(
    file: &[u8],
    mounted: Option<usize>,
    plan: &mut [u8],
    table: &mut [u32],
) -> Result<Counts, Refused>
    ensures outcome { outcome_of result ≡ best_in file.now (on_head mounted) (length plan.old) (length table.old) }
    ensures plan { plan.new
        ≡ best_plan_in file.now (on_head mounted) plan.old (length table.old) }
    ensures table { table.new
        ≡ best_table_in file.now (on_head mounted) (length plan.old) table.old }
    ensures rule { BestRuleOf file.now plan.new (outcome_of result) }
    ensures cases { Told (best_cases file.now (on_head mounted) (length plan.old) (length table.old)) (outcome_of result).refusal }
    ensures few { (outcome_of result).first ≤ most_pairs }
    ensures entries { TableRuleOf file.now table.new (outcome_of result) }
    ensures checked { CheckAcceptsOf file.now plan.new table.new (outcome_of result) }
{
    let mut room = Room::new();
    let lines = room.read(file)?;
    let pairs = line_calls::best(lines, mounted, plan, table)?;
    Ok(Counts::one(u64::from(pairs)))
}

// The call only reads the plan, the claim and the table, so it gives no count.
pub fn check_outcome(file: &[u8], plan: &[u8], claim: u32, table: &[u32]) -> Result<Counts, Refused>
    ensures outcome { outcome_of result ≡ check_in file.now plan.now claim table.now }
    ensures rule { CheckRuleOf file.now plan.now claim table.now (outcome_of result) }
    ensures cases { Told (check_cases file.now plan.now claim table.now) (outcome_of result).refusal }
{
    let mut room = Room::new();
    let lines = room.read(file)?;
    line_calls::check(lines, plan, claim, table)?;
    Ok(Counts::one(0))
}
