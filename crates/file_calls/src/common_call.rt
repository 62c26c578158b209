// Common tip of a job file.
ghost use Rattle.std.specs.Prelude.{◌≡◌, ◌≤◌};
ghost use Rattle.model.specs.Limits.{most_lines};
ghost use Rattle.job.specs.Job.{version_in};
ghost use Rattle.job_read.specs.Reading.{HasRoom};
ghost use Rattle.cases.specs.Cases.{Told};
ghost use Rattle.file_calls.specs.Outcomes.{outcome_of};
ghost use Rattle.file_calls.specs.Calls.{common_in};
ghost use Rattle.file_calls.specs.Rules.{CommonRuleOf};
ghost use Rattle.file_calls.specs.Cases.{read_cases};

use crate::Counts;
use common_tip::Common;
use job_read::{FEW, MOST, RoomOf};
use refusal::Refused;

fn counts_of(found: Common) -> Counts
    ensures { result ≡ record { first = found.top; second = found.off; third = found.tips } }
{
    Counts {
        first: found.top as u64,
        second: found.off as u64,
        third: found.tips,
    }
}

// The lines of a file with quantities are read first, because each binary digit of the quantities takes a pass over them. A file of at most N lines.
fn counted_in<const N: usize>(file: &[u8]) -> Result<Counts, Refused>
    requires size { N ≤ most_lines }
    requires room { HasRoom N file.now }
    ensures outcome { outcome_of result ≡ common_in file.now }
    ensures rule { CommonRuleOf file.now (outcome_of result) }
{
    let mut room = RoomOf::<N>::new();
    let lines = room.read_short(file)?;
    Ok(counts_of(line_calls::common(lines)))
}

#[tactic(auto, using(job_read::proofs::ReadLines::most_room))]
fn counted_common(file: &[u8]) -> Result<Counts, Refused>
    ensures outcome { outcome_of result ≡ common_in file.now }
    ensures rule { CommonRuleOf file.now (outcome_of result) }
{
    if job_read::is_short(file) {
        counted_in::<FEW>(file)
    } else {
        counted_in::<MOST>(file)
    }
}

// A file without quantities is counted from its bytes.
fn plain_common(file: &[u8]) -> Result<Counts, Refused>
    requires plain { version_in file.now ≡ 1 }
    ensures outcome { outcome_of result ≡ common_in file.now }
    ensures rule { CommonRuleOf file.now (outcome_of result) }
{
    let opened = job_read::open(file)?;
    let planes = plain_file::count_tips(opened);
    let found = common_tip::common_by(&planes, opened.file.header.rack, opened.placements);
    Ok(counts_of(found))
}

pub fn common_outcome(file: &[u8]) -> Result<Counts, Refused>
    ensures outcome { outcome_of result ≡ common_in file.now }
    ensures rule { CommonRuleOf file.now (outcome_of result) }
    ensures cases { Told (read_cases file.now) (outcome_of result).refusal }
{
    if plain_file::is_plain(file) {
        plain_common(file)
    } else {
        counted_common(file)
    }
}
