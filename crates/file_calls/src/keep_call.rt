// Keep within k on a job file.
ghost use Rattle.std.specs.Prelude.{◌≡◌, length};
ghost use Rattle.job.specs.Job.{version_in};
ghost use Rattle.cases.specs.Cases.{Told};
ghost use Rattle.file_calls.specs.Outcomes.{kept_outcome_of};
ghost use Rattle.file_calls.specs.Calls.{keep_in, keep_file_in};
ghost use Rattle.file_calls.specs.Rules.{KeepRuleOf};
ghost use Rattle.file_calls.specs.Cases.{keep_cases};

use crate::{Counts, twos_complement};
use job::Version;
use placements::Lines;
use refusal::Unkept;

// A file with quantities. The sets are pruned in place, so that they are lent by themselves and not by a `Room`.
fn counted_keep(file: &[u8], k: u16, out: &mut [u8]) -> Result<Counts, Unkept>
    ensures outcome { kept_outcome_of result ≡ keep_in file.now k (length out.old) }
    ensures out { out.new ≡ keep_file_in file.now k out.old }
{
    let mut sets = [0u64; model::MOST_LINES];
    let mut quantities = [0u8; model::MOST_LINES];
    let read = job_read::read_lines(file, &mut sets, &mut quantities)?;
    let sets = &mut sets[..read.count];
    let quantities = &quantities[..read.count];
    let margin = line_calls::keep(read.rack, sets, quantities, k)?;
    let kept = Lines {
        rack: read.rack,
        sets,
        quantities,
    };
    let bytes = line_calls::write(kept, out)?;
    Ok(Counts {
        first: twos_complement(margin),
        second: bytes as u64,
        third: 0,
    })
}

// A file without quantities, counted and written from its bytes.
fn plain_keep(file: &[u8], k: u16, out: &mut [u8]) -> Result<Counts, Unkept>
    requires plain { version_in file.now ≡ 1 }
    ensures outcome { kept_outcome_of result ≡ keep_in file.now k (length out.old) }
    ensures out { out.new ≡ keep_file_in file.now k out.old }
{
    let opened = job_read::open(file)?;
    let header = opened.file.header;
    let planes = plain_file::count_tips(opened);
    let bound = common_tip::bound_by(&planes, header.rack, opened.placements, k);
    let margin = call_refusals::keep_refusal(bound.margin)?;
    call_refusals::write_refusal(Version::Plain, header.count, out.len())?;
    let bytes = Version::Plain.file_length(header.count);
    plain_file::put_kept(opened.file, margin, bound.tips, &mut out[..bytes]);
    Ok(Counts {
        first: twos_complement(margin),
        second: bytes as u64,
        third: 0,
    })
}

pub fn keep_outcome(file: &[u8], k: u16, out: &mut [u8]) -> Result<Counts, Unkept>
    ensures outcome { kept_outcome_of result ≡ keep_in file.now k (length out.old) }
    ensures out { out.new ≡ keep_file_in file.now k out.old }
    ensures rule { KeepRuleOf file.now k out.new (kept_outcome_of result) }
    ensures cases { Told (keep_cases file.now k (length out.old)) (kept_outcome_of result).refusal }
{
    if plain_file::is_plain(file) {
        plain_keep(file, k, out)
    } else {
        counted_keep(file, k, out)
    }
}
