// Mending of a job file.
ghost use Rattle.std.specs.Prelude.{◌≡◌, length};
ghost use Rattle.file_calls.specs.Outcomes.{outcome_of};
ghost use Rattle.file_calls.specs.Mend.{mend_in, MendRuleIn};
ghost use Rattle.mend.specs.Call.{out_after, report_after};
ghost use Rattle.mend.specs.Cases.{mend_cases};
ghost use Rattle.cases.specs.Cases.{Told};

use crate::Counts;
use refusal::Refused;

// The counts are the bytes of the mended file and of the report.
pub fn mend_outcome(file: &[u8], out: &mut [u8], report: &mut [u8]) -> Result<Counts, Refused>
    ensures outcome { outcome_of result ≡ mend_in file.now (length out.old) (length report.old) }
    ensures out { out.new ≡ out_after file.now out.old (length report.old) }
    ensures report { report.new ≡ report_after file.now (length out.old) report.old }
    ensures rule { MendRuleIn file.now out.new report.new (outcome_of result) }
    ensures cases { Told (mend_cases file.now (length out.old) (length report.old)) (outcome_of result).refusal }
{
    let mended = mend::mend(file, out, report)?;
    Ok(Counts {
        first: mended.bytes as u64,
        second: mended.report_bytes as u64,
        third: 0,
    })
}
