// Mending a job file over slices: one pass writes the mended file and the report. A good file is copied.
#![tactic(auto)]

mod change;
mod line;
mod measure;
mod read;
mod report;
mod running;
mod write;

ghost use Rattle.std.specs.Prelude.{◌≡◌, length};
ghost use Rattle.refusal.specs.Reasons.{refusal_of};
ghost use Rattle.mend.specs.Answers.{mended_told};
ghost use Rattle.mend.specs.Call.{mend_of, out_after, report_after, MendRuleOf};
ghost use Rattle.cases.specs.Cases.{Told};
ghost use Rattle.mend.specs.Cases.{mend_cases};

use read::Started;
use refusal::{Reason, Refused};

// The bytes written of the mended file and of the report.
#[derive(Clone, Copy, Debug, PartialEq, Eq)]
pub struct Sizes {
    pub bytes: usize,
    pub report_bytes: usize,
}

// Mends the file: writes the mended file to `out` and the report of changes to `report`. A file that reading accepts stays as it is.
pub fn mend(file: &[u8], out: &mut [u8], report: &mut [u8]) -> Result<Sizes, Refused>
    ensures answer { mended_told result ≡ mend_of file.now (length out.old) (length report.old) }
    ensures out { out.new ≡ out_after file.now out.old (length report.old) }
    ensures report { report.new ≡ report_after file.now (length out.old) report.old }
    ensures rule { MendRuleOf file.now out.new report.new
        (refusal_of result).number (mended_told result).bytes (mended_told result).report_bytes }
    ensures cases { Told (mend_cases file.now (length out.old) (length report.old)) (refusal_of result) }
{
    let started = Started::open(file)?;
    if read::is_accepted(file) {
        refusal::refuse_when(out.len() < file.len(), Reason::ShortOutput)?;
        return Ok(Sizes {
            bytes: text::put_word(out, 0, file),
            report_bytes: 0,
        });
    }
    if measure::is_short(started, out.len(), report.len()) {
        return Err(Reason::ShortOutput.at(0));
    }
    Ok(write::write_both(started, out, report))
}
