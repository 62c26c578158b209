// Whether an output is too short: a pass of its own works the lengths out, only where the most that can be written does not fit.
ghost use Rattle.std.specs.Prelude.{◌≡◌, ◌+◌, ◌*◌, ◌≤◌, ◌||◌, ltb, length};
ghost use Rattle.model.specs.Limits.{most_lines};
ghost use Rattle.mend_rules.specs.Mending.{lines_kept_in, mended_file, mended_report};
ghost use Rattle.mend.specs.Mend.{line_changes};

use crate::read::Started;
use crate::running::Running;

// A file, the number of its lines that are kept, and that of the changes of its lines.
#[derive(Clone, Copy)]
struct Measured<'a> {
    file: Started<'a>,
    kept: usize,
    changes: usize,
    ghost kept_is: { kept ≡ length (lines_kept_in file.bytes.now) },
    ghost kept_few: { kept ≤ most_lines },
    ghost changes_are: { changes ≡ length (line_changes file.bytes.now) },
    ghost changes_few: { changes ≤ 4 * most_lines },
}

impl Measured<'_> {
    // The bytes of the report.
    #[tactic(auto, using(crate::proofs::Room::report_length))]
    fn report_length(self) -> usize
        ensures { result ≡ length (mended_report self.entry.file.bytes.now) }
    {
        let whole = usize::from(self.file.is_recounted(self.kept))
            + usize::from(self.file.has_more());
        3 * (self.changes + whole)
    }

    // The bytes of the mended file.
    #[tactic(auto, using(job::proofs::Lines::file_few, mend_rules::proofs::Lengths::length_mended))]
    fn mended_length(self) -> usize
        ensures { result ≡ length (mended_file self.entry.file.bytes.now) }
    {
        self.file.header.version.file_length(self.kept)
    }
}

fn measure(file: Started<'_>) -> Measured<'_>
    ensures { result.file.bytes.now ≡ file.entry.bytes.now }
{
    let mut running = Running::new(file.header.rack);
    let mut kept = 0;
    let mut changes = 0;
    for i in 0..file.count {
        let step = running.step(file.line(i));
        kept += usize::from(step.kept);
        changes += step.changes;
        running = step.next;
    }
    Measured {
        file,
        kept,
        changes,
    }
}

// The most bytes of the report of `count` lines: two changes of each, a third of the line with which the total passes, two of the file.
fn most_report(count: usize) -> usize
    requires { count ≤ most_lines }
    ensures { result ≡ 3 * (2 * count + 3) }
{
    3 * (2 * count + 3)
}

// An output of `room` bytes has no room for the mended file, or one of `space` bytes none for the report.
#[tactic(auto, using(crate::proofs::Room::never_short))]
pub fn is_short(file: Started<'_>, room: usize, space: usize) -> bool
    ensures { result ≡ (ltb room (length (mended_file file.entry.bytes.now)) || ltb space (length (mended_report file.entry.bytes.now))) }
{
    if file.whole_length() <= room && most_report(file.count) <= space {
        return false;
    }
    let measured = measure(file);
    room < measured.mended_length() || space < measured.report_length()
}
