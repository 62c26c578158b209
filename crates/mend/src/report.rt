// The report. Each `put_` function returns the place after what it wrote.
ghost use Rattle.std.specs.Prelude.{◌≡◌, length};
ghost use Rattle.text.specs.Buffer.{Room, Put};
ghost use Rattle.mend_rules.specs.Mending.{lines_kept_in, codes};
ghost use Rattle.mend.specs.Mend.{line_report, whole_report, change};
ghost use Rattle.mend.specs.Parts.{read_as, code_of};

use crate::change::Change;
use crate::line::Line;
use crate::read::Started;
use crate::running::Running;

// The line number that stands for the whole file.
const WHOLE: usize = 65535;

// Writes one change from `at` on, where it was made.
fn put_change(made: bool, index: usize, kind: Change, at: usize, report: &mut [u8]) -> usize
    requires { Room report.old at (change made index (code_of kind)) }
    ensures { Put report.old at (change made index (code_of kind)) result report.new }
{
    if made {
        let line = index.to_be_bytes();
        report[at..at + 3].copy_from_slice(&[line[6], line[7], kind.code()]);
        return at + 3;
    }
    at
}

// Writes the changes of one line from `at` on. Few lines have any: out of line, they leave the registers to the loop over the lines.
#[cold]
#[inline(never)]
fn put_changed(index: usize, running: Running, line: Line, at: usize, report: &mut [u8]) -> usize
    requires { Room report.old at (line_report index running.rack running.total (read_as line)) }
    ensures { Put report.old at (line_report index running.rack running.total (read_as line)) result report.new }
{
    let changed = running.changed(line);
    let at = put_change(changed.cleared, index, Change::Cleared, at, report);
    let at = put_change(changed.emptied, index, Change::Emptied, at, report);
    let at = put_change(changed.raised, index, Change::Raised, at, report);
    put_change(changed.dropped, index, Change::Dropped, at, report)
}

// The same, where the line has changes; most lines have none.
pub fn put_codes(
    index: usize,
    running: Running,
    line: Line,
    changes: usize,
    at: usize,
    report: &mut [u8],
) -> usize
    requires changes_are { changes ≡ length (codes running.rack running.total (read_as line)) }
    requires room { Room report.old at (line_report index running.rack running.total (read_as line)) }
    ensures { Put report.old at (line_report index running.rack running.total (read_as line)) result report.new }
{
    if changes == 0 {
        at
    } else {
        put_changed(index, running, line, at, report)
    }
}

// Writes the changes of the whole file from `at` on.
pub fn put_whole(file: Started<'_>, kept: usize, at: usize, report: &mut [u8]) -> usize
    requires kept_is { kept ≡ length (lines_kept_in file.bytes.now) }
    requires room { Room report.old at (whole_report file.bytes.now) }
    ensures { Put report.old at (whole_report file.entry.bytes.now) result report.new }
{
    let at = put_change(
        file.is_recounted(kept),
        WHOLE,
        Change::Recounted,
        at,
        report,
    );
    put_change(file.has_more(), WHOLE, Change::MoreBytes, at, report)
}
