// The whole of what the program tipshare prints for a file, written into a buffer.
#![tactic(auto)]

ghost use Rattle.std.specs.Prelude.{◌≡◌, ◌≤◌, length, is_some, unwrap_or};
ghost use Rattle.report.specs.Report.{report_of};
ghost use Rattle.text.specs.Buffer.{Printed};
ghost use Rattle.file_report.specs.Summary.{facts_of, BestTold, text_of, text_room, summary_of, ReportRule};

use job_read::Room;
use placements::Lines;

// The bytes of a file that are taken: one more than the longest good file has, by which a longer one is seen.
pub const TAKEN: usize = 4617;

// The bytes that the longest text may need.
pub const ROOM: usize = 16384;

// The pairs of best sharing of the lines; nothing where some line is no run of the named tips, and then the plan stays as it was.
fn best_lines(lines: Lines<'_>, plan: &mut [u8]) -> Option<u32>
    requires { length plan.old ≡ length lines.sets.now }
    ensures { BestTold lines.entry.rack lines.entry.quantities.now lines.entry.sets.now
        (is_some result) (unwrap_or result 0) plan.new }
{
    line_calls::best_plan(lines, None, plan).ok()
}

// The report on lines; both plans have a byte a line.
fn write_lines(lines: Lines<'_>, out: &mut [u8]) -> usize
    requires { text_room ≤ length out.old }
    ensures { Printed
        (report_of (facts_of lines.entry.rack lines.entry.quantities.now lines.entry.sets.now))
        out.old
        result
        out.new }
{
    let count = lines.len();
    let mut best_buffer = [0u8; model::MOST_LINES];
    let best = &mut best_buffer[..count];
    let shared = best_lines(lines, best);
    let common = line_calls::common(lines);
    let mut quick_buffer = [0u8; model::MOST_LINES];
    let quick = &mut quick_buffer[..count];
    let pairs = line_calls::quick(lines, None, quick).unwrap();
    report::write_report(
        lines.rack,
        common.off,
        common.tips,
        pairs,
        shared,
        quick,
        best,
        out,
    )
}

// The report on a file, or on its refusal.
fn write_file(file: &[u8], out: &mut [u8]) -> usize
    requires { text_room ≤ length out.old }
    ensures { Printed (text_of file.now) out.old result out.new }
{
    let mut room = Room::new();
    match room.read(file) {
        Ok(lines) => write_lines(lines, out),
        Err(refused) => report::write_refused(refused.reason.number(), out),
    }
}

// Writes the text for a file, and returns how many bytes that are. Into a buffer shorter than the longest text it writes none, and returns 0:
// no text is empty.
pub fn summarize(file: &[u8], out: &mut [u8]) -> usize
    ensures text { Printed (summary_of file.now (length out.old)) out.old result out.new }
    ensures rule { ReportRule file.now (length out.old) result out.new }
{
    if out.len() < ROOM {
        return 0;
    }
    let size = file.len().min(TAKEN);
    write_file(&file[..size], out)
}
