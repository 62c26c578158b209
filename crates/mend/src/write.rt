// The pass that writes the mended file and the report. Each `put_` function returns the place after what it wrote; the place and the buffer are
// parameters, as of the functions of `text`, whose words `Room` and `Put` the contracts take.
ghost use Rattle.std.specs.Prelude.{◌≡◌, ◌≤◌, length};
ghost use Rattle.text.specs.Buffer.{Room, Put, Printed};
ghost use Rattle.job.specs.Job.{header_length, line_of};
ghost use Rattle.job.specs.Header.{version_number};
ghost use Rattle.mend_rules.specs.Mending.{stays, lines_kept_in, mended_file, mended_report, bytes_of_changes};
ghost use Rattle.mend.specs.Mend.{kept_bytes, kept_lines, line_changes};
ghost use Rattle.mend.specs.Parts.{read_as};

use crate::line::Line;
use crate::read::Started;
use crate::running::Running;
use crate::{Sizes, report};
use job::{Header, Version};

// Writes one line from `at` on.
fn put_line(version: Version, line: Line, at: usize, out: &mut [u8]) -> usize
    requires { Room out.old at (line_of (version_number version) (read_as line)) }
    ensures { Put out.old at (line_of (version_number version) (read_as line)) result out.new }
{
    job_write::put_quantity(version, line.quantity, at, out);
    job_write::put_set(line.set, at, out);
    at + version.line_length()
}

// Writes the mended line from `at` on, where it stays; a good line is the same mended.
fn put_kept(
    version: Version,
    running: Running,
    line: Line,
    kept: bool,
    at: usize,
    out: &mut [u8],
) -> usize
    requires kept_is { kept ≡ stays running.rack running.total (read_as line) }
    requires room { Room out.old at (kept_bytes (version_number version) running.rack running.total (read_as line)) }
    ensures { Put out.old at (kept_bytes (version_number version) running.rack running.total (read_as line)) result out.new }
{
    if kept {
        put_line(version, line.mended(running.rack), at, out)
    } else {
        at
    }
}

// The places after the lines written and after the changes reported, and the number of lines kept.
#[derive(Clone, Copy)]
struct Written {
    at: usize,
    told: usize,
    kept: usize,
}

// Writes the lines kept after the place of the header, and the changes of the lines to the front of the report.
// It becomes part of each arm below, where the version is known.
#[inline(always)]
fn put_lines_of_version(file: Started<'_>, out: &mut [u8], report: &mut [u8]) -> Written
    requires out_room { Room out.old header_length (kept_lines file.bytes.now) }
    requires report_room { Room report.old 0 (bytes_of_changes (line_changes file.bytes.now)) }
    ensures out { Put out.old header_length (kept_lines file.entry.bytes.now) result.at out.new }
    ensures report { Put report.old 0 (bytes_of_changes (line_changes file.entry.bytes.now)) result.told report.new }
    ensures kept { result.kept ≡ length (lines_kept_in file.entry.bytes.now) }
{
    let mut running = Running::new(file.header.rack);
    let mut at = job::HEADER;
    let mut told = 0;
    let mut kept = 0;
    for i in 0..file.count {
        let line = file.line(i);
        let step = running.step(line);
        at = put_kept(file.header.version, running, line, step.kept, at, out);
        told = report::put_codes(i, running, line, step.changes, told, report);
        kept += usize::from(step.kept);
        running = step.next;
    }
    Written { at, told, kept }
}

// The same, with a loop of its own for each version: one loop for both tests the version twice for each line.
fn put_lines(file: Started<'_>, out: &mut [u8], report: &mut [u8]) -> Written
    requires out_room { Room out.old header_length (kept_lines file.bytes.now) }
    requires report_room { Room report.old 0 (bytes_of_changes (line_changes file.bytes.now)) }
    ensures out { Put out.old header_length (kept_lines file.entry.bytes.now) result.at out.new }
    ensures report { Put report.old 0 (bytes_of_changes (line_changes file.entry.bytes.now)) result.told report.new }
    ensures kept { result.kept ≡ length (lines_kept_in file.entry.bytes.now) }
{
    match file.header.version {
        Version::Plain => put_lines_of_version(file, out, report),
        Version::Counted => put_lines_of_version(file, out, report),
    }
}

// Writes the mended file and the report to the fronts of their outputs. The header goes last, for it has the number of lines kept.
pub fn write_both(file: Started<'_>, out: &mut [u8], report: &mut [u8]) -> Sizes
    requires out_room { length (mended_file file.bytes.now) ≤ length out.old }
    requires report_room { length (mended_report file.bytes.now) ≤ length report.old }
    ensures out { Printed (mended_file file.entry.bytes.now) out.old result.bytes out.new }
    ensures report { Printed (mended_report file.entry.bytes.now) report.old result.report_bytes report.new }
{
    let written = put_lines(file, out, report);
    let header = Header {
        count: written.kept,
        ..file.header
    };
    job_write::put_header(header, out);
    Sizes {
        bytes: written.at,
        report_bytes: report::put_whole(file, written.kept, written.told, report),
    }
}
