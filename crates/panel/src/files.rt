// Two job files merged: the lines of the second put behind those of the first, from file to file.
ghost use Rattle.std.specs.Prelude.{◌≡◌, ◌++◌, ◌+◌, ◌≤◌, length, IfOk};
ghost use Rattle.model.specs.Limits.{most_lines};
ghost use Rattle.refusal.specs.Reasons.{refusal_of};
ghost use Rattle.job.specs.Job.{file_length, rack_in, sets_in, quantities_in, paired, file_of};
ghost use Rattle.job.specs.Header.{version_number};
ghost use Rattle.line_calls.specs.Answers.{file_told};
ghost use Rattle.line_calls.specs.Lines.{write_of, write_buffer};
ghost use Rattle.panel.specs.Files.{merge_of_read, IsPanelHeader};

use crate::merge_lines::merge_refusal;
use job::Header;
use job_read::{GoodFile, JobFile};
use refusal::Refused;

// The header of the lines of both.
fn merged_header(first: GoodFile<'_>, second: GoodFile<'_>) -> Result<Header, Refused>
    ensures refusal { refusal_of result ≡ merge_of_read first.entry.file.bytes.now second.entry.file.bytes.now }
    ensures header { IfOk result (λ header. IsPanelHeader first.entry.file.bytes.now second.entry.file.bytes.now header) }
{
    let rack = first.file.header.rack;
    let count = first.file.header.count + second.file.header.count;
    let placements = first.placements + second.placements;
    merge_refusal(rack, second.file.header.rack, count, placements)?;
    Ok(Header {
        version: job_write::version_of(count, placements),
        rack,
        count,
    })
}

// Writes the header, then the lines of both.
fn put_files(header: Header, first: JobFile<'_>, second: JobFile<'_>, out: &mut [u8])
    requires count { header.count ≡ first.header.count + second.header.count }
    requires few { header.count ≤ most_lines }
    requires out_len { length out.old ≡ file_length (version_number header.version) header.count }
    ensures { out.new ≡ file_of (version_number header.version) header.rack
        (paired (sets_in first.entry.bytes.now ++ sets_in second.entry.bytes.now)
        (quantities_in first.entry.bytes.now ++ quantities_in second.entry.bytes.now)) }
{
    let version = header.version;
    let middle = version.file_length(first.header.count);
    job_write::put_header(header, out);
    job_write::put_file_lines(first, version, &mut out[job::HEADER..middle]);
    job_write::put_file_lines(second, version, &mut out[middle..]);
}

// The bytes of the job file that is written.
pub fn merge_files(
    first: GoodFile<'_>,
    second: GoodFile<'_>,
    out: &mut [u8],
) -> Result<usize, Refused>
    ensures answer { file_told result ≡ write_of (merge_of_read first.entry.file.bytes.now second.entry.file.bytes.now)
        (quantities_in first.entry.file.bytes.now ++ quantities_in second.entry.file.bytes.now)
        (sets_in first.entry.file.bytes.now ++ sets_in second.entry.file.bytes.now)
        (length out.old) }
    ensures buffer { out.new ≡ write_buffer (merge_of_read first.entry.file.bytes.now second.entry.file.bytes.now)
        (rack_in first.entry.file.bytes.now)
        (quantities_in first.entry.file.bytes.now ++ quantities_in second.entry.file.bytes.now)
        (sets_in first.entry.file.bytes.now ++ sets_in second.entry.file.bytes.now)
        out.old }
{
    let header = merged_header(first, second)?;
    call_refusals::write_refusal(header.version, header.count, out.len())?;
    let bytes = header.version.file_length(header.count);
    put_files(header, first.file, second.file, &mut out[..bytes]);
    Ok(bytes)
}
