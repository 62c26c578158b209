// The lines of keep within k: a line that has all tips common within k keeps only these.
ghost use Rattle.std.specs.Prelude.{◌≡◌, ◌*◌, length};
ghost use mathlib.Core.List.{map, zip_with};
ghost use Rattle.job.specs.Job.{line_length, file_length, version_in, rack_in, sets_in, quantities_in, paired, bytes_of_lines, written_of};
ghost use Rattle.common_tip.specs.Common.{narrow_by, kept_by};

use job::Version;
use job_read::JobFile;

// Each line, and only v of a line that has all of v. A set is loaded, tested and stored with its bytes the other way round.
fn put_narrowed(file: JobFile<'_>, v: u64, out: &mut [u8])
    requires plain { version_in file.bytes.now ≡ 1 }
    requires out_len { length out.old ≡ line_length 1 * file.header.count }
    ensures { out.new
        ≡ bytes_of_lines 1 (paired (map (narrow_by v) (sets_in file.entry.bytes.now)) (quantities_in file.entry.bytes.now)) }
{
    let tips = v.swap_bytes();
    for i in 0..file.header.count {
        let (set, _) = job_read::line_of(file.bytes, Version::Plain, i);
        let kept = common_tip::narrow(set.swap_bytes(), tips);
        job_write::put_set(kept.swap_bytes(), job::SET * i, out);
    }
}

// A line of one placement is narrowed at a margin below 1, and stays at any other.
fn put_kept_lines(file: JobFile<'_>, margin: i32, v: u64, out: &mut [u8])
    requires plain { version_in file.bytes.now ≡ 1 }
    requires out_len { length out.old ≡ line_length 1 * file.header.count }
    ensures { out.new ≡ bytes_of_lines 1
        (paired (zip_with (kept_by v margin) (quantities_in file.entry.bytes.now) (sets_in file.entry.bytes.now))
        (quantities_in file.entry.bytes.now)) }
{
    if margin < 1 {
        put_narrowed(file, v, out);
    } else {
        job_write::put_file_lines(file, Version::Plain, out);
    }
}

// The file of the lines that keep within k leaves, by the margin and the tips common within k.
pub fn put_kept(file: JobFile<'_>, margin: i32, v: u64, out: &mut [u8])
    requires plain { version_in file.bytes.now ≡ 1 }
    requires out_len { length out.old ≡ file_length 1 file.header.count }
    ensures { out.new ≡ written_of (rack_in file.entry.bytes.now) (quantities_in file.entry.bytes.now)
        (zip_with (kept_by v margin) (quantities_in file.entry.bytes.now) (sets_in file.entry.bytes.now)) }
{
    job_write::put_header(file.header, out);
    put_kept_lines(file, margin, v, &mut out[job::HEADER..]);
}
