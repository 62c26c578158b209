// The lines of a file written in a version: in the file's own they are its bytes.
ghost use Rattle.std.specs.Prelude.{◌≡◌, ◌*◌, length};
ghost use Rattle.job.specs.Job.{line_length, sets_in, quantities_in, paired, bytes_of_lines};
ghost use Rattle.job.specs.Header.{version_number};

use job::Version;
use job_read::JobFile;

// Byte by byte: of `copy_from_slice` the compiler makes memmove here, which the header does not name.
fn copy_bytes(bytes: &[u8], out: &mut [u8])
    requires { length out.old ≡ length bytes.now }
    ensures { out.new ≡ bytes.now }
{
    for (i, byte) in out.iter_mut().enumerate() {
        *byte = bytes[i];
    }
}

// Line by line, for the version that is not the file's own.
fn put_each_line(file: JobFile<'_>, version: Version, out: &mut [u8])
    requires { length out.old ≡ line_length (version_number version) * file.header.count }
    ensures { out.new ≡ bytes_of_lines (version_number version)
        (paired (sets_in file.entry.bytes.now) (quantities_in file.entry.bytes.now)) }
{
    for i in 0..file.header.count {
        let at = version.line_length() * i;
        let (set, quantity) = file.line(i);
        crate::put_quantity(version, quantity, at, out);
        crate::put_set(set, at, out);
    }
}

pub fn put_file_lines(file: JobFile<'_>, version: Version, out: &mut [u8])
    requires { length out.old ≡ line_length (version_number version) * file.header.count }
    ensures { out.new ≡ bytes_of_lines (version_number version)
        (paired (sets_in file.entry.bytes.now) (quantities_in file.entry.bytes.now)) }
{
    if version == file.header.version {
        copy_bytes(&file.bytes[job::HEADER..], out);
    } else {
        put_each_line(file, version, out);
    }
}
