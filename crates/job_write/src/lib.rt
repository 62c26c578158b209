// A job file written to a buffer, in the shorter version that can hold its quantities.
#![tactic(auto)]

ghost use Rattle.std.specs.Prelude.{◌≡◌, cond, ◌++◌, ◌+◌, ◌≤◌, eqb, length, take, drop, set};
ghost use Rattle.job.specs.Job.{header_length, set_length, counted, line_length, file_length, bytes_of, paired, header_of, bytes_of_lines};
ghost use Rattle.job.specs.Job.{version_for, written_of};
ghost use Rattle.job.specs.Header.{version_number};

mod file_lines;

pub use file_lines::put_file_lines;
use job::{Header, Version};

// The version that the quantities are written in. The loop has no branch: it gathers the bits in which some quantity is not 1.
pub fn version_for(quantities: &[u8]) -> Version
    ensures { version_number result ≡ version_for quantities.now }
{
    let mut others = 0;
    for quantity in quantities {
        others |= quantity ^ 1;
    }
    if others == 0 {
        Version::Plain
    } else {
        Version::Counted
    }
}

// Writes the header to the first bytes.
pub fn put_header(header: Header, out: &mut [u8])
    requires { header_length ≤ length out.old }
    ensures { out.new
        ≡ header_of (version_number header.version) header.rack header.count ++ drop header_length out.old }
{
    let rack = header.rack.to_be_bytes();
    let count = header.count.to_be_bytes();
    out[..job::HEADER].copy_from_slice(&[
        job::MARK[0],
        job::MARK[1],
        job::MARK[2],
        0,
        header.version.number(),
        rack[7],
        count[6],
        count[7],
    ]);
}

// Writes one set to the eight bytes from `at` on.
pub fn put_set(set: u64, at: usize, out: &mut [u8])
    requires { at + set_length ≤ length out.old }
    ensures { out.new ≡ take at out.old ++ bytes_of set_length set ++ drop (at + set_length) out.old }
{
    out[at..at + job::SET].copy_from_slice(&set.to_be_bytes());
}

// The same byte by byte. They become one store only after loops are vectorized: a loop that only writes sets takes more than twice the time by
// `to_be_bytes`, since two sets are then swapped at once, without an instruction for it.
fn put_set_by_bytes(set: u64, at: usize, out: &mut [u8])
    requires { at + set_length ≤ length out.old }
    ensures { out.new ≡ take at out.old ++ bytes_of set_length set ++ drop (at + set_length) out.old }
{
    for k in 0..job::SET {
        out[at + k] = ((set >> (56 - 8 * k)) % 256) as u8;
    }
}

// Writes the quantity after the set of the line at `at`, where the version has quantities.
#[tactic(auto, using(job::proofs::Lines::line_two))]
pub fn put_quantity(version: Version, quantity: u8, at: usize, out: &mut [u8])
    requires { at + line_length (version_number version) ≤ length out.old }
    ensures { out.new
        ≡ cond (counted (version_number version)) (set out.old (at + set_length) quantity) out.old }
{
    if version.is_counted() {
        out[at + job::SET] = quantity;
    }
}

// Writes the lines after the header. The version stays, and the compiler makes a loop of each; a set is read after the quantity is written,
// so that its eight bytes become one store.
fn put_lines(version: Version, quantities: &[u8], sets: &[u64], out: &mut [u8])
    requires quantities_len { length quantities.now ≡ length sets.now }
    requires out_len { length out.old ≡ file_length (version_number version) (length sets.now) }
    ensures { out.new ≡ take header_length out.old
        ++ bytes_of_lines (version_number version) (paired sets.now quantities.now) }
{
    for i in 0..sets.len() {
        let at = version.file_length(i);
        put_quantity(version, quantities[i], at, out);
        put_set_by_bytes(sets[i], at, out);
    }
}

// The version of good lines, by their number and that of their placements: each line has at least one.
pub fn version_of(count: usize, placements: usize) -> Version
    ensures { version_number result ≡ cond (eqb placements count) 1 2 }
{
    if placements == count {
        Version::Plain
    } else {
        Version::Counted
    }
}

// The version of a file, by its lines and bytes; without lines it is the shorter one.
fn version_by(count: usize, bytes: usize) -> Version
    requires { file_length 1 count ≤ bytes }
    ensures { version_number result ≡ cond (eqb bytes (file_length 1 count)) 1 2 }
{
    if bytes == Version::Plain.file_length(count) {
        Version::Plain
    } else {
        Version::Counted
    }
}

// Writes the file to `out`, which has exactly its length: so the quantities are not looked through again for the version.
pub fn write_file(rack: usize, quantities: &[u8], sets: &[u64], out: &mut [u8])
    requires quantities_len { length quantities.now ≡ length sets.now }
    requires out_len { length out.old ≡ file_length (version_for quantities.now) (length sets.now) }
    ensures { out.new ≡ written_of rack quantities.now sets.now }
{
    let count = sets.len();
    let version = version_by(count, out.len());
    let header = Header {
        version,
        rack,
        count,
    };
    put_header(header, out);
    put_lines(version, quantities, sets, out);
}
