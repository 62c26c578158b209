// A job file without quantities, from its bytes: its tips counted, and its lines written with fewer tips. Each set is one number of eight bytes
// as the processor loads it, with its bytes the other way round, and no set is swapped.
#![tactic(auto)]

ghost use Rattle.std.specs.Prelude.{◌≡◌, ◌&&◌, leb, eqb, length};
ghost use Rattle.job.specs.Job.{header_length, version_in};

mod counting;
mod keeping;

pub use counting::count_tips;
pub use keeping::put_kept;

// The file has a header, which says that its lines have no quantities.
pub fn is_plain(file: &[u8]) -> bool
    ensures { result ≡ (leb header_length (length file.now) && eqb (version_in file.now) 1) }
{
    if file.len() < job::HEADER {
        return false;
    }
    u16::from_be_bytes([file[3], file[4]]) == 1
}
