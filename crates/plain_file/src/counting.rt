// The occurrences of all tips, counted from the bytes of the sets: no line is kept.
ghost use Rattle.std.specs.Prelude.{◌≡◌, ◌+◌, ◌≤◌, length, take, drop};
ghost use Rattle.placements.specs.Repeated.{repeated};
ghost use Rattle.counts.specs.Counts.{Counts};
ghost use Rattle.counts.specs.Sums.{Fits, Added};
ghost use Rattle.job.specs.Job.{version_in, sets_in, quantities_in};
ghost use Rattle.plain_file.specs.Swapped.{swapped_sets};

use counts::PLANES;
use counts::adders::{self, Pair};
use job::Version;
use job_read::{GoodFile, JobFile};

// The lines of a block.
const BLOCK: usize = 32;

// The sets of the lines from line `first` on, as many as the block has, with their bytes the other way round: each is then loaded as it is.
#[tactic(auto, using(job_read::proofs::There::line_there))]
fn read_block(file: JobFile<'_>, first: usize, block: &mut [u64])
    requires plain { version_in file.bytes.now ≡ 1 }
    requires inside { first + length block.old ≤ file.header.count }
    ensures { block.new ≡ take (length block.old) (drop first (swapped_sets file.entry.bytes.now)) }
{
    for (k, set) in block.iter_mut().enumerate() {
        let (line, _) = job_read::line_of(file.bytes, Version::Plain, first + k);
        *set = line.swap_bytes();
    }
}

// Less than a block, from line `first` on: lines that allow no tip make it whole.
fn add_rest(file: JobFile<'_>, first: usize, sums: &mut [Pair; PLANES])
    requires plain { version_in file.bytes.now ≡ 1 }
    requires inside { first ≤ file.header.count }
    requires few { file.header.count ≤ first + 32 }
    requires fits { Fits (drop first (swapped_sets file.bytes.now)) sums.old }
    ensures { Added (drop first (swapped_sets file.entry.bytes.now)) sums.old sums.new }
{
    let rest = file.header.count - first;
    if rest == 0 {
        return;
    }
    let mut block = [0; BLOCK];
    read_block(file, first, &mut block[..rest]);
    adders::add_block(&block, sums);
}

// All lines, a block at a time.
fn add_all(file: JobFile<'_>, sums: &mut [Pair; PLANES])
    requires plain { version_in file.bytes.now ≡ 1 }
    requires fits { Fits (swapped_sets file.bytes.now) sums.old }
    ensures { Added (swapped_sets file.entry.bytes.now) sums.old sums.new }
{
    let blocks = file.header.count / BLOCK;
    let mut block = [0; BLOCK];
    for i in 0..blocks {
        read_block(file, BLOCK * i, &mut block);
        adders::add_block(&block, sums);
    }
    add_rest(file, BLOCK * blocks, sums);
}

// The occurrences of each tip. The planes are those of sets with their bytes the other way round, and are put back once.
pub fn count_tips(good: GoodFile<'_>) -> [u64; PLANES]
    requires { version_in good.file.bytes.now ≡ 1 }
    ensures { Counts (repeated (quantities_in good.entry.file.bytes.now) (sets_in good.entry.file.bytes.now)) result }
{
    let mut sums = [Pair { even: 0, odd: 0 }; PLANES];
    add_all(good.file, &mut sums);
    let mut planes = adders::join(&sums);
    counts::put_back(&mut planes);
    planes
}
