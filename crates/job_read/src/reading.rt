// Reading a job file: its refusal, and the sets and quantities of its lines.
ghost use Rattle.std.specs.Prelude.{◌≡◌, ◌≤◌, T, false, length, replicate, IfOk};
ghost use Rattle.model.specs.Limits.{most_lines};
ghost use Rattle.job.specs.Job.{good_lines, read_refusal, rack_in, sets_in, quantities_in};
ghost use Rattle.refusal.specs.Reasons.{told_of, refusal_of};
ghost use Rattle.job_read.specs.Reading.{LinesRead, HasRoom, few_lines};

use crate::{GoodFile, JobFile};
use job::Header;
use placements::Lines;
use refusal::Refused;

// The lines of the longest file.
pub const MOST: usize = model::MOST_LINES;

// The most lines of a short file, which has no quantities then: room for fewer lines is sooner made.
pub const FEW: usize = 72;

const FEW_BYTES: usize = job::HEADER + job::SET * FEW;

// Why a file with lines that are not good is refused.
#[cold]
fn refused_by(file: JobFile<'_>) -> Refused
    requires { good_lines file.bytes.now ≡ false }
    ensures { told_of result ≡ read_refusal file.entry.bytes.now }
{
    if let Err(refused) = file.check_lines() {
        return refused;
    }
    file.check_total().unwrap_err()
}

// Opens a job file that is accepted. It is refused by its header, else by its first bad line, else by the first line with which the total passes.
// In line, because a call would copy the opened file to the stack and back.
#[inline(always)]
pub fn open(file: &[u8]) -> Result<GoodFile<'_>, Refused>
    ensures refusal { refusal_of result ≡ read_refusal file.now }
    ensures same { IfOk result (λ opened. opened.file.bytes.now ≡ file.now) }
{
    let opened = JobFile::open(file)?;
    match opened.good_total() {
        Some(placements) => Ok(GoodFile {
            file: opened,
            placements,
        }),
        None => Err(refused_by(opened)),
    }
}

// The rack and the number of lines of a file that is read.
#[derive(Clone, Copy, Debug, PartialEq, Eq)]
pub struct FileLines {
    pub rack: usize,
    pub count: usize,
}

// Reads the sets and the quantities of a file's lines to the front of `sets` and of `quantities`, which have room for them.
fn read_front(file: &[u8], sets: &mut [u64], quantities: &mut [u8]) -> Result<FileLines, Refused>
    requires for_sets { HasRoom (length sets.old) file.now }
    requires for_quantities { HasRoom (length quantities.old) file.now }
    ensures refusal { refusal_of result ≡ read_refusal file.now }
    ensures lines { IfOk result (λ l. LinesRead file.now l.rack l.count sets.old sets.new quantities.old quantities.new) }
{
    let opened = JobFile::open(file)?;
    let Header { rack, count, .. } = opened.header;
    if opened.read_lines(&mut sets[..count], &mut quantities[..count]) {
        return Ok(FileLines { rack, count });
    }
    // The first pass says that some line is bad, the second which one and why.
    Err(refused_by(opened))
}

// The same of any file.
#[tactic(auto, using(crate::proofs::ReadLines::most_room))]
pub fn read_lines(
    file: &[u8],
    sets: &mut [u64],
    quantities: &mut [u8],
) -> Result<FileLines, Refused>
    requires sets_len { length sets.old ≡ most_lines }
    requires quantities_len { length quantities.old ≡ most_lines }
    ensures refusal { refusal_of result ≡ read_refusal file.now }
    ensures lines { IfOk result (λ l. LinesRead file.now l.rack l.count sets.old sets.new quantities.old quantities.new) }
{
    read_front(file, sets, quantities)
}

// A file of few bytes has few lines.
pub fn is_short(file: &[u8]) -> bool
    ensures { T result → HasRoom few_lines file.now }
{
    file.len() <= FEW_BYTES
}

// Room for the lines of a file that has at most N.
#[derive(Drop)]
pub struct RoomOf<const N: usize> {
    pub sets: [u64; N],
    pub quantities: [u8; N],
}

// Room for the lines of any file.
pub type Room = RoomOf<MOST>;

impl<const N: usize> RoomOf<N> {
    // Nothing is read.
    pub fn new() -> RoomOf<N>
        requires { N ≤ most_lines }
        ensures sets { result.sets ≡ replicate N 0 }
        ensures quantities { result.quantities ≡ replicate N 0 }
    {
        RoomOf {
            sets: [0u64; N],
            quantities: [0u8; N],
        }
    }

    // Reads the lines of a file, which stay in the room.
    pub fn read_short(&mut self, file: &[u8]) -> Result<Lines<'_>, Refused>
        requires { HasRoom N file.now }
        ensures refusal { refusal_of result ≡ read_refusal file.now }
        ensures rack { IfOk result (λ l. l.rack ≡ rack_in file.now) }
        ensures sets { IfOk result (λ l. l.sets.now ≡ sets_in file.now) }
        ensures quantities { IfOk result (λ l. l.quantities.now ≡ quantities_in file.now) }
    {
        let read = read_front(file, &mut self.sets, &mut self.quantities)?;
        let sets = &self.sets[..read.count];
        let quantities = &self.quantities[..read.count];
        Ok(Lines {
            rack: read.rack,
            sets,
            quantities,
        })
    }
}

impl RoomOf<MOST> {
    // The same of any file.
    pub fn read(&mut self, file: &[u8]) -> Result<Lines<'_>, Refused>
        ensures refusal { refusal_of result ≡ read_refusal file.now }
        ensures rack { IfOk result (λ l. l.rack ≡ rack_in file.now) }
        ensures sets { IfOk result (λ l. l.sets.now ≡ sets_in file.now) }
        ensures quantities { IfOk result (λ l. l.quantities.now ≡ quantities_in file.now) }
    {
        self.read_short(file)
    }
}
