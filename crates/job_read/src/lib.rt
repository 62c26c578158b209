// A job file read from its bytes: its refusal, and the sets and quantities of its lines.
#![tactic(auto)]

mod reading;

ghost use Rattle.std.specs.Prelude.{◌≡◌, cond, ◌&&◌, ◌+◌, ◌*◌, ◌<◌, ◌≤◌, ◌^◌, eqb, leb, length, get_or, bit_or, IfOk};
ghost use Rattle.std.specs.Bool.{then_some};
ghost use Rattle.model.specs.Plan.{is_empty, in_rack};
ghost use Rattle.model.specs.Limits.{most_lines, most_placements};
ghost use Rattle.placements.specs.Repeated.{total};
ghost use Rattle.placements.specs.Totals.{first_over};
ghost use Rattle.job.specs.Job.{number_of, set_length, file_length, count_in, set_from, quantity_from, set_in, quantity_in};
ghost use Rattle.job.specs.Job.{sets_in, quantities_in, line_numbers, good_lines, header_number, read_refusal};
ghost use Rattle.job.specs.Header.{version_number, IsHeaderOf};
ghost use Rattle.refusal.specs.Refusal.{scan, refuse_at};
ghost use Rattle.refusal.specs.Reasons.{refusal_of, number_in};
ghost use Rattle.job.specs.declared.Version.TheVariants.{Plain, Counted};

use job::{Header, Version};
pub use reading::{FEW, FileLines, MOST, Room, RoomOf, is_short, open, read_lines};
use refusal::{Reason, Refused};

// The eight bytes of the set of line `i` in a file of that version. They are a slice: `first_chunk` tests the length in each turn of a loop,
// and reading then takes more than twice the instructions.
#[tactic(auto, using(job::proofs::Lines::set_inside))]
fn set_bytes(file: &[u8], version: Version, i: usize) -> &[u8]
    requires { file_length (version_number version) (i + 1) ≤ length file.now }
    ensures eight { length result.now ≡ set_length }
    ensures number { number_of result.now ≡ set_from (version_number version) file.now i }
{
    let at = version.file_length(i);
    &file[at..at + job::SET]
}

// The number of a set's bytes.
fn set_at_once(bytes: &[u8]) -> u64
    requires { length bytes.now ≡ set_length }
    ensures { result ≡ number_of bytes.now }
{
    u64::from_be_bytes([
        bytes[0], bytes[1], bytes[2], bytes[3], bytes[4], bytes[5], bytes[6], bytes[7],
    ])
}

// The same byte by byte. It becomes one load only after loops are vectorized: a loop that only stores sets takes more than twice the time by
// `from_be_bytes`, since two sets are then swapped at once, without an instruction for it.
fn set_by_bytes(bytes: &[u8]) -> u64
    requires { length bytes.now ≡ set_length }
    ensures { result ≡ number_of bytes.now }
{
    let mut set = 0;
    for byte in bytes {
        set = set * 256 + u64::from(*byte);
    }
    set
}

// The set and the quantity of line `i` in a file of that version; without quantities it is 1.
#[tactic(auto, using(job::proofs::Numbers::number_one, job::proofs::Lines::quantity_inside))]
pub fn line_of(file: &[u8], version: Version, i: usize) -> (u64, u8)
    requires { file_length (version_number version) (i + 1) ≤ length file.now }
    ensures set { result.0 ≡ set_from (version_number version) file.now i }
    ensures quantity { result.1 ≡ quantity_from (version_number version) file.now i }
{
    let set = set_at_once(set_bytes(file, version, i));
    let quantity = if version.is_counted() {
        file[version.file_length(i) + job::SET]
    } else {
        1
    };
    (set, quantity)
}

// What is gathered of the lines read so far: the union of the sets, the number of empty sets and of quantities 0, and the total.
#[derive(Clone, Copy)]
struct Gathered {
    union: u64,
    zeros: u64,
    total: usize,
}

impl Gathered {
    fn with(self, set: u64, quantity: u8) -> Gathered
        requires zeros_fit { self.zeros + 2 < 2 ^ 64 }
        requires total_fits { self.total + quantity < 2 ^ 64 }
        ensures union { result.union ≡ bit_or self.union set }
        ensures zeros { result.zeros ≡ self.zeros + (cond (is_empty set) 1 0 + cond (eqb quantity 0) 1 0) }
        ensures total { result.total ≡ self.total + quantity }
    {
        Gathered {
            union: self.union | set,
            zeros: self.zeros + (u64::from(set == 0) + u64::from(quantity == 0)),
            total: self.total + usize::from(quantity),
        }
    }

    // The lines are good.
    fn is_good(self, rack: usize) -> bool
        ensures { result ≡ ((eqb self.zeros 0 && in_rack rack self.union) && leb self.total most_placements) }
    {
        self.zeros == 0 && tips::in_rack(rack, self.union) && self.total <= model::MOST_PLACEMENTS
    }
}

const NONE: Gathered = Gathered {
    union: 0,
    zeros: 0,
    total: 0,
};

// A file with a good header and as many bytes as the header says.
#[derive(Clone, Copy)]
pub struct JobFile<'a> {
    pub bytes: &'a [u8],
    pub header: Header,
    ghost good: { header_number bytes.now ≡ 0 },
    ghost header_is: { IsHeaderOf bytes.now header },
    ghost few_lines: { header.count ≤ most_lines },
}

// A file that is accepted, with the placements of its lines.
#[derive(Clone, Copy)]
pub struct GoodFile<'a> {
    pub file: JobFile<'a>,
    pub placements: usize,
    ghost accepted: { (read_refusal file.bytes.now).number ≡ 0 },
    ghost placements_are: { placements ≡ total (quantities_in file.bytes.now) },
}

impl<'a> JobFile<'a> {
    // Opens a file. It is refused by its first bytes, then by the number of its lines, then by its length.
    pub fn open(file: &'a [u8]) -> Result<JobFile<'a>, Reason>
        ensures refusal { number_in result ≡ header_number file.now }
        ensures same { IfOk result (λ opened. opened.bytes.now ≡ file.now) }
    {
        let header = Header::read(file)?;
        if model::MOST_LINES < header.count {
            return Err(Reason::FileLines);
        }
        if file.len() != header.version.file_length(header.count) {
            return Err(Reason::FileLength);
        }
        Ok(JobFile {
            bytes: file,
            header,
        })
    }

    // The set and the quantity of line `i`.
    #[tactic(auto, using(crate::proofs::There::line_there))]
    pub fn line(self, i: usize) -> (u64, u8)
        requires { i < self.header.count }
        ensures set { result.0 ≡ set_in self.entry.bytes.now i }
        ensures quantity { result.1 ≡ quantity_in self.entry.bytes.now i }
    {
        line_of(self.bytes, self.header.version, i)
    }

    // The placements of the lines, if they are good. The loop has no branch, so that it is quick where they are: the version stays, and the
    // compiler makes a loop of each. The union is that of the sets with their bytes the other way round, and is swapped once.
    #[tactic(auto, using(job::proofs::Lines::file_few, crate::proofs::There::line_there))]
    pub fn good_total(self) -> Option<usize>
        ensures { result ≡ then_some (good_lines self.entry.bytes.now) (total (quantities_in self.entry.bytes.now)) }
    {
        let version = self.header.version;
        let mut swapped = NONE;
        for i in 0..self.header.count {
            let (set, quantity) = line_of(self.bytes, version, i);
            swapped = swapped.with(set.swap_bytes(), quantity);
        }
        let gathered = Gathered {
            union: swapped.union.swap_bytes(),
            ..swapped
        };
        gathered.is_good(self.header.rack).then_some(gathered.total)
    }

    // The lines are good.
    pub fn good_lines(self) -> bool
        ensures { result ≡ good_lines self.entry.bytes.now }
    {
        self.good_total().is_some()
    }

    // Reads the sets of a file without quantities, and tells in the same pass whether the lines are good.
    #[tactic(auto, using(job::proofs::Lines::file_few, crate::proofs::There::line_there))]
    fn read_plain(self, sets: &mut [u64]) -> bool
        requires plain { self.header.version ≡ Plain }
        requires sets_len { length sets.old ≡ self.header.count }
        ensures good { result ≡ good_lines self.entry.bytes.now }
        ensures sets { sets.new ≡ sets_in self.entry.bytes.now }
    {
        let mut gathered = NONE;
        for (i, set) in sets.iter_mut().enumerate() {
            *set = set_by_bytes(set_bytes(self.bytes, Version::Plain, i));
            gathered = gathered.with(*set, 1);
        }
        gathered.is_good(self.header.rack)
    }

    // Reads the sets and the quantities of a file that has them, and tells in the same pass whether the lines are good.
    #[tactic(auto, using(job::proofs::Lines::file_few, crate::proofs::There::line_there))]
    fn read_counted(self, sets: &mut [u64], quantities: &mut [u8]) -> bool
        requires counted { self.header.version ≡ Counted }
        requires sets_len { length sets.old ≡ self.header.count }
        requires quantities_len { length quantities.old ≡ self.header.count }
        ensures good { result ≡ good_lines self.entry.bytes.now }
        ensures sets { sets.new ≡ sets_in self.entry.bytes.now }
        ensures quantities { quantities.new ≡ quantities_in self.entry.bytes.now }
    {
        let mut gathered = NONE;
        // By places: after an adapter of `iter_mut` a proof knows nothing of the elements.
        for i in 0..sets.len() {
            let (set, quantity) = line_of(self.bytes, Version::Counted, i);
            sets[i] = set;
            quantities[i] = quantity;
            gathered = gathered.with(set, quantity);
        }
        gathered.is_good(self.header.rack)
    }

    // Reads the sets and the quantities of the lines, and tells whether the lines are good. One loop for both versions stores a quantity 1
    // with each set of a file without quantities, and takes a third more time there. The buffers are the caller's: no type holds their length.
    pub fn read_lines(self, sets: &mut [u64], quantities: &mut [u8]) -> bool
        requires sets_len { length sets.old ≡ self.header.count }
        requires quantities_len { length quantities.old ≡ self.header.count }
        ensures good { result ≡ good_lines self.entry.bytes.now }
        ensures sets { sets.new ≡ sets_in self.entry.bytes.now }
        ensures quantities { quantities.new ≡ quantities_in self.entry.bytes.now }
    {
        match self.header.version {
            Version::Plain => {
                quantities.fill(1);
                self.read_plain(sets)
            }
            Version::Counted => self.read_counted(sets, quantities),
        }
    }

    // The first line that is refused, with why.
    pub fn check_lines(self) -> Result<(), Refused>
        ensures { refusal_of result
            ≡ scan (λ n. eqb n 0) (λ i. get_or (line_numbers self.entry.bytes.now) i 0) (line_numbers self.entry.bytes.now) }
    {
        for i in 0..self.header.count {
            let (set, quantity) = self.line(i);
            if let Err(reason) = job::check_line(self.header.rack, set, quantity) {
                return Err(reason.at(i));
            }
        }
        Ok(())
    }

    // The first line with which the total passes.
    pub fn check_total(self) -> Result<(), Refused>
        ensures { refusal_of result
            ≡ refuse_at 30 (first_over most_placements (quantities_in self.entry.bytes.now)) (count_in self.entry.bytes.now) }
    {
        let mut left = model::MOST_PLACEMENTS;
        for i in 0..self.header.count {
            let (_, quantity) = self.line(i);
            let quantity = usize::from(quantity);
            if left < quantity {
                return Err(Reason::TooManyPlacements.at(i));
            }
            left -= quantity;
        }
        Ok(())
    }
}
