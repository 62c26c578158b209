// The job file over slices: its header, its length by its version, and the refusals by its first bytes and by a line.
#![tactic(auto)]

ghost use Rattle.std.specs.Prelude.{◌≡◌, ◌+◌, ◌<◌, ◌≤◌, ◌^◌, cond, eqb, length, IfOk};
ghost use Rattle.job.specs.Job.{number_at, header_length, counted, line_length, file_length, mark, mark_in, version_ok, start_number, line_number};
ghost use Rattle.job.specs.Header.{version_number, IsHeaderOf};
ghost use Rattle.refusal.specs.Reasons.{number_in};

use refusal::Reason;

// The bytes 54 49 50 hex, "TIP": what every file begins with, and not a kind of file.
pub const MARK: [u8; 3] = *b"TIP";

// The bytes of the header, and of a line's set; a quantity has one byte.
pub const HEADER: usize = 8;

pub const SET: usize = 8;

// The versions: without quantities, and with them.
#[derive(Clone, Copy, Debug, PartialEq, Eq)]
pub enum Version {
    Plain = 1,
    Counted = 2,
}

impl Version {
    // The number that stands for it in a header. The conversion is the language's own, of an enum with numbers.
    pub fn number(self) -> u8
        ensures { result ≡ version_number self }
    {
        self as u8
    }

    // Its lines have quantities.
    pub fn is_counted(self) -> bool
        ensures { result ≡ counted (version_number self) }
    {
        matches!(self, Version::Counted)
    }

    // The bytes of one line.
    #[tactic(auto, unfolding(crate::specs::Job::line_length))]
    pub fn line_length(self) -> usize
        ensures { result ≡ line_length (version_number self) }
    {
        if self.is_counted() { SET + 1 } else { SET }
    }

    // The bytes of a file of `count` lines, and the place where line `count` starts.
    pub fn file_length(self, count: usize) -> usize
        requires { file_length (version_number self) count < 2 ^ 64 }
        ensures { result ≡ file_length (version_number self) count }
    {
        HEADER + self.line_length() * count
    }
}

// The version that a number stands for.
impl TryFrom<u16> for Version {
    type Error = Reason;

    ghost try_from_gives = { λ number read. (number_in read ≡ cond (version_ok number) 0 8)
        × IfOk read (λ version. version_number version ≡ number) };

    #[tactic(auto, unfolding(crate::specs::Job::version_ok))]
    fn try_from(number: u16) -> Result<Version, Reason> {
        match number {
            1 => Ok(Version::Plain),
            2 => Ok(Version::Counted),
            _ => Err(Reason::WrongVersion),
        }
    }
}

// The number of two bytes from `i` on.
#[tactic(auto, using(crate::proofs::Numbers::number_two))]
fn two_at(file: &[u8], i: usize) -> u16
    requires { i + 2 ≤ length file.now }
    ensures { result ≡ number_at 2 file.now i }
{
    u16::from_be_bytes([file[i], file[i + 1]])
}

fn has_mark(file: &[u8]) -> bool
    requires { header_length ≤ length file.now }
    ensures { result ≡ eqb (mark_in file.now) mark }
{
    file.starts_with(&MARK)
}

// What a file's first bytes say: its version, the size of its rack and the number of its lines.
#[derive(Clone, Copy, Debug, PartialEq, Eq)]
pub struct Header {
    pub version: Version,
    pub rack: usize,
    pub count: usize,
}

impl Header {
    // Reads the header of a file. It is refused by the mark, the version or the rack, in the rule book's order.
    pub fn read(file: &[u8]) -> Result<Header, Reason>
        ensures refusal { number_in result ≡ start_number file.now }
        ensures header { IfOk result (λ header. IsHeaderOf file.now header) }
    {
        if file.len() < HEADER {
            return Err(Reason::ShortFile);
        }
        if !has_mark(file) {
            return Err(Reason::WrongMark);
        }
        let version = Version::try_from(two_at(file, 3))?;
        let rack = usize::from(file[5]);
        if !tips::rack_ok(rack) {
            return Err(Reason::RackSize);
        }
        let count = usize::from(two_at(file, 6));
        Ok(Header {
            version,
            rack,
            count,
        })
    }
}

// Why a line is refused, by its set, then by its quantity.
pub fn check_line(rack: usize, set: u64, quantity: u8) -> Result<(), Reason>
    ensures { number_in result ≡ line_number rack set quantity }
{
    if tips::is_empty(set) {
        return Err(Reason::EmptyLine);
    }
    if !tips::in_rack(rack, set) {
        return Err(Reason::TipOutside);
    }
    if quantity == 0 {
        return Err(Reason::ZeroQuantity);
    }
    Ok(())
}
