// The lines that mending reads of a file.
ghost use Rattle.std.specs.Prelude.{◌≡◌, ◌<◌, ◌+◌, ◌*◌, not, eqb, IfOk};
ghost use Rattle.job.specs.Job.{set_in, quantity_in, start_number, read_refusal, version_in, count_in, file_length};
ghost use Rattle.job.specs.Header.{IsHeaderOf};
ghost use Rattle.refusal.specs.Reasons.{number_in};
ghost use Rattle.mend_rules.specs.Mending.{read_count, has_more_bytes};

use crate::line::Line;
use job::Header;
use job_read::JobFile;
use refusal::Reason;

// Reading accepts the file.
pub fn is_accepted(file: &[u8]) -> bool
    ensures { result ≡ eqb (read_refusal file.now).number 0 }
{
    JobFile::open(file).is_ok_and(JobFile::good_lines)
}

// A file whose first bytes are not refused, with its header, and how many of its lines are read. They stay while others are written.
#[derive(Clone, Copy)]
pub struct Started<'a> {
    pub bytes: &'a [u8],
    pub header: Header,
    pub count: usize,
    ghost good: { start_number bytes.now ≡ 0 },
    ghost header_is: { IsHeaderOf bytes.now header },
    ghost count_is: { count ≡ read_count bytes.now },
}

impl<'a> Started<'a> {
    #[tactic(auto, using(job::proofs::Lines::line_long), unfolding(mend_rules::specs::Mending::read_count))]
    pub fn open(file: &'a [u8]) -> Result<Started<'a>, Reason>
        ensures refusal { number_in result ≡ start_number file.now }
        ensures same { IfOk result (λ started. started.bytes.now ≡ file.now) }
    {
        let header = Header::read(file)?;
        let whole = (file.len() - job::HEADER) / header.version.line_length();
        let count = header.count.min(whole.min(model::MOST_LINES));
        Ok(Started {
            bytes: file,
            header,
            count,
        })
    }

    #[tactic(auto, using(crate::proofs::There::line_there))]
    pub fn line(self, i: usize) -> Line
        requires { i < self.count }
        ensures set { result.set ≡ set_in self.entry.bytes.now i }
        ensures quantity { result.quantity ≡ quantity_in self.entry.bytes.now i }
    {
        let (set, quantity) = job_read::line_of(self.bytes, self.header.version, i);
        Line { set, quantity }
    }

    // The bytes of the header and of all lines read: the mended file has no more.
    #[tactic(auto, using(crate::proofs::There::lines_there))]
    pub fn whole_length(self) -> usize
        ensures { result ≡ file_length (version_in self.entry.bytes.now) (read_count self.entry.bytes.now) }
    {
        self.header.version.file_length(self.count)
    }

    // Bytes follow the last line read.
    pub fn has_more(self) -> bool
        ensures { result ≡ has_more_bytes self.entry.bytes.now }
    {
        self.whole_length() < self.bytes.len()
    }

    // The count written, which is that of the lines kept, differs from the count found.
    pub fn is_recounted(self, kept: usize) -> bool
        ensures { result ≡ not (eqb kept (count_in self.entry.bytes.now)) }
    {
        kept != self.header.count
    }
}
