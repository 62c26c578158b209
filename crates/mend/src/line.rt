// One line as it is read, and mended.
ghost use Rattle.std.specs.Prelude.{◌≡◌, ◌%◌, ◌^◌, eqb};
ghost use Rattle.model.specs.Plan.{in_rack};
ghost use Rattle.job.specs.Job.{line_number};
ghost use Rattle.mend_rules.specs.Mending.{mended_line, left_empty};
ghost use Rattle.mend.specs.Parts.{read_as};

#[derive(Clone, Copy)]
pub struct Line {
    pub set: u64,
    pub quantity: u8,
}

// The set without the tips outside the rack; with 64 tips or more none can be, and a shift by 64 is undefined.
fn mended_set(rack: usize, set: u64) -> u64
    ensures { result ≡ set % 2 ^ rack }
{
    if 64 <= rack {
        return set;
    }
    set % (1 << rack)
}

impl Line {
    // The line without the tips outside the rack, and with a quantity of at least 1.
    #[tactic(auto, unfolding(mend_rules::specs::Mending::mended_line))]
    pub fn mended(self, rack: usize) -> Line
        ensures { read_as result ≡ mended_line rack (read_as self) }
    {
        Line {
            set: mended_set(rack, self.set),
            quantity: self.quantity.max(1),
        }
    }

    // No tip of the line is in the rack.
    #[tactic(auto, unfolding(mend_rules::specs::Mending::left_empty, mend_rules::specs::Mending::mended_line))]
    pub fn is_left_empty(self, rack: usize) -> bool
        ensures { result ≡ left_empty rack (read_as self) }
    {
        mended_set(rack, self.set) == 0
    }
    // No tip of the line is outside the rack. The set is mended anyway, to be written.
    #[tactic(auto, using(crate::proofs::Inside::inside), unfolding(model::specs::Plan::in_rack))]
    fn is_inside(self, rack: usize) -> bool
        ensures { result ≡ in_rack rack self.set }
    {
        mended_set(rack, self.set) == self.set
    }

    #[tactic(auto, unfolding(job::specs::Job::line_number))]
    pub fn is_good(self, rack: usize) -> bool
        ensures { result ≡ eqb (line_number rack self.set self.quantity) 0 }
    {
        if tips::is_empty(self.set) {
            return false;
        }
        if !self.is_inside(rack) {
            return false;
        }
        self.quantity != 0
    }
}
