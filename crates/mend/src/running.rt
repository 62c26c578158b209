// The lines that were read before a line, and what is done with it.
ghost use Rattle.std.specs.Prelude.{◌≡◌, cond, ◌&&◌, eqb, leb, ◌+◌, ◌≤◌, length};
ghost use Rattle.model.specs.Limits.{most_placements};
ghost use Rattle.job.specs.Job.{line_number};
ghost use Rattle.mend_rules.specs.Mending.{over, after, stays, is_cleared, is_emptied, is_raised, is_dropped, codes};
ghost use Rattle.mend.specs.Mend.{most_running};
ghost use Rattle.mend.specs.Parts.{read_as};

use crate::change::Changed;
use crate::line::Line;

// The rack, and the running total of the lines before.
#[derive(Clone, Copy)]
pub struct Running {
    pub rack: usize,
    pub total: usize,
    ghost low: { total ≤ most_running },
}

// Whether a line is kept, which is a fact by itself, the number of its changes, and the running total after it.
#[derive(Clone, Copy)]
pub struct Step {
    pub kept: bool,
    pub changes: usize,
    pub next: Running,
}

impl Running {
    pub fn new(rack: usize) -> Running
        ensures rack { result.rack ≡ rack }
        ensures total { result.total ≡ 0 }
    {
        Running { rack, total: 0 }
    }

    // A line was dropped for the total.
    fn is_over(self) -> bool
        ensures { result ≡ over self.total }
    {
        model::MOST_PLACEMENTS < self.total
    }

    #[tactic(auto, unfolding(mend_rules::specs::Mending::after, mend_rules::specs::Mending::mended_line))]
    pub fn after(self, line: Line) -> Running
        ensures rack { result.rack ≡ self.rack }
        ensures total { result.total ≡ after self.rack self.total (read_as line) }
    {
        if self.is_over() || line.is_left_empty(self.rack) {
            return self;
        }
        Running {
            rack: self.rack,
            total: self.total + usize::from(line.mended(self.rack).quantity),
        }
    }

    // The line is kept.
    #[tactic(auto, unfolding(mend_rules::specs::Mending::stays))]
    pub fn keeps(self, line: Line) -> bool
        ensures { result ≡ stays self.rack self.total (read_as line) }
    {
        !line.is_left_empty(self.rack) && !self.after(line).is_over()
    }

    pub fn changed(self, line: Line) -> Changed
        ensures cleared { result.cleared ≡ is_cleared self.rack self.total line.set }
        ensures emptied { result.emptied ≡ is_emptied self.rack self.total (read_as line) }
        ensures raised { result.raised ≡ is_raised self.rack self.total (read_as line) }
        ensures dropped { result.dropped ≡ is_dropped self.rack self.total (read_as line) }
    {
        let over = self.is_over();
        let empty = line.is_left_empty(self.rack);
        Changed {
            cleared: !over && !tips::in_rack(self.rack, line.set),
            emptied: !over && empty,
            raised: !over && !empty && line.quantity == 0,
            dropped: self.after(line).is_over(),
        }
    }

    // The line is good, and the total does not pass with it.
    fn is_good(self, line: Line) -> bool
        ensures { result ≡ (eqb (line_number self.rack line.set line.quantity) 0 && leb (self.total + line.quantity) most_placements) }
    {
        line.is_good(self.rack) && self.total + usize::from(line.quantity) <= model::MOST_PLACEMENTS
    }

    // The number of changes of a line. Few lines have any: out of line, they leave the registers to the loops over the lines.
    #[cold]
    #[inline(never)]
    #[tactic(auto, using(crate::proofs::Codes::codes_count))]
    fn changes(self, line: Line) -> usize
        ensures count { result ≡ length (codes self.rack self.total (read_as line)) }
        ensures few { result ≤ 4 }
    {
        self.changed(line).count()
    }

    // Most lines are good, and need no other test.
    pub fn step(self, line: Line) -> Step
        ensures kept { result.kept ≡ stays self.rack self.total (read_as line) }
        ensures changes { result.changes ≡ length (codes self.rack self.total (read_as line)) }
        ensures changes_few { result.changes ≤ 4 }
        ensures rack { result.next.rack ≡ self.rack }
        ensures total { result.next.total ≡ after self.rack self.total (read_as line) }
    {
        if self.is_good(line) {
            return Step {
                kept: true,
                changes: 0,
                next: Running {
                    rack: self.rack,
                    total: self.total + usize::from(line.quantity),
                },
            };
        }
        Step {
            kept: self.keeps(line),
            changes: self.changes(line),
            next: self.after(line),
        }
    }
}
