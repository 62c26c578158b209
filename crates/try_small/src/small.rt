// Small jobs solved by trying every plan.
use std::alloc::{AllocError, Global};
use try_lib::{Line, off, set_of, uses};

// A small job, with every valid plan of it.
#[derive(Drop)]
pub struct Small<'a> {
    pub rack: u8,
    pub lines: Vec<Line>,
    plans: Vec<&'a [u8]>,
}

// Whether the tip is one of the line's own.
fn allows(line: &Line, tip: u8) -> bool {
    line.tips & set_of(tip) != 0
}

// Whether the plan puts each line on a tip of its own.
fn is_valid(lines: &[Line], plan: &[u8]) -> bool {
    lines.iter().zip(plan).all(|(line, tip)| allows(line, *tip))
}

// The pairs of a plan: on each tip, each placement with those before it.
fn pairs(rack: u8, lines: &[Line], plan: &[u8]) -> usize {
    (0..rack)
        .flat_map(|tip| 0..uses(lines, plan, tip))
        .fold(0, |pairs: usize, earlier| pairs.saturating_add(earlier))
}

// How often the head changes its tip along the plan, with the mounted tip on it at the start.
fn tip_changes(mounted: Option<u8>, plan: &[u8]) -> usize {
    let mut on = mounted;
    let mut changes: usize = 0;
    for tip in plan {
        if on.is_some_and(|before| before != *tip) {
            changes = changes.saturating_add(1);
        }
        on = Some(*tip);
    }
    changes
}

// The tips from the lowest of the set to its highest.
fn interval(tips: u64) -> u64 {
    let lowest = tips.trailing_zeros();
    let above = tips.leading_zeros();
    let from_lowest = u64::MAX.checked_shl(lowest).unwrap_or(0);
    let to_highest = u64::MAX.checked_shr(above).unwrap_or(0);
    from_lowest & to_highest
}

impl<'a> Small<'a> {
    // The job of the lines, where `plans` are all plans of so many lines over the rack, valid or not.
    pub fn new(
        alloc: Global,
        rack: u8,
        lines: Vec<Line>,
        plans: &'a [Vec<u8>],
    ) -> Result<Small<'a>, AllocError> {
        let valid = plans
            .iter()
            .map(|plan| plan.as_slice())
            .filter(|plan| is_valid(&lines, plan))
            .collect(alloc)?;
        Ok(Small {
            rack,
            lines,
            plans: valid,
        })
    }

    // How many lines the plan puts on a tip that is not their own.
    pub fn misses(&self, plan: &[u8]) -> usize {
        self.lines
            .iter()
            .zip(plan)
            .filter(|(line, tip)| !allows(line, **tip))
            .count()
    }

    // The pairs of the plan.
    pub fn pairs(&self, plan: &[u8]) -> usize {
        pairs(self.rack, &self.lines, plan)
    }

    // The least number of placements off the most used tip, over all valid plans.
    pub fn least_off(&self) -> usize {
        self.plans
            .iter()
            .map(|plan| off(self.rack, &self.lines, plan))
            .min()
            .unwrap_or(0)
    }

    // The places of exact sharing's table: two for each set of the tips that some line has.
    pub fn exact_places(&self) -> usize {
        let named = self.lines.iter().fold(0, |named, line| named | line.tips);
        2_usize
            .checked_shl(named.count_ones())
            .unwrap_or(usize::MAX)
    }

    // How many different tips the plan uses.
    pub fn tips_used(&self, plan: &[u8]) -> usize {
        (0..self.rack)
            .filter(|tip| uses(&self.lines, plan, *tip) != 0)
            .count()
    }

    // Whether no valid plan is better than one of these pairs and tips, where each tip costs the price.
    pub fn none_better(&self, price: usize, pairs: usize, tips: usize) -> bool {
        let paid = price.saturating_mul(tips);
        self.plans.iter().all(|plan| {
            let other_paid = price.saturating_mul(self.tips_used(plan));
            self.pairs(plan).saturating_add(paid) <= pairs.saturating_add(other_paid)
        })
    }

    // The tip changes of the plan.
    pub fn tip_changes(&self, mounted: Option<u8>, plan: &[u8]) -> usize {
        tip_changes(mounted, &plan[..self.lines.len().min(plan.len())])
    }

    // The fewest tip changes over all valid plans.
    pub fn fewest_changes(&self, mounted: Option<u8>) -> usize {
        self.plans
            .iter()
            .map(|plan| tip_changes(mounted, plan))
            .min()
            .unwrap_or(0)
    }

    fn most_pairs_of(&self, lines: &[Line]) -> usize {
        self.plans
            .iter()
            .map(|plan| pairs(self.rack, lines, plan))
            .max()
            .unwrap_or(0)
    }

    // The most pairs over all valid plans.
    pub fn most_pairs(&self) -> usize {
        self.most_pairs_of(&self.lines)
    }

    // The most pairs of the lines that have no tip outside the interval from `low` to `high`.
    fn most_pairs_between(&self, alloc: Global, low: u8, high: u8) -> Result<usize, AllocError> {
        let tips = interval(set_of(low) | set_of(high));
        let inside: Vec<Line> = self
            .lines
            .iter()
            .map(|line| {
                if line.tips & !tips == 0 {
                    *line
                } else {
                    Line {
                        quantity: 0,
                        ..*line
                    }
                }
            })
            .collect(alloc)?;
        Ok(self.most_pairs_of(&inside))
    }

    // The table of best sharing, row by row: the most pairs of the lines between two tips, 0 where the first is above the last.
    pub fn table(&self, alloc: Global) -> Result<Vec<usize>, AllocError> {
        let mut table = Vec::new(alloc);
        for low in 0..self.rack {
            for high in 0..self.rack {
                let pairs = if high < low {
                    0
                } else {
                    self.most_pairs_between(alloc, low, high)?
                };
                table.push(pairs)?;
            }
        }
        Ok(table)
    }

    // The lines, each with those tips alone that some valid plan within k uses there.
    pub fn supported(&self, alloc: Global, k: usize) -> Result<Vec<Line>, AllocError> {
        let mut supported: Vec<Line> = self
            .lines
            .iter()
            .map(|line| Line { tips: 0, ..*line })
            .collect(alloc)?;
        for plan in &self.plans {
            if off(self.rack, &self.lines, plan) <= k {
                for (line, tip) in supported.iter_mut().zip(*plan) {
                    line.tips |= set_of(*tip);
                }
            }
        }
        Ok(supported)
    }

    // The tips on which some valid plan puts `top` placements.
    pub fn busiest(&self, top: usize) -> u64 {
        let mut busiest = 0;
        for plan in &self.plans {
            for tip in 0..self.rack {
                if uses(&self.lines, plan, tip) == top {
                    busiest |= set_of(tip);
                }
            }
        }
        busiest
    }

    // The place of the first line that is no run: a tip that some line has is between its lowest and its highest, and not in it.
    pub fn first_no_run(&self) -> Option<usize> {
        let named = self.lines.iter().fold(0, |named, line| named | line.tips);
        self.lines
            .iter()
            .position(|line| named & interval(line.tips) != line.tips)
    }
}
