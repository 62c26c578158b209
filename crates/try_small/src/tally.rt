// What was tried: the boards, and the calls on them.
use std::fmt;
use std::ops::AddAssign;

// How often something was tried, how often it was refused, and how many facts did not hold.
#[derive(Clone, Copy, Default)]
pub struct Calls {
    tried: usize,
    refused: usize,
    wrong: usize,
}

impl Calls {
    // What was tried once.
    pub fn one(refused: bool, wrong: usize) -> Calls {
        Calls {
            tried: 1,
            refused: usize::from(refused),
            wrong,
        }
    }
}

impl AddAssign for Calls {
    fn add_assign(&mut self, more: Calls) {
        self.tried = self.tried.saturating_add(more.tried);
        self.refused = self.refused.saturating_add(more.refused);
        self.wrong = self.wrong.saturating_add(more.wrong);
    }
}

#[derive(Clone, Copy, Default)]
pub struct Tally {
    pub boards: Calls,
    pub common_tip: Calls,
    pub keep: Calls,
    pub quick: Calls,
    pub best: Calls,
    pub along: Calls,
    pub exact: Calls,
}

impl AddAssign for Tally {
    fn add_assign(&mut self, more: Tally) {
        self.boards += more.boards;
        self.common_tip += more.common_tip;
        self.keep += more.keep;
        self.quick += more.quick;
        self.best += more.best;
        self.along += more.along;
        self.exact += more.exact;
    }
}

impl fmt::Display for Tally {
    fn fmt<W: fmt::Write>(&self, f: &mut fmt::Formatter<W>) -> fmt::Result {
        let Tally {
            boards,
            common_tip,
            keep,
            quick,
            best,
            along,
            exact,
        } = self;
        write!(f, "boards {} wrong {}; ", boards.tried, boards.wrong)?;
        write!(
            f,
            "common tip {} wrong {}; ",
            common_tip.tried, common_tip.wrong
        )?;
        write!(
            f,
            "keep {} refused 26: {} wrong {}; ",
            keep.tried, keep.refused, keep.wrong
        )?;
        write!(f, "quick {} wrong {}; ", quick.tried, quick.wrong)?;
        write!(
            f,
            "best {} refused 25: {} wrong {}; ",
            best.tried, best.refused, best.wrong
        )?;
        write!(f, "along {} wrong {}; ", along.tried, along.wrong)?;
        write!(f, "exact {} wrong {}", exact.tried, exact.wrong)
    }
}
