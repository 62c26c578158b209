// How refusals, buffers and boards are printed.
use board::Board;
use refusal::Refused;
use std::io::Write;
use std::{fmt, io};
use try_lib::changes;

// How many values are shown one by one.
const SHOWN: usize = 32;

// A set with one tip more or less has another remainder.
const PRIME: u64 = 1000003;

// The number and the place of a refusal; both are 0 where nothing is refused, as the expected output has them.
#[derive(Clone, Copy)]
pub(crate) struct Told {
    number: u32,
    place: usize,
}

impl Told {
    pub(crate) fn new<T>(told: &Result<T, Refused>) -> Told {
        match told {
            Ok(_) => Told {
                number: 0,
                place: 0,
            },
            Err(refused) => Told {
                number: refused.reason.number(),
                place: refused.place,
            },
        }
    }
}

impl fmt::Display for Told {
    fn fmt<W: fmt::Write>(&self, f: &mut fmt::Formatter<W>) -> fmt::Result {
        write!(f, " number {} place {}", self.number, self.place)
    }
}

// Values of which only the first `written` should be other than blank.
#[derive(Drop)]
pub(crate) struct Values<'a, T> {
    values: &'a [T],
    blank: T,
    written: usize,
}

impl<'a, T> Values<'a, T> {
    pub(crate) fn new(values: &'a [T], blank: T, written: usize) -> Values<'a, T> {
        Values {
            values,
            blank,
            written,
        }
    }
}

// Of the values of a list: how many are not blank, how many of those stand behind the first `written`, their sum, and the
// sum of such sums.
#[derive(Clone, Copy, Default)]
struct Tally {
    changed: usize,
    behind: usize,
    first: u64,
    all: u64,
}

impl<T: Copy + Into<u64>> fmt::Display for Values<'_, T> {
    fn fmt<W: fmt::Write>(&self, f: &mut fmt::Formatter<W>) -> fmt::Result {
        let blank: u64 = self.blank.into();
        let mut tally = Tally::default();
        for (i, value) in self.values.iter().enumerate() {
            let value: u64 = (*value).into();
            tally.first = tally.first.saturating_add(value % PRIME);
            tally.all = tally.all.saturating_add(tally.first);
            if value != blank {
                tally.changed = tally.changed.saturating_add(1);
                if self.written <= i {
                    tally.behind = tally.behind.saturating_add(1);
                }
                if i < SHOWN {
                    write!(f, " {value}")?;
                }
            }
        }
        write!(f, " changed {}", tally.changed)?;
        if tally.changed != 0 {
            write!(f, " behind {} sum {}", tally.behind, tally.all)?;
        }
        Ok(())
    }
}

// The board that a call hands back, beside the one that it was given; its lines are printed only where something differs.
#[derive(Clone, Copy)]
pub(crate) struct Back<'a> {
    given: &'a Board,
    back: &'a Board,
}

impl<'a> Back<'a> {
    pub(crate) fn new(given: &'a Board, back: &'a Board) -> Back<'a> {
        Back { given, back }
    }
}

impl fmt::Display for Back<'_> {
    fn fmt<W: fmt::Write>(&self, f: &mut fmt::Formatter<W>) -> fmt::Result {
        let back = self.back;
        let changed = changes(self.given, back);
        write!(f, " board rack {} stage {}", back.rack, back.stage as u8)?;
        write!(f, " count {} changed {changed}", back.count)?;
        if changed != 0 {
            let sets = Values::new(&back.sets, 0, back.count);
            let quantities = Values::new(&back.quantities, 0, back.count);
            write!(f, " sets{sets} quantity{quantities}")?;
        }
        Ok(())
    }
}

// Prints what a call tells that was given one board and leaves another.
pub(crate) fn show_told<W: Write, T>(
    out: &mut W,
    given: &Board,
    told: &Result<T, Refused>,
    left: &Board,
) -> io::Result<()> {
    let back = Back::new(given, left);
    writeln!(out, "{}{back}", Told::new(told))
}
