// The calls that plan a board, that check a plan, and that take two boards: each prints what it answers.
use crate::lent::{lent, read, written};
use crate::record::State;
use crate::shown::{Back, Told, Values, show_told};
use board::{AlonePairs, AlongCounts, Board, Found, Shared};
use std::io;
use std::io::Write;
use try_lib::{PLAN_ROOM, TABLE_ROOM};

// Eight bytes more than the plans of two boards of 512 lines.
const TWO_PLANS_ROOM: usize = 1032;

// A place of a table, each byte of which is the one given.
pub(crate) fn place_of(byte: u8) -> u32 {
    u32::from_be_bytes([byte; 4])
}

impl State {
    // Prints the plan, of which an accepted call has written a byte for each line.
    fn show_plan<W: Write>(&self, out: &mut W, is_accepted: bool) -> io::Result<()> {
        let count = if is_accepted { self.board.count } else { 0 };
        write!(out, " plan{}", Values::new(&self.plan, self.junk, count))
    }

    pub(crate) fn quick<W: Write>(
        &mut self,
        out: &mut W,
        room: Option<usize>,
        mounted: Option<usize>,
    ) -> io::Result<()> {
        let given = self.board;
        self.plan = [self.junk; PLAN_ROOM];
        let told = self.board.quick(mounted, lent(&mut self.plan, room));
        write!(out, "{} pairs {}", Told::new(&told), told.unwrap_or(0))?;
        self.show_plan(out, told.is_ok())?;
        writeln!(out, "{}", Back::new(&given, &self.board))
    }

    pub(crate) fn best<W: Write>(
        &mut self,
        out: &mut W,
        room: Option<usize>,
        places: Option<usize>,
        mounted: Option<usize>,
    ) -> io::Result<()> {
        let given = self.board;
        let blank = place_of(self.junk);
        self.plan = [self.junk; PLAN_ROOM];
        self.table = [blank; TABLE_ROOM];
        let plan = lent(&mut self.plan, room);
        let told = self
            .board
            .best(mounted, plan, lent(&mut self.table, places));
        write!(out, "{} pairs {}", Told::new(&told), told.unwrap_or(0))?;
        self.show_plan(out, told.is_ok())?;
        let square = given.rack.saturating_mul(given.rack);
        let table = Values::new(&self.table, blank, written(&told, square));
        writeln!(out, " table{table}{}", Back::new(&given, &self.board))
    }

    pub(crate) fn junior<W: Write>(&mut self, out: &mut W, room: Option<usize>) -> io::Result<()> {
        let given = self.board;
        self.plan = [self.junk; PLAN_ROOM];
        let told = self.board.junior(lent(&mut self.plan, room));
        let Found { pairs, u, v } = told.unwrap_or(Found {
            pairs: 0,
            u: 0,
            v: 0,
        });
        write!(out, "{} pairs {pairs} u {u} v {v}", Told::new(&told))?;
        self.show_plan(out, told.is_ok())?;
        writeln!(out, "{}", Back::new(&given, &self.board))
    }

    pub(crate) fn along<W: Write>(
        &mut self,
        out: &mut W,
        room: Option<usize>,
        mounted: Option<usize>,
    ) -> io::Result<()> {
        let given = self.board;
        self.plan = [self.junk; PLAN_ROOM];
        let told = self.board.along(mounted, lent(&mut self.plan, room));
        let AlongCounts { changes, pairs } = told.unwrap_or(AlongCounts {
            changes: 0,
            pairs: 0,
        });
        write!(out, "{} changes {changes} pairs {pairs}", Told::new(&told))?;
        self.show_plan(out, told.is_ok())?;
        writeln!(out, "{}", Back::new(&given, &self.board))
    }

    pub(crate) fn exact<W: Write>(
        &mut self,
        out: &mut W,
        price: u32,
        room: Option<usize>,
        places: Option<usize>,
        mounted: Option<usize>,
    ) -> io::Result<()> {
        let given = self.board;
        let blank = place_of(self.junk);
        self.plan = [self.junk; PLAN_ROOM];
        self.table = [blank; TABLE_ROOM];
        let plan = lent(&mut self.plan, room);
        let told = self
            .board
            .exact(mounted, price, plan, lent(&mut self.table, places));
        let Shared { pairs, tips } = told.unwrap_or(Shared { pairs: 0, tips: 0 });
        write!(out, "{} pairs {pairs} tips {tips}", Told::new(&told))?;
        self.show_plan(out, told.is_ok())?;
        let named = given
            .sets
            .iter()
            .fold(0, |named: u64, set| named | *set)
            .count_ones();
        let table_places = 2_usize.checked_shl(named).unwrap_or(usize::MAX);
        let table = Values::new(&self.table, blank, written(&told, table_places));
        writeln!(out, " table{table}{}", Back::new(&given, &self.board))
    }

    // Of the plan and the table as they are.
    pub(crate) fn check<W: Write>(
        &self,
        out: &mut W,
        claim: u32,
        room: Option<usize>,
        places: Option<usize>,
    ) -> io::Result<()> {
        let given = self.board;
        let plan = read(&self.plan, room);
        let told = self.board.check(plan, claim, read(&self.table, places));
        show_told(out, &given, &told, &self.board)
    }

    // The board that is kept is held.
    pub(crate) fn goal<W: Write>(&mut self, out: &mut W, goal: u32) -> io::Result<()> {
        self.held = self.board;
        let told = self.held.goal(goal);
        show_told(out, &self.board, &told, &self.held)
    }

    // Prints both boards as two states have them.
    fn show_two<W: Write>(&self, out: &mut W, left: &State) -> io::Result<()> {
        let first = Back::new(&self.board, &left.board);
        let second = Back::new(&self.held, &left.held);
        write!(out, "{first}{second}")
    }

    pub(crate) fn merge<W: Write>(&self, out: &mut W) -> io::Result<()> {
        let given = *self;
        let merged = self.board.merge(&self.held);
        write!(out, "{}", Told::new(&merged))?;
        given.show_two(out, self)?;
        let panel = merged.unwrap_or(Board::blank());
        writeln!(out, "{}", Back::new(&given.board, &panel))
    }

    pub(crate) fn alone<W: Write>(&self, out: &mut W, room: Option<usize>) -> io::Result<()> {
        let given = *self;
        let mut plan = [self.junk; TWO_PLANS_ROOM];
        let told = self.board.alone(&self.held, lent(&mut plan, room));
        let AlonePairs { first, second } = told.unwrap_or(AlonePairs {
            first: 0,
            second: 0,
        });
        let lines = given.board.count.saturating_add(given.held.count);
        let plan = Values::new(&plan, self.junk, written(&told, lines));
        let told = Told::new(&told);
        write!(out, "{told} pairs {first} {second} plan{plan}")?;
        given.show_two(out, self)?;
        writeln!(out)
    }
}
