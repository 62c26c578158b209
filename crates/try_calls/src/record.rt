// The state of the script, and records, files and plans changed by hand.
use crate::orders::{OrderEdit, Orders};
use board::{Board, Stage};
use try_lib::{FILE_ROOM, JUNK, JUNK_PLACE, PLAN_ROOM, TABLE_ROOM};

// The board, the one that is held beside it, the bytes of a job file, and the plan and the table that a check looks at. Before a call each
// byte of a buffer is junk.
#[derive(Clone, Copy)]
pub(crate) struct State {
    pub(crate) board: Board,
    pub(crate) held: Board,
    pub(crate) file: [u8; FILE_ROOM],
    pub(crate) plan: [u8; PLAN_ROOM],
    pub(crate) table: [u32; TABLE_ROOM],
    pub(crate) orders: Orders,
    pub(crate) junk: u8,
}

// A change by hand. A place past every buffer changes nothing.
#[derive(Clone, Copy)]
pub(crate) enum Edit {
    Hold,
    Take,
    Rack(usize),
    Stage(Stage),
    Count(usize),
    Sets {
        first: usize,
        last: usize,
        set: u64,
    },
    Quantities {
        first: usize,
        last: usize,
        quantity: u8,
    },
    Byte(Patch),
    Put {
        at: usize,
        number: u64,
    },
    Plan {
        first: usize,
        last: usize,
        tip: u8,
    },
    Table {
        first: usize,
        last: usize,
        pairs: u32,
    },
    Junk(u8),
    Order(OrderEdit),
}

// A byte for a place of the file.
#[derive(Clone, Copy)]
pub(crate) struct Patch {
    pub(crate) at: usize,
    pub(crate) byte: u8,
}

// Fills the values from one place to another.
pub(crate) fn fill<T: Copy>(values: &mut [T], first: usize, last: usize, value: T) {
    for place in values.iter_mut().take(last.saturating_add(1)).skip(first) {
        *place = value;
    }
}

// Puts the bytes into the file from a place on, but for those past its end.
fn put(file: &mut [u8], at: usize, bytes: &[u8]) {
    for (place, byte) in file.iter_mut().skip(at).zip(bytes) {
        *place = *byte;
    }
}

impl Patch {
    pub(crate) fn put(&self, file: &mut [u8]) {
        put(file, self.at, &[self.byte]);
    }
}

impl State {
    pub(crate) fn new() -> State {
        let board = Board::blank();
        State {
            board,
            held: board,
            file: [JUNK; FILE_ROOM],
            plan: [JUNK; PLAN_ROOM],
            table: [JUNK_PLACE; TABLE_ROOM],
            orders: Orders::new(),
            junk: JUNK,
        }
    }

    pub(crate) fn edit(&mut self, edit: Edit) {
        let State {
            board,
            held,
            file,
            plan,
            table,
            orders,
            junk,
        } = self;
        match edit {
            Edit::Hold => *held = *board,
            Edit::Take => *board = *held,
            Edit::Rack(rack) => board.rack = rack,
            Edit::Stage(stage) => board.stage = stage,
            Edit::Count(count) => board.count = count,
            Edit::Sets { first, last, set } => fill(&mut board.sets, first, last, set),
            Edit::Quantities {
                first,
                last,
                quantity,
            } => fill(&mut board.quantities, first, last, quantity),
            Edit::Byte(patch) => patch.put(file),
            Edit::Put { at, number } => put(file, at, &number.to_be_bytes()),
            Edit::Plan { first, last, tip } => fill(plan, first, last, tip),
            Edit::Table { first, last, pairs } => fill(table, first, last, pairs),
            Edit::Junk(byte) => *junk = byte,
            Edit::Order(edit) => orders.edit(edit),
        }
    }
}
