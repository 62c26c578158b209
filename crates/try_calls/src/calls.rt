// The calls of the script: each prints what it answers, and gives the next state.
ghost use Rattle.std.specs.Prelude.{◌<◌};

use crate::lent::lent;
use crate::record::{Patch, State};
use crate::shown::{Back, Told, Values, show_told};
use board::{Board, Common, Stage};
use refusal::Refused;
use std::io;
use std::io::Write;
use try_lib::FILE_ROOM;

// The most lines that are filled at once.
const MOST_TIMES: usize = 1000;

// A call on the board. A room that is not given is all of the buffer; without a mounted tip none is.
#[derive(Clone, Copy)]
pub(crate) enum Call {
    Open {
        rack: usize,
    },
    Add {
        set: u64,
        quantity: u8,
    },
    Fill(Fill),
    Close,
    CommonTip,
    Keep {
        k: u16,
    },
    Quick {
        room: Option<usize>,
        mounted: Option<usize>,
    },
    Best {
        room: Option<usize>,
        places: Option<usize>,
        mounted: Option<usize>,
    },
    Write {
        room: Option<usize>,
    },
    Goal {
        pairs: u32,
    },
    Check {
        claim: u32,
        room: Option<usize>,
        places: Option<usize>,
    },
    Junior {
        room: Option<usize>,
    },
    Along {
        room: Option<usize>,
        mounted: Option<usize>,
    },
    Exact {
        price: u32,
        room: Option<usize>,
        places: Option<usize>,
        mounted: Option<usize>,
    },
    // Merge and alone take the board and then the held one.
    Merge,
    Alone {
        room: Option<usize>,
    },
}

// So many lines: line i has the set moved up by i mod `sets` tips, and i mod `quantities` more placements.
#[derive(Clone, Copy)]
pub(crate) struct Fill {
    pub(crate) times: usize,
    pub(crate) set: u64,
    pub(crate) sets: usize,
    pub(crate) quantity: usize,
    pub(crate) quantities: usize,
}

// How many tips line i is moved up: i modulo turns, and 0 if that is above 63 or turns is 0.
fn turn(i: usize, turns: usize) -> usize
    ensures { result < 64 }
{
    let turn = i.checked_rem(turns).unwrap_or(0);
    if turn < 64 { turn } else { 0 }
}

impl Fill {
    // The set of line i.
    fn set_at(&self, i: usize) -> u64 {
        self.set << turn(i, self.sets)
    }

    // The quantity of line i.
    fn quantity_at(&self, i: usize) -> u8 {
        let quantity = self.quantity.wrapping_add(turn(i, self.quantities));
        u8::try_from(quantity).unwrap_or(u8::MAX)
    }

    // Adds the lines one by one, and gives what is told of the last.
    fn add_to(&self, board: &mut Board) -> Result<(), Refused> {
        let mut told = Ok(());
        for i in 0..self.times.min(MOST_TIMES) {
            told = board.add(self.set_at(i), self.quantity_at(i));
        }
        told
    }
}

fn common_tip<W: Write>(out: &mut W, board: &Board) -> io::Result<()> {
    let told = board.common_tip();
    write!(out, "{}", Told::new(&told))?;
    let Common { top, off, tips } = told.unwrap_or(Common {
        top: 0,
        off: 0,
        tips: 0,
    });
    let back = Back::new(board, board);
    writeln!(out, " top {top} off {off} tips {tips}{back}")
}

// Gives the board that is kept.
fn keep<W: Write>(out: &mut W, board: &Board, k: u16) -> io::Result<Board> {
    let mut kept = *board;
    // The margin is told with the refusal of too small a k too.
    let (told, margin) = match kept.keep(k) {
        Ok(margin) => (Ok(()), margin),
        Err(unkept) => (Err(unkept.refused), unkept.margin),
    };
    let name = if margin < 0 { "below" } else { "margin" };
    let size = margin.unsigned_abs();
    let back = Back::new(board, &kept);
    writeln!(out, "{} {name} {size}{back}", Told::new(&told))?;
    Ok(kept)
}

// Gives the file that is written.
fn write<W: Write>(
    out: &mut W,
    board: &Board,
    room: Option<usize>,
    junk: u8,
) -> io::Result<[u8; FILE_ROOM]> {
    let mut file = [junk; FILE_ROOM];
    let told = board.write(lent(&mut file, room));
    let length = told.unwrap_or(0);
    let bytes = Values::new(&file, junk, length);
    let back = Back::new(board, board);
    write!(out, "{} bytes {length}", Told::new(&told))?;
    writeln!(out, " file{bytes}{back}")?;
    Ok(file)
}

// The calls that are made on a record in each stage. Only best gets the mounted tip.
fn every_call(mounted: Option<usize>) -> [(&'static str, Call); 14] {
    [
        (
            "add",
            Call::Add {
                set: 1,
                quantity: 1,
            },
        ),
        ("close", Call::Close),
        ("common", Call::CommonTip),
        ("keep", Call::Keep { k: 5 }),
        (
            "quick",
            Call::Quick {
                room: None,
                mounted: None,
            },
        ),
        (
            "best",
            Call::Best {
                room: None,
                places: None,
                mounted,
            },
        ),
        ("write", Call::Write { room: None }),
        ("goal", Call::Goal { pairs: 1 }),
        (
            "check",
            Call::Check {
                claim: 0,
                room: None,
                places: None,
            },
        ),
        ("junior", Call::Junior { room: None }),
        (
            "along",
            Call::Along {
                room: None,
                mounted: None,
            },
        ),
        (
            "exact",
            Call::Exact {
                price: 1,
                room: None,
                places: None,
                mounted: None,
            },
        ),
        ("merge", Call::Merge),
        ("alone", Call::Alone { room: None }),
    ]
}

// Those that are made once more, with the record as the second board.
const ON_TWO_BOARDS: &[(&str, Call)] = &[
    ("held merge", Call::Merge),
    ("held alone", Call::Alone { room: None }),
];

impl State {
    pub(crate) fn call<W: Write>(&mut self, out: &mut W, call: Call) -> io::Result<()> {
        let given = self.board;
        match call {
            Call::Open { rack } => {
                let opened = Board::open(rack);
                self.board = opened.unwrap_or(Board::blank());
                show_told(out, &given, &opened, &self.board)
            }
            Call::Add { set, quantity } => {
                let told = self.board.add(set, quantity);
                show_told(out, &given, &told, &self.board)
            }
            Call::Fill(fill) => {
                let told = fill.add_to(&mut self.board);
                show_told(out, &given, &told, &self.board)
            }
            Call::Close => {
                let told = self.board.close();
                show_told(out, &given, &told, &self.board)
            }
            Call::CommonTip => common_tip(out, &given),
            Call::Keep { k } => {
                self.held = keep(out, &given, k)?;
                Ok(())
            }
            Call::Quick { room, mounted } => self.quick(out, room, mounted),
            Call::Best {
                room,
                places,
                mounted,
            } => self.best(out, room, places, mounted),
            Call::Write { room } => {
                self.file = write(out, &given, room, self.junk)?;
                Ok(())
            }
            Call::Goal { pairs } => self.goal(out, pairs),
            Call::Check {
                claim,
                room,
                places,
            } => self.check(out, claim, room, places),
            Call::Junior { room } => self.junior(out, room),
            Call::Along { room, mounted } => self.along(out, room, mounted),
            Call::Exact {
                price,
                room,
                places,
                mounted,
            } => self.exact(out, price, room, places, mounted),
            Call::Merge => self.merge(out),
            Call::Alone { room } => self.alone(out, room),
        }
    }

    // Reads the first bytes of the file, with some replaced; what is read is held.
    pub(crate) fn read<W: Write>(
        &mut self,
        out: &mut W,
        length: usize,
        patches: &[Patch],
    ) -> io::Result<()> {
        let mut file = self.file;
        for patch in patches {
            patch.put(&mut file);
        }
        let read = Board::read(&file[..length.min(FILE_ROOM)]);
        self.held = read.unwrap_or(Board::blank());
        show_told(out, &self.board, &read, &self.held)
    }

    // Each of the calls on the state as it is.
    fn each<W: Write>(&self, out: &mut W, calls: &[(&str, Call)]) -> io::Result<()> {
        for (name, call) in calls {
            write!(out, " {name}")?;
            let mut state = *self;
            state.call(out, *call)?;
        }
        Ok(())
    }

    // The record in a stage, then each call on it.
    pub(crate) fn every<W: Write>(
        &self,
        out: &mut W,
        stage: Stage,
        mounted: Option<usize>,
    ) -> io::Result<()> {
        let board = Board {
            stage,
            ..self.board
        };
        writeln!(out, " record{}", Back::new(&Board::blank(), &board))?;
        let record = State { board, ..*self };
        record.each(out, &every_call(mounted))?;
        let behind = State {
            board: self.held,
            held: board,
            ..*self
        };
        behind.each(out, ON_TWO_BOARDS)
    }
}
