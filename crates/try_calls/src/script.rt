// The script as it is written: its lines, byte by byte, and the commands that they stand for.
use crate::calls::{Call, Fill};
use crate::lent::read;
use crate::orders::OrderEdit;
use crate::record::{Edit, Patch};
use board::Stage;
use order_rules::{Part, Rule};
use std::ops::Range;

// A number that the script does not give.
const NOT_GIVEN: u64 = u64::MAX;

// The word of a line that is no command.
const COMMENT: u64 = b'#' as u64;

#[derive(Clone, Copy)]
pub(crate) enum Command {
    Call(Call),
    Read {
        length: usize,
        patches: [Patch; 2],
    },
    // Only best gets the mounted tip.
    Every {
        stage: Stage,
        mounted: Option<usize>,
    },
    Order {
        room: Option<usize>,
    },
    OrderByTips {
        room: Option<usize>,
        count: Option<usize>,
        mounted: Option<usize>,
    },
    Windows {
        first_room: Option<usize>,
        last_room: Option<usize>,
    },
    Edit(Edit),
}

// What the next byte of a word or a number is: a letter, or a digit to the base ten or sixteen.
#[derive(Clone, Copy)]
enum Base {
    Letters,
    Ten,
    Sixteen,
}

impl Base {
    // What one more byte makes of a word or a number. No byte is refused: each is a digit by its low bits.
    fn longer(self, number: u64, byte: u8) -> u64 {
        let digit = u64::from(byte & 15);
        let letter = if byte <= b'9' { 0 } else { 9 };
        match self {
            Base::Letters => (number << 8).wrapping_add(u64::from(byte)),
            Base::Ten => number.wrapping_mul(10).wrapping_add(digit),
            Base::Sixteen => (number << 4).wrapping_add(digit).wrapping_add(letter),
        }
    }
}

// The part of a line that runs, and its first value.
#[derive(Clone, Copy)]
struct Run {
    at: usize,
    first: u64,
}

// A line as far as it is read: its word, which is part 0, and its numbers; the part that is read and its base, and the part that runs.
// The word is its letters to the base 256, of which the last eight are kept. A number too many is counted, not read.
#[derive(Clone, Copy)]
pub(crate) struct Line {
    parts: [u64; 8],
    at: usize,
    base: Base,
    runs: Option<Run>,
}

// The letters of a word, without the zeros before them.
fn letters(word: &[u8]) -> &[u8] {
    let mut letters = word;
    for _ in word {
        if let [0, rest @ ..] = letters {
            letters = rest;
        }
    }
    letters
}

fn byte(number: u64) -> u8 {
    u8::try_from(number).unwrap_or(u8::MAX)
}

fn pairs(number: u64) -> u32 {
    u32::try_from(number).unwrap_or(u32::MAX)
}

fn stage(number: u64) -> Stage {
    match number {
        0 => Stage::Open,
        _ => Stage::Closed,
    }
}

// The number at the place.
fn number(numbers: &[u64], place: usize) -> u64 {
    numbers.get(place).copied().unwrap_or(NOT_GIVEN)
}

fn size(numbers: &[u64], place: usize) -> usize {
    number(numbers, place) as usize
}

// Puts the lowest eight bits of the number.
fn patch(numbers: &[u64], at: usize, byte: usize) -> Patch {
    let [.., byte] = number(numbers, byte).to_be_bytes();
    Patch {
        at: size(numbers, at),
        byte,
    }
}

// The number at the place, if it is given.
fn given(numbers: &[u64], place: usize) -> Option<usize> {
    let number = numbers.get(place)?;
    Some(*number as usize)
}

// The tip on the head for quick and best: 2^64 - 1 stands for none, given or not.
fn mounted(numbers: &[u64], place: usize) -> Option<usize> {
    match number(numbers, place) {
        NOT_GIVEN => None,
        tip => Some(tip as usize),
    }
}

impl Call {
    // The call that a word stands for, if any does.
    fn new(word: &[u8], numbers: &[u64]) -> Option<Call> {
        match (word, numbers) {
            (b"open", _) => Some(Call::Open {
                rack: size(numbers, 0),
            }),
            (b"add", _) => Some(Call::Add {
                set: number(numbers, 0),
                quantity: byte(number(numbers, 1)),
            }),
            (b"fill", _) => Some(Call::Fill(Fill {
                times: size(numbers, 0),
                set: number(numbers, 1),
                sets: size(numbers, 2),
                quantity: size(numbers, 3),
                quantities: size(numbers, 4),
            })),
            (b"close", _) => Some(Call::Close),
            (b"common", _) => Some(Call::CommonTip),
            (b"keep", _) => Some(Call::Keep {
                k: u16::try_from(number(numbers, 0)).unwrap_or(u16::MAX),
            }),
            (b"quick", _) => Some(Call::Quick {
                room: given(numbers, 0),
                mounted: mounted(numbers, 1),
            }),
            (b"best", _) => Some(Call::Best {
                room: given(numbers, 0),
                places: given(numbers, 1),
                mounted: mounted(numbers, 2),
            }),
            (b"write", _) => Some(Call::Write {
                room: given(numbers, 0),
            }),
            _ => Call::of_plans(word, numbers),
        }
    }

    // The call of a goal, a check, the Junior, a plan along the list, exact sharing or two boards that a word stands for, if any does.
    fn of_plans(word: &[u8], numbers: &[u64]) -> Option<Call> {
        match (word, numbers) {
            (b"goal", [goal]) => Some(Call::Goal {
                pairs: pairs(*goal),
            }),
            (b"check", [claim, rest @ ..]) => Some(Call::Check {
                claim: pairs(*claim),
                room: given(rest, 0),
                places: given(rest, 1),
            }),
            (b"junior", _) => Some(Call::Junior {
                room: given(numbers, 0),
            }),
            (b"along", _) => Some(Call::Along {
                room: given(numbers, 0),
                mounted: given(numbers, 1),
            }),
            // What follows the x of exact is read to the base sixteen.
            (b"\x06\x5a\xcd", [price, rest @ ..]) => Some(Call::Exact {
                price: pairs(*price),
                room: given(rest, 0),
                places: given(rest, 1),
                mounted: given(rest, 2),
            }),
            (b"merge", []) => Some(Call::Merge),
            (b"alone", _) => Some(Call::Alone {
                room: given(numbers, 0),
            }),
            _ => None,
        }
    }
}

impl OrderEdit {
    // The change of parts or rules that a word stands for, if any does.
    fn new(word: &[u8], numbers: &[u64]) -> Option<OrderEdit> {
        match (word, numbers) {
            (b"parts", [count]) => Some(OrderEdit::Parts(*count as usize)),
            (b"part", [from, to, first, last, fine, tall]) => Some(OrderEdit::Part {
                first: *from as usize,
                last: *to as usize,
                part: Part {
                    first: *first as usize,
                    last: *last as usize,
                    fine: *fine != 0,
                    tall: *tall != 0,
                },
            }),
            (b"rules", [count]) => Some(OrderEdit::Rules(*count as usize)),
            (b"rule", [at, earlier, later]) => Some(OrderEdit::Rule {
                at: *at as usize,
                rule: Rule {
                    earlier: *earlier as usize,
                    later: *later as usize,
                },
            }),
            _ => None,
        }
    }
}

impl Edit {
    // The change by hand that a word stands for, if any does.
    fn new(word: &[u8], numbers: &[u64]) -> Option<Edit> {
        match (word, numbers) {
            (b"hold", _) => Some(Edit::Hold),
            (b"take", _) => Some(Edit::Take),
            (b"rack", _) => Some(Edit::Rack(size(numbers, 0))),
            (b"stage", _) => Some(Edit::Stage(stage(number(numbers, 0)))),
            (b"count", _) => Some(Edit::Count(size(numbers, 0))),
            (b"set", _) => Some(Edit::Sets {
                first: size(numbers, 0),
                last: size(numbers, 1),
                set: number(numbers, 2),
            }),
            (b"quantity", _) => Some(Edit::Quantities {
                first: size(numbers, 0),
                last: size(numbers, 1),
                quantity: byte(number(numbers, 2)),
            }),
            (b"byte", _) => Some(Edit::Byte(patch(numbers, 0, 1))),
            (b"put", _) => Some(Edit::Put {
                at: size(numbers, 0),
                number: number(numbers, 1),
            }),
            (b"plan", [first, last, tip]) => Some(Edit::Plan {
                first: *first as usize,
                last: *last as usize,
                tip: byte(*tip),
            }),
            (b"table", [first, last, number]) => Some(Edit::Table {
                first: *first as usize,
                last: *last as usize,
                pairs: pairs(*number),
            }),
            (b"junk", [to]) => Some(Edit::Junk(byte(*to))),
            _ => OrderEdit::new(word, numbers).map(Edit::Order),
        }
    }
}

impl Command {
    // The command that a word stands for, if any does.
    fn new(word: &[u8], numbers: &[u64]) -> Option<Command> {
        match (word, numbers) {
            (b"read", _) => Some(Command::Read {
                length: size(numbers, 0),
                patches: [patch(numbers, 1, 2), patch(numbers, 3, 4)],
            }),
            (b"every", _) => Some(Command::Every {
                stage: stage(number(numbers, 0)),
                mounted: mounted(numbers, 2),
            }),
            (b"order", _) => Some(Command::Order {
                room: given(numbers, 0),
            }),
            (b"tips", _) => Some(Command::OrderByTips {
                room: given(numbers, 0),
                count: given(numbers, 1),
                mounted: given(numbers, 2),
            }),
            (b"windows", _) => Some(Command::Windows {
                first_room: given(numbers, 0),
                last_room: given(numbers, 1),
            }),
            _ => Call::new(word, numbers)
                .map(Command::Call)
                .or(Edit::new(word, numbers).map(Command::Edit)),
        }
    }
}

impl Line {
    pub(crate) fn new() -> Line {
        let mut parts = [NOT_GIVEN; 8];
        parts[0] = 0;
        Line {
            parts,
            at: 0,
            base: Base::Letters,
            runs: None,
        }
    }

    // The most numbers that are read of the line: `part` has one more than the other words.
    fn most_numbers(&self) -> usize {
        match letters(&self.parts[0].to_be_bytes()) {
            b"part" => 6,
            _ => 5,
        }
    }

    // Reads one more byte. Ignores comments and everything after the last number.
    pub(crate) fn read_byte(&mut self, byte: u8) {
        if self.parts[0] == COMMENT || self.most_numbers() < self.at {
            return;
        }
        let at = self.at;
        let Some(part) = self.parts.get_mut(at) else {
            return;
        };
        match byte {
            b' ' => self.start(at.saturating_add(1)),
            b'x' => self.base = Base::Sixteen,
            b'-' => {
                self.base = Base::Ten;
                self.runs = Some(Run { at, first: *part });
                *part = 0;
            }
            _ => *part = self.base.longer(*part, byte),
        }
    }

    // Starts the number that is the part at the place.
    fn start(&mut self, at: usize) {
        self.at = at;
        self.base = Base::Ten;
        if let Some(part) = self.parts.get_mut(at) {
            *part = 0;
        }
    }

    // The values of the part that runs, if any does. A last value of 2^64 - 1 leaves none: one more is 0.
    pub(crate) fn values(&self) -> Option<Range<u64>> {
        let Run { at, first } = self.runs?;
        let last = *self.parts.get(at)?;
        Some(first..last.wrapping_add(1))
    }

    // The command of the line, if it is one, with a value for the part that runs.
    pub(crate) fn command(&self, value: u64) -> Option<Command> {
        let mut parts = self.parts;
        if let Some(Run { at, .. }) = self.runs
            && let Some(part) = parts.get_mut(at)
        {
            *part = value;
        }
        let word = self.parts[0].to_be_bytes();
        let numbers = read(&parts[1..], Some(self.at));
        Command::new(letters(&word), numbers)
    }
}
