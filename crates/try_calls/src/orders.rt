// The parts and rules of a placing order by hand, and the call on them.
use crate::lent::{lent, read, written};
use crate::record::fill;
use crate::shown::{Told, Values};
use order_rules::{Part, Rule};
use refusal::Refused;
use std::io;
use std::io::Write;

// Eight places more than a placing order has parts.
const ORDER_ROOM: usize = 136;

const RULE_ROOM: usize = 8;

// The first parts and rules are those of the order.
#[derive(Clone, Copy)]
pub(crate) struct Orders {
    parts: [Part; ORDER_ROOM],
    part_count: usize,
    rules: [Rule; RULE_ROOM],
    rule_count: usize,
}

// A change by hand. A place past every part or rule changes nothing.
#[derive(Clone, Copy)]
pub(crate) enum OrderEdit {
    Parts(usize),
    Part {
        first: usize,
        last: usize,
        part: Part,
    },
    Rules(usize),
    Rule {
        at: usize,
        rule: Rule,
    },
}

impl Orders {
    pub(crate) fn new() -> Orders {
        let part = Part {
            first: 0,
            last: 0,
            fine: false,
            tall: false,
        };
        let rule = Rule {
            earlier: 0,
            later: 0,
        };
        Orders {
            parts: [part; ORDER_ROOM],
            part_count: 0,
            rules: [rule; RULE_ROOM],
            rule_count: 0,
        }
    }

    pub(crate) fn edit(&mut self, edit: OrderEdit) {
        match edit {
            OrderEdit::Parts(count) => self.part_count = count,
            OrderEdit::Part { first, last, part } => fill(&mut self.parts, first, last, part),
            OrderEdit::Rules(count) => self.rule_count = count,
            OrderEdit::Rule { at, rule } => fill(&mut self.rules, at, at, rule),
        }
    }

    pub(crate) fn order<W: Write>(
        &self,
        out: &mut W,
        room: Option<usize>,
        junk: u8,
    ) -> io::Result<()> {
        let parts = read(&self.parts, Some(self.part_count));
        let rules = read(&self.rules, Some(self.rule_count));
        let mut order = [junk; ORDER_ROOM];
        let told = placing::order_parts(parts, rules, lent(&mut order, room));
        let order = Values::new(&order, junk, written(&told, self.part_count));
        writeln!(out, "{} order{order}", Told::new(&told))
    }

    // By the tips of a plan: once over records, then over plain numbers.
    pub(crate) fn order_by_tips<W: Write>(
        &self,
        out: &mut W,
        room: Option<usize>,
        plan: &[u8],
        mounted: Option<usize>,
        junk: u8,
    ) -> io::Result<()> {
        let parts = read(&self.parts, Some(self.part_count));
        let rules = read(&self.rules, Some(self.rule_count));
        let mut order = [junk; ORDER_ROOM];
        let told = placing::order_by_tips(parts, rules, plan, mounted, lent(&mut order, room));
        self.show_by_tips(out, &told, &order, junk)?;
        let part_numbers = part_numbers(parts);
        let rule_numbers = rule_numbers(rules);
        let mut order = [junk; ORDER_ROOM];
        let told = number_calls::order_by_tips(
            read(&part_numbers, Some(4 * parts.len())),
            read(&rule_numbers, Some(2 * rules.len())),
            plan,
            mounted,
            lent(&mut order, room),
        );
        write!(out, " numbers")?;
        self.show_by_tips(out, &told, &order, junk)?;
        writeln!(out)
    }

    // The positions that the parts can have: once over records, then over plain numbers.
    pub(crate) fn windows<W: Write>(
        &self,
        out: &mut W,
        first_room: Option<usize>,
        last_room: Option<usize>,
        junk: u8,
    ) -> io::Result<()> {
        let parts = read(&self.parts, Some(self.part_count));
        let rules = read(&self.rules, Some(self.rule_count));
        let mut first = [junk; ORDER_ROOM];
        let mut last = [junk; ORDER_ROOM];
        let told = part_windows::part_windows(
            parts,
            rules,
            lent(&mut first, first_room),
            lent(&mut last, last_room),
        );
        self.show_windows(out, &told, &first, &last, junk)?;
        let part_numbers = part_numbers(parts);
        let rule_numbers = rule_numbers(rules);
        let mut first = [junk; ORDER_ROOM];
        let mut last = [junk; ORDER_ROOM];
        let told = number_calls::window_numbers(
            read(&part_numbers, Some(4 * parts.len())),
            read(&rule_numbers, Some(2 * rules.len())),
            lent(&mut first, first_room),
            lent(&mut last, last_room),
        );
        write!(out, " numbers")?;
        self.show_windows(out, &told, &first, &last, junk)?;
        writeln!(out)
    }

    fn show_windows<W: Write>(
        &self,
        out: &mut W,
        told: &Result<(), Refused>,
        first: &[u8],
        last: &[u8],
        junk: u8,
    ) -> io::Result<()> {
        let first = Values::new(first, junk, written(told, self.part_count));
        let last = Values::new(last, junk, written(told, self.part_count));
        write!(out, "{} first{first} last{last}", Told::new(told))
    }

    fn show_by_tips<W: Write>(
        &self,
        out: &mut W,
        told: &Result<usize, Refused>,
        order: &[u8],
        junk: u8,
    ) -> io::Result<()> {
        let changes = told.unwrap_or(0);
        let order = Values::new(order, junk, written(told, self.part_count));
        write!(out, "{} changes {changes} order{order}", Told::new(told))
    }
}

fn number_of(position: usize) -> u32 {
    u32::try_from(position).unwrap_or(u32::MAX)
}

// Four numbers a part.
fn part_numbers(parts: &[Part]) -> [u32; 4 * ORDER_ROOM] {
    let mut numbers = [0; 4 * ORDER_ROOM];
    for (record, part) in numbers.chunks_exact_mut(4).zip(parts) {
        record[0] = number_of(part.first);
        record[1] = number_of(part.last);
        record[2] = u32::from(part.fine);
        record[3] = u32::from(part.tall);
    }
    numbers
}

// Two numbers a rule.
fn rule_numbers(rules: &[Rule]) -> [u32; 2 * RULE_ROOM] {
    let mut numbers = [0; 2 * RULE_ROOM];
    for (record, rule) in numbers.chunks_exact_mut(2).zip(rules) {
        record[0] = number_of(rule.earlier);
        record[1] = number_of(rule.later);
    }
    numbers
}
