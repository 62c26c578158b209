// Runs a script of calls, and prints the script with what each call answers. Its first lines say what each word means.
#![tactic(auto)]

mod calls;
mod lent;
mod orders;
mod plans;
mod record;
mod script;
mod shown;

use crate::lent::read;
use crate::record::State;
use crate::script::{Command, Line};
use std::io;
use std::io::{BufWriter, Read, Write};

// The most bytes of a script that are read.
const MOST_BYTES: u64 = 65536;

// Each kind of command is matched here alone.
fn run<W: Write>(out: &mut W, state: &mut State, command: &Command) -> io::Result<()> {
    match command {
        Command::Call(call) => state.call(out, *call),
        Command::Read { length, patches } => state.read(out, *length, patches),
        Command::Every { stage, mounted } => state.every(out, *stage, *mounted),
        Command::Order { room } => state.orders.order(out, *room, state.junk),
        Command::OrderByTips {
            room,
            count,
            mounted,
        } => {
            let plan = read(&state.plan, *count);
            state
                .orders
                .order_by_tips(out, *room, plan, *mounted, state.junk)
        }
        Command::Windows {
            first_room,
            last_room,
        } => state
            .orders
            .windows(out, *first_room, *last_room, state.junk),
        Command::Edit(edit) => {
            state.edit(*edit);
            Ok(())
        }
    }
}

// Runs the line with a value for the number that runs, if it is a command.
fn run_with<W: Write>(out: &mut W, state: &mut State, line: &Line, value: u64) -> io::Result<()> {
    match line.command(value) {
        Some(command) => run(out, state, &command),
        None => Ok(()),
    }
}

// Runs the line for each value of the number that runs, which is printed before what is answered.
fn run_line<W: Write>(out: &mut W, state: &mut State, line: &Line) -> io::Result<()> {
    let Some(values) = line.values() else {
        return run_with(out, state, line, 0);
    };
    for value in values {
        write!(out, "{value}")?;
        run_with(out, state, line, value)?;
    }
    Ok(())
}

// Prints each line of the script, then runs it. Text after the last line feed is only printed.
fn run_script<W: Write>(out: &mut W, script: &[u8]) -> io::Result<()> {
    let mut state = State::new();
    let mut line = Line::new();
    for byte in script {
        out.write_all(&[*byte])?;
        if *byte == b'\n' {
            run_line(out, &mut state, &line)?;
            line = Line::new();
        } else {
            line.read_byte(*byte);
        }
    }
    Ok(())
}

fn main(rt: HostRuntime) -> io::Result<()> {
    let alloc = rt.alloc();
    let mut script = Vec::new(alloc);
    rt.reader().take(MOST_BYTES).read_to_end(&mut script)?;
    let mut out = BufWriter::new(alloc, io::writer(&rt))?;
    run_script(&mut out, &script)?;
    out.flush()
}
