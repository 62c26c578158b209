// The refusals of the calls: the board's state in one decision, and for each call what it asks after that.
#![tactic(auto)]

ghost use Rattle.std.specs.Prelude.{◌≡◌, ◌≤◌, length};
ghost use Rattle.model.specs.Limits.{most_tips, most_lines, most_placements};
ghost use Rattle.placements.specs.Repeated.{total};
ghost use Rattle.head.specs.OnHead.{on_head};
ghost use Rattle.job.specs.Header.{version_number};
ghost use Rattle.refusal.specs.Refusal.{none};
ghost use Rattle.refusal.specs.Reasons.{refusal_of, unkept_of, margin_in};
ghost use Rattle.call_refusals.specs.State.{stage_refusal, state_refusal};
ghost use Rattle.call_refusals.specs.Calls.{add_refusal, keep_refusal, mounted_refusal};
ghost use Rattle.call_refusals.specs.Calls.{plan_refusal, run_refusal, best_refusal, write_refusal};

use job::Version;
use refusal::{Reason, Refused, Unkept};

mod junior_call;

pub use junior_call::junior_refusal;

#[derive(Clone, Copy, Debug, PartialEq, Eq)]
pub enum Stage {
    Open,
    Closed,
}

#[tactic(auto, unfolding(crate::specs::State::stage_refusal))]
fn stage_refusal(asked: Stage, stage: Stage) -> Result<(), Refused>
    ensures { refusal_of result ≡ stage_refusal asked stage }
{
    match (asked, stage) {
        (Stage::Open, Stage::Closed) => Err(Reason::BoardClosed.at(0)),
        (Stage::Closed, Stage::Open) => Err(Reason::BoardOpen.at(0)),
        _ => Ok(()),
    }
}

pub fn state_refusal(
    asked: Stage,
    rack: usize,
    stage: Stage,
    count: usize,
    sets: &[u64],
    quantities: &[u8],
) -> Result<(), Refused>
    requires sets_len { length sets.now ≡ most_lines }
    requires quantities_len { length quantities.now ≡ most_lines }
    ensures { refusal_of result ≡ state_refusal asked rack stage count quantities.now sets.now }
{
    sound::sound_refusal(rack, count, sets, quantities)?;
    stage_refusal(asked, stage)
}

// A line more behind those of these quantities; their total is worked out last, where nothing else is refused.
pub fn add_refusal(rack: usize, quantities: &[u8], set: u64, quantity: u8) -> Result<(), Refused>
    requires { total quantities.now ≤ most_placements }
    ensures { refusal_of result
        ≡ add_refusal none rack (length quantities.now) (total quantities.now) set quantity }
{
    if quantities.len() == model::MOST_LINES {
        return Err(Reason::TooManyLines.at(0));
    }
    job::check_line(rack, set, quantity)?;
    let placements = placements::total(quantities) + usize::from(quantity);
    refusal::refuse_when(
        model::MOST_PLACEMENTS < placements,
        Reason::TooManyPlacements,
    )
}

// The margin, where it is not below zero; the refusal tells it too.
pub fn keep_refusal(margin: i32) -> Result<i32, Unkept>
    ensures refusal { unkept_of result ≡ keep_refusal none margin }
    ensures margin { margin_in result ≡ margin }
{
    if margin < 0 {
        return Err(Unkept {
            refused: Reason::NoPlan.at(0),
            margin,
        });
    }
    Ok(margin)
}

// Quick and best ask this before the rest: a mounted tip outside the rack.
pub fn mounted_refusal(rack: usize, mounted: Option<usize>) -> Result<(), Refused>
    ensures { refusal_of result ≡ mounted_refusal none rack (on_head mounted) }
{
    match mounted {
        Some(tip) => refusal::refuse_when(rack <= tip, Reason::MountedOutside),
        None => Ok(()),
    }
}

// A plan buffer of `room` bytes that is shorter than the lines.
pub fn plan_refusal(count: usize, room: usize) -> Result<(), Refused>
    ensures { refusal_of result ≡ plan_refusal none count room }
{
    refusal::refuse_when(room < count, Reason::ShortPlan)
}

// The first line that misses a named tip.
pub fn run_refusal(lines: &[u64]) -> Result<(), Refused>
    ensures { refusal_of result ≡ run_refusal lines.now }
{
    refusal::refuse_at(ranks::first_not_run(lines), Reason::NoRun)
}

pub fn best_refusal(rack: usize, lines: &[u64], room: usize, places: usize) -> Result<(), Refused>
    requires { rack ≤ most_tips }
    ensures { refusal_of result ≡ best_refusal none rack lines.now room places }
{
    plan_refusal(lines.len(), room)?;
    refusal::refuse_when(places < rack * rack, Reason::ShortTable)?;
    run_refusal(lines)
}

// An output of `room` bytes that is shorter than the file of the lines in that version.
pub fn write_refusal(version: Version, count: usize, room: usize) -> Result<(), Refused>
    requires { count ≤ most_lines }
    ensures { refusal_of result ≡ write_refusal none (version_number version) count room }
{
    refusal::refuse_when(room < version.file_length(count), Reason::ShortOutput)
}
