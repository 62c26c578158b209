// The Junior plans a board of few lines and few tips.
ghost use Rattle.std.specs.Prelude.{◌≡◌};
ghost use Rattle.refusal.specs.Refusal.{none};
ghost use Rattle.refusal.specs.Reasons.{refusal_of};
ghost use Rattle.call_refusals.specs.Junior.{junior_refusal};

use refusal::{Reason, Refused};

const JUNIOR_LINES: usize = 64;

const JUNIOR_TIPS: usize = 8;

// Too many lines, then too large a rack, then a plan buffer of `room` bytes that is shorter than the lines.
pub fn junior_refusal(rack: usize, count: usize, room: usize) -> Result<(), Refused>
    ensures { refusal_of result ≡ junior_refusal none rack count room }
{
    refusal::refuse_when(JUNIOR_LINES < count, Reason::TooManyLines)?;
    refusal::refuse_when(JUNIOR_TIPS < rack, Reason::RackSize)?;
    crate::plan_refusal(count, room)
}
