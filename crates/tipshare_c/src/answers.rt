// What the functions exported for C share: the four places of an answer, and the mounted tip by its number.
ghost use Rattle.std.specs.Prelude.{◌≡◌, ◌∷◌, []};
ghost use Rattle.head.specs.OnHead.{on_head};
ghost use Rattle.file_calls.specs.Outcomes.{refused_outcome, outcome_of, kept_outcome_of};
ghost use Rattle.tipshare_c.specs.Answer.{places_of, mounted_by};

use file_calls::Counts;
use refusal::{Refused, Unkept};

// Stands for no mounted tip: every other number that is no tip of the rack is refused.
const NO_TIP: usize = usize::MAX;

// The places of an answer, and the number for an array that has fewer.
pub const PLACES: usize = 4;

pub const SHORT_ANSWER: u32 = 100;

pub fn mounted_by(number: usize) -> Option<usize>
    ensures { on_head result ≡ mounted_by number }
{
    if number == NO_TIP { None } else { Some(number) }
}

fn put_places(place: usize, counts: Counts, places: &mut [u64; PLACES])
    ensures { places.new ≡ place ∷ counts.first ∷ counts.second ∷ counts.third ∷ [] }
{
    *places = [place as u64, counts.first, counts.second, counts.third];
}

// Writes what a refusal tells: its place, with its first count; answers its number.
fn put_refused(refused: Refused, first: u64, places: &mut [u64; PLACES]) -> u32
    ensures number { result ≡ (refused_outcome refused first).refusal.number }
    ensures places { places.new ≡ places_of (refused_outcome refused first) }
{
    put_places(refused.place, Counts::one(first), places);
    refused.reason.number()
}

// Answers the number, 0 for none, and writes the four places.
pub fn put_answer(outcome: Result<Counts, Refused>, places: &mut [u64; PLACES]) -> u32
    ensures number { result ≡ (outcome_of outcome).refusal.number }
    ensures places { places.new ≡ places_of (outcome_of outcome) }
{
    match outcome {
        Ok(counts) => {
            put_places(0, counts, places);
            0
        }
        Err(refused) => put_refused(refused, 0, places),
    }
}

// The same of keep: a refusal tells its margin.
pub fn put_kept(outcome: Result<Counts, Unkept>, places: &mut [u64; PLACES]) -> u32
    ensures number { result ≡ (kept_outcome_of outcome).refusal.number }
    ensures places { places.new ≡ places_of (kept_outcome_of outcome) }
{
    match outcome {
        Ok(counts) => {
            put_places(0, counts, places);
            0
        }
        Err(unkept) => put_refused(
            unkept.refused,
            file_calls::twos_complement(unkept.margin),
            places,
        ),
    }
}
