// Exact sharing of a job file whose lines name few tips.
ghost use Rattle.std.specs.Prelude.{◌≡◌, ◌≤◌, length};
ghost use Rattle.model.specs.Limits.{most_pairs};
ghost use Rattle.file_calls.specs.Exact.{exact_in, exact_plan_in, exact_cells_in, ExactRuleOf};
ghost use Rattle.tipshare_c.specs.Answer.{if_short, number_in, answer_in, seen, mounted_by};
ghost use Rattle.cases.specs.Cases.{Told};
ghost use Rattle.file_calls.specs.Cases.{exact_cases};

use crate::answers::{PLACES, SHORT_ANSWER, mounted_by, put_answer};

#[tactic(auto, unfolding(crate::specs::Answer::if_short))]
#[unsafe(no_mangle)]
pub extern "C" fn tipshare_exact(
    file: &[u8],
    mounted: usize,
    price: u32,
    plan: &mut [u8],
    table: &mut [u32],
    answer: &mut [u64],
) -> u32
    ensures number { result ≡ number_in answer.old
        (exact_in file.now (mounted_by mounted) price (length plan.old) (length table.old)) }
    ensures answer { answer.new ≡ answer_in answer.old
        (exact_in file.now (mounted_by mounted) price (length plan.old) (length table.old)) }
    ensures plan { plan.new ≡ if_short answer.old plan.old
        (exact_plan_in file.now (mounted_by mounted) price plan.old (length table.old)) }
    ensures table { table.new ≡ if_short answer.old table.old
        (exact_cells_in file.now (mounted_by mounted) price (length plan.old) table.old) }
    ensures rule { ExactRuleOf file.now price plan.new (seen result answer.new) }
    ensures cases { 4 ≤ length answer.old
        → Told (exact_cases file.now (mounted_by mounted) (length plan.old) (length table.old)) (seen result answer.new).refusal }
    ensures few { 4 ≤ length answer.old → (seen result answer.new).first ≤ most_pairs }
{
    let Some(places) = answer.first_chunk_mut::<PLACES>() else {
        return SHORT_ANSWER;
    };
    let outcome = file_calls::exact_outcome(file, mounted_by(mounted), price, plan, table);
    put_answer(outcome, places)
}
