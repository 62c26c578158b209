// The records that plain numbers stand for.
ghost use Rattle.std.specs.Prelude.{◌≡◌, ◌/◌, length, IfOk};
ghost use Rattle.std.specs.Simd.{first_chunks};
ghost use Rattle.refusal.specs.Reasons.{refusal_of};
ghost use Rattle.number_calls.specs.Numbers.{part_of_numbers, rule_in, numbers_refusal};

use order_rules::{Part, Rule};
use refusal::{Reason, Refused};

#[tactic(auto, unfolding(crate::specs::Numbers::part_of_numbers))]
pub fn part_of(numbers: &[u32; 4]) -> Part
    ensures { result ≡ part_of_numbers numbers.now 0 }
{
    let [first, last, fine, tall] = *numbers;
    Part {
        first: first as usize,
        last: last as usize,
        fine: fine != 0,
        tall: tall != 0,
    }
}

// The records of the parts and those of the rules.
pub fn records_of<'p, 'r>(
    parts: &'p [u32],
    rules: &'r [u32],
) -> Result<(&'p [[u32; 4]], &'r [[u32; 2]]), Refused>
    ensures refusal { refusal_of result ≡ numbers_refusal parts.now rules.now }
    ensures parts { IfOk result (λ r. r.0.now ≡ first_chunks 4 (length parts.now / 4) parts.now) }
    ensures rules { IfOk result (λ r. r.1.now ≡ first_chunks 2 (length rules.now / 2) rules.now) }
{
    let (records, more) = parts.as_chunks::<4>();
    let (pairs, one) = rules.as_chunks::<2>();
    if !more.is_empty() || !one.is_empty() {
        return Err(Reason::BrokenRecord.at(0));
    }
    Ok((records, pairs))
}

#[tactic(auto, unfolding(crate::specs::Numbers::rule_in))]
pub fn rule_of(numbers: &[u32; 2]) -> Rule
    ensures { result ≡ rule_in numbers.now 0 }
{
    let [earlier, later] = *numbers;
    Rule {
        earlier: earlier as usize,
        later: later as usize,
    }
}
