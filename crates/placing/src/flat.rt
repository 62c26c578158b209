// The parts and the rules over flat arrays, and what is refused of them before a search.
ghost use Rattle.std.specs.Prelude.{◌≡◌, true, ℕ, List, ◌≤◌, ◌<◌, length, OnOk, IfOk, IfErr};
ghost use Rattle.refusal.specs.Reasons.{refusal_of};
ghost use Rattle.refusal.specs.declared.Reason.TheVariants.{BadWindow};
ghost use Rattle.order_rules.specs.declared.Part.{Part};
ghost use Rattle.order_rules.specs.declared.Rule.{Rule};
ghost use Rattle.order_rules.specs.Parts.{window_ok};
ghost use Rattle.order_rules.specs.Call.{first_bad, given_refusal};
ghost use Rattle.flat_order.specs.Flat.{SizedFor, InPlace};
ghost use Rattle.placing.specs.Rows.{GivesParts, GivesRules, Taken, FlatOf};

use crate::flags::{Kinds, start_rows};
use crate::marking::add_rules;
use flat_order::sets::PartSet;
use order_rules::{Part, Rule};
use refusal::{Reason, Refused};

#[tactic(auto, unfolding(order_rules::specs::Parts::window_ok))]
fn is_window_ok(n: usize, part: Part) -> bool
    ensures test { result ≡ window_ok n part }
    ensures inside { result ≡ true → (part.first < n) × (part.last < n) }
{
    part.first <= part.last && part.last < n
}

// The first and the last positions of n parts, and their kinds. The first part with a bad window is refused. The parts are a count and a
// function, as the rules are in `add_rules`.
fn take_parts<P: Fn(usize) -> Part>(
    n: usize,
    part_at: P,
    firsts: &mut [u8],
    lasts: &mut [u8],
) -> Result<Kinds, Refused>
    requires few { n ≤ 128 }
    requires firsts { n ≤ length firsts.old }
    requires lasts { n ≤ length lasts.old }
    requires callable { (i : ℕ) → i < n → P.pre part_at i }
    ensures firsts_size { length firsts.new ≡ length firsts.old }
    ensures lasts_size { length lasts.new ≡ length lasts.old }
    ensures firsts { OnOk result (InPlace n firsts.new) }
    ensures lasts { OnOk result (InPlace n lasts.new) }
    ensures ok { IfOk result (λ kinds. (parts : List Part) → GivesParts (P.post part_at) n parts → Taken parts n firsts.new lasts.new kinds) }
    ensures err { IfErr result (λ e. (parts : List Part) → GivesParts (P.post part_at) n parts
        → (e.reason ≡ BadWindow) × (e.place < length parts) × (e.place ≡ first_bad parts)) }
{
    let mut kinds = Kinds::NONE;
    for i in 0..n {
        let part = part_at(i);
        if !is_window_ok(n, part) {
            return Err(Reason::BadWindow.at(i));
        }
        firsts[i] = part.first as u8;
        lasts[i] = part.last as u8;
        kinds = kinds.with(i, part);
    }
    Ok(kinds)
}

// The refusals that do not depend on a search, in their order, and the arrays filled: by part its first and its last position, and the row of
// those that are to precede it. Every buffer that is lent has a byte for each part: `room` is the length of the shortest.
pub fn flat_parts<P: Fn(usize) -> Part, F: Fn(usize) -> Rule>(
    n: usize,
    part_at: P,
    count: usize,
    rule_at: F,
    room: usize,
    firsts: &mut [u8],
    lasts: &mut [u8],
    rows: &mut [PartSet],
) -> Result<(), Refused>
    requires few { n ≤ 128 }
    requires firsts { length firsts.old ≡ n }
    requires lasts { length lasts.old ≡ n }
    requires rows { length rows.old ≡ n }
    requires parts { (i : ℕ) → i < n → P.pre part_at i }
    requires rules { (i : ℕ) → i < count → F.pre rule_at i }
    ensures refusal { (parts : List Part) → GivesParts (P.post part_at) n parts → (rules : List Rule) → GivesRules (F.post rule_at) count rules
        → refusal_of result ≡ given_refusal parts rules room }
    ensures size { length lasts.new ≡ n }
    ensures sized { OnOk result (SizedFor (length lasts.new) firsts.new rows.new) }
    ensures firsts { OnOk result (InPlace (length lasts.new) firsts.new) }
    ensures lasts { OnOk result (InPlace (length lasts.new) lasts.new) }
    ensures flat { OnOk result ((parts : List Part) → GivesParts (P.post part_at) n parts
        → (rules : List Rule) → GivesRules (F.post rule_at) count rules → FlatOf parts rules firsts.new lasts.new rows.new) }
    ensures room { OnOk result (n ≤ room) }
{
    let kinds = take_parts(n, part_at, &mut *firsts, &mut *lasts)?;
    start_rows(kinds, &mut *rows);
    add_rules(n, &mut *rows, count, rule_at)?;
    if room < n {
        return Err(Reason::ShortOrder.at(0));
    }
    Ok(())
}
