// The placing order by tips: the plan has the tip of each part, one byte a part.
ghost use Rattle.std.specs.Prelude.{◌≡◌, ℕ, List, ◌≤◌, ◌<◌, length, get_or, T, not, position};
ghost use Rattle.model.specs.Count.{each};
ghost use Rattle.head.specs.OnHead.{on_head};
ghost use Rattle.refusal.specs.Reasons.{refusal_of, count_in};
ghost use Rattle.order_rules.specs.declared.Part.{Part};
ghost use Rattle.order_rules.specs.declared.Rule.{Rule};
ghost use Rattle.order_rules.specs.Tips.{tip_at, is_ready};
ghost use Rattle.order_rules.specs.TipCall.{tip_ok, head_ok, tips_refusal};
ghost use Rattle.flat_order.specs.Sets.{has_part};
ghost use Rattle.flat_order.specs.Flat.{Room, row_at};
ghost use Rattle.placing.specs.Rows.{GivesParts, GivesRules};
ghost use Rattle.placing.specs.ByTips.{OnTips, PlacedByTips};

use crate::flat::flat_parts;
use flat_order::changes::count_changes;
use flat_order::sets::PartSet;
use flat_order::{FEW_ENDS, FEW_PARTS, MOST_ENDS, MOST_PARTS, best_order};
use model::MOST_TIPS;
use order_rules::{Part, Rule};
use refusal::{Reason, Refused, refuse_at, refuse_when};

// The place of the first part whose tip is no tip.
fn first_bad_tip(plan: &[u8]) -> Option<usize>
    ensures { result ≡ position (λ tip. not (tip_ok tip)) plan.now }
{
    plan.iter().position(|tip| MOST_TIPS <= usize::from(*tip))
}

#[tactic(auto, unfolding(order_rules::specs::TipCall::head_ok))]
fn is_head_ok(mounted: Option<usize>) -> bool
    ensures { result ≡ head_ok (on_head mounted) }
{
    mounted.is_none_or(|on| on < MOST_TIPS)
}

// What is refused of the tips of n parts, in its order.
fn refuse_tips(n: usize, plan: &[u8], mounted: Option<usize>) -> Result<(), Refused>
    ensures { refusal_of result ≡ tips_refusal n plan.now (on_head mounted) }
{
    refuse_when(plan.len() < n, Reason::ShortPlan)?;
    refuse_at(first_bad_tip(&plan[..n]), Reason::TipOutside)?;
    refuse_when(!is_head_ok(mounted), Reason::MountedOutside)
}

// The parts on each tip.
fn parts_on_tips(plan: &[u8]) -> [PartSet; MOST_TIPS]
    requires few { length plan.now ≤ 128 }
    requires tips { T (each tip_ok plan.now) }
    ensures size { length result ≡ 64 }
    ensures tips { OnTips plan.now (length plan.now) result }
{
    let mut sets = [PartSet::EMPTY; MOST_TIPS];
    for (i, &byte) in plan.iter().enumerate() {
        let tip = usize::from(byte);
        sets[tip] = sets[tip] | PartSet::single(i);
    }
    sets
}

// The parts that are ready at the start: those on the mounted tip.
fn ready_at_start(mounted: Option<usize>, on_tip: &[PartSet]) -> PartSet
    requires tips { length on_tip.now ≡ 64 }
    requires head { T (head_ok (on_head mounted)) }
    ensures { (plan : List ℕ) → OnTips plan (length plan) on_tip.now → (x : ℕ) → x < length plan
        → has_part result x ≡ is_ready plan (on_head mounted) x }
{
    match mounted {
        Some(tip) => on_tip[tip],
        None => PartSet::EMPTY,
    }
}

// The parts that are ready after part x: those on its tip.
fn ready_after(on_tip: &[PartSet], plan: &[u8], x: usize) -> PartSet
    requires part { x < length plan.now }
    requires tip { get_or plan.now x 0 < length on_tip.now }
    ensures { result ≡ row_at on_tip.now (tip_at plan.now x) }
{
    on_tip[usize::from(plan[x])]
}

// The refusals in their order, the order handed over, and how often it changes the tip, of n parts for which there is room.
fn place_by_tips_in<
    const PLACES: usize,
    const ENDS: usize,
    P: Fn(usize) -> Part,
    F: Fn(usize) -> Rule,
>(
    n: usize,
    part_at: P,
    count: usize,
    rule_at: F,
    plan: &[u8],
    mounted: Option<usize>,
    order: &mut [u8],
) -> Result<usize, Refused>
    requires few { n ≤ 128 }
    requires room { Room PLACES ENDS n }
    requires parts { (i : ℕ) → i < n → P.pre part_at i }
    requires rules { (i : ℕ) → i < count → F.pre rule_at i }
    ensures { (parts : List Part) → GivesParts (P.post part_at) n parts → (rules : List Rule) → GivesRules (F.post rule_at) count rules
        → PlacedByTips parts rules plan.now (on_head mounted) order.old order.new (refusal_of result) (count_in result) }
{
    let mut firsts = [0u8; PLACES];
    let mut lasts = [0u8; PLACES];
    let mut rows = [PartSet::EMPTY; PLACES];
    let firsts = &mut firsts[..n];
    let lasts = &mut lasts[..n];
    let rows = &mut rows[..n];
    flat_parts(
        n,
        part_at,
        count,
        rule_at,
        order.len(),
        &mut *firsts,
        &mut *lasts,
        &mut *rows,
    )?;
    refuse_tips(n, plan, mounted)?;
    let on_tip = parts_on_tips(&plan[..n]);
    let start = ready_at_start(mounted, &on_tip);
    let found = best_order::<PLACES, ENDS, _>(firsts, lasts, rows, start, |x| {
        ready_after(&on_tip, plan, x)
    })
    .ok_or(Reason::NoOrder)?;
    order[..n].copy_from_slice(&found[..n]);
    Ok(count_changes(plan, mounted, &order[..n]))
}

// The refusals in their order, the order handed over, and how often it changes the tip. Few parts, and the parts and the rules, as in `place`.
pub fn place_by_tips<P: Fn(usize) -> Part, F: Fn(usize) -> Rule>(
    n: usize,
    part_at: P,
    count: usize,
    rule_at: F,
    plan: &[u8],
    mounted: Option<usize>,
    order: &mut [u8],
) -> Result<usize, Refused>
    requires parts { (i : ℕ) → i < n → P.pre part_at i }
    requires rules { (i : ℕ) → i < count → F.pre rule_at i }
    ensures { (parts : List Part) → GivesParts (P.post part_at) n parts → (rules : List Rule) → GivesRules (F.post rule_at) count rules
        → PlacedByTips parts rules plan.now (on_head mounted) order.old order.new (refusal_of result) (count_in result) }
{
    if MOST_PARTS < n {
        return Err(Reason::BadWindow.at(0));
    }
    if n <= FEW_PARTS {
        place_by_tips_in::<FEW_PARTS, FEW_ENDS, P, F>(
            n, part_at, count, rule_at, plan, mounted, order,
        )
    } else {
        place_by_tips_in::<MOST_PARTS, MOST_ENDS, P, F>(
            n, part_at, count, rule_at, plan, mounted, order,
        )
    }
}
