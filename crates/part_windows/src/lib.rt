// The first and the last position that each part can have in a placing order, for parts and rules.
#![tactic(auto)]

ghost use Rattle.std.specs.Prelude.{◌≡◌, ℕ, ◌≤◌, ◌<◌, List};
ghost use Rattle.refusal.specs.Reasons.{refusal_of};
ghost use Rattle.order_rules.specs.declared.Part.{Part};
ghost use Rattle.order_rules.specs.declared.Rule.{Rule};
ghost use Rattle.order_rules.specs.Call.{order_refusal};
ghost use Rattle.flat_order.specs.Flat.{Room};
ghost use Rattle.placing.specs.Rows.{GivesParts, GivesRules};
ghost use Rattle.cases.specs.Cases.{Told};
ghost use Rattle.order_cases.specs.Cases.{order_cases};
ghost use Rattle.part_windows.specs.Call.{room, first_after, last_after, WindowsAnswer, WindowsRule};

use flat_order::sets::PartSet;
use flat_order::{FEW_ENDS, FEW_PARTS, MOST_ENDS, MOST_PARTS};
use order_rules::{Part, Rule};
use placing::flat::flat_parts;
use refusal::{Reason, Refused};
use windows::find_bounds;

// The refusals in their order, and the bounds handed over, of n parts for which there is room.
fn place_windows_in<
    const PLACES: usize,
    const ENDS: usize,
    P: Fn(usize) -> Part,
    F: Fn(usize) -> Rule,
>(
    n: usize,
    part_at: P,
    count: usize,
    rule_at: F,
    first: &mut [u8],
    last: &mut [u8],
) -> Result<(), Refused>
    requires few { n ≤ 128 }
    requires room { Room PLACES ENDS n }
    requires parts { (i : ℕ) → i < n → P.pre part_at i }
    requires rules { (i : ℕ) → i < count → F.pre rule_at i }
    ensures { (parts : List Part) → GivesParts (P.post part_at) n parts → (rules : List Rule) → GivesRules (F.post rule_at) count rules
        → WindowsAnswer parts rules first.old last.old first.new last.new (refusal_of result) }
{
    let mut firsts = [0u8; PLACES];
    let mut lasts = [0u8; PLACES];
    let mut rows = [PartSet::EMPTY; PLACES];
    let firsts = &mut firsts[..n];
    let lasts = &mut lasts[..n];
    let rows = &mut rows[..n];
    let room = first.len().min(last.len());
    flat_parts(
        n,
        part_at,
        count,
        rule_at,
        room,
        &mut *firsts,
        &mut *lasts,
        &mut *rows,
    )?;
    if !find_bounds::<PLACES, ENDS>(firsts, lasts, rows, &mut first[..n], &mut last[..n]) {
        return Err(Reason::NoOrder.at(0));
    }
    Ok(())
}

// The refusals in their order, and the bounds handed over. Few parts, and the parts and the rules, as in the placing order.
pub fn place_windows<P: Fn(usize) -> Part, F: Fn(usize) -> Rule>(
    n: usize,
    part_at: P,
    count: usize,
    rule_at: F,
    first: &mut [u8],
    last: &mut [u8],
) -> Result<(), Refused>
    requires parts { (i : ℕ) → i < n → P.pre part_at i }
    requires rules { (i : ℕ) → i < count → F.pre rule_at i }
    ensures { (parts : List Part) → GivesParts (P.post part_at) n parts → (rules : List Rule) → GivesRules (F.post rule_at) count rules
        → WindowsAnswer parts rules first.old last.old first.new last.new (refusal_of result) }
{
    if MOST_PARTS < n {
        return Err(Reason::BadWindow.at(0));
    }
    if n <= FEW_PARTS {
        place_windows_in::<FEW_PARTS, FEW_ENDS, P, F>(n, part_at, count, rule_at, first, last)
    } else {
        place_windows_in::<MOST_PARTS, MOST_ENDS, P, F>(n, part_at, count, rule_at, first, last)
    }
}

// The first and the last position of each part in any order that obeys: in each buffer one byte a part, the bytes past them untouched.
pub fn part_windows(
    parts: &[Part],
    rules: &[Rule],
    first: &mut [u8],
    last: &mut [u8],
) -> Result<(), Refused>
    ensures refusal { refusal_of result ≡ order_refusal parts.now rules.now (room first.old last.old) }
    ensures first { first.new ≡ first_after parts.now rules.now first.old last.old }
    ensures last { last.new ≡ last_after parts.now rules.now first.old last.old }
    ensures rule { WindowsRule parts.now rules.now (room first.old last.old) first.new last.new (refusal_of result) }
    ensures cases { Told (order_cases parts.now rules.now (room first.old last.old)) (refusal_of result) }
{
    place_windows(
        parts.len(),
        |i| parts[i],
        rules.len(),
        |i| rules[i],
        first,
        last,
    )
}
