// The search, and the order handed over.
ghost use Rattle.std.specs.Prelude.{◌≡◌, ℕ, List, ◌≤◌, ◌<◌, ◌+◌, ◌*◌, ◌^◌};
ghost use Rattle.refusal.specs.Reasons.{refusal_of};
ghost use Rattle.order_rules.specs.declared.Part.{Part};
ghost use Rattle.order_rules.specs.declared.Rule.{Rule};
ghost use Rattle.flat_order.specs.Flat.{Room};
ghost use Rattle.placing.specs.Rows.{GivesParts, GivesRules, Placed};

use crate::flat::flat_parts;
use flat_order::sets::PartSet;
use flat_order::{FEW_ENDS, FEW_PARTS, MOST_ENDS, MOST_PARTS, least_order};
use order_rules::{Part, Rule};
use refusal::{Reason, Refused};

// The refusals in their order, and the order handed over, of n parts for which there is room.
fn place_in<const PLACES: usize, const ENDS: usize, P: Fn(usize) -> Part, F: Fn(usize) -> Rule>(
    n: usize,
    part_at: P,
    count: usize,
    rule_at: F,
    order: &mut [u8],
) -> Result<(), Refused>
    requires few { n ≤ 128 }
    requires room { Room PLACES ENDS n }
    requires parts { (i : ℕ) → i < n → P.pre part_at i }
    requires rules { (i : ℕ) → i < count → F.pre rule_at i }
    ensures { (parts : List Part) → GivesParts (P.post part_at) n parts → (rules : List Rule) → GivesRules (F.post rule_at) count rules
        → Placed parts rules order.old order.new (refusal_of result) }
{
    let mut firsts = [0u8; PLACES];
    let mut lasts = [0u8; PLACES];
    let mut rows = [PartSet::EMPTY; PLACES];
    let firsts = &mut firsts[..n];
    let lasts = &mut lasts[..n];
    let rows = &mut rows[..n];
    flat_parts(
        n,
        part_at,
        count,
        rule_at,
        order.len(),
        &mut *firsts,
        &mut *lasts,
        &mut *rows,
    )?;
    let found = least_order::<PLACES, ENDS>(firsts, lasts, rows).ok_or(Reason::NoOrder)?;
    order[..n].copy_from_slice(&found[..n]);
    Ok(())
}

// The refusals in their order, and the order handed over. Few parts are placed in few places, which are made more quickly. The parts and the
// rules are each a count and a function, as in `add_rules`.
pub fn place<P: Fn(usize) -> Part, F: Fn(usize) -> Rule>(
    n: usize,
    part_at: P,
    count: usize,
    rule_at: F,
    order: &mut [u8],
) -> Result<(), Refused>
    requires parts { (i : ℕ) → i < n → P.pre part_at i }
    requires rules { (i : ℕ) → i < count → F.pre rule_at i }
    ensures { (parts : List Part) → GivesParts (P.post part_at) n parts → (rules : List Rule) → GivesRules (F.post rule_at) count rules
        → Placed parts rules order.old order.new (refusal_of result) }
{
    if MOST_PARTS < n {
        return Err(Reason::BadWindow.at(0));
    }
    if n <= FEW_PARTS {
        place_in::<FEW_PARTS, FEW_ENDS, P, F>(n, part_at, count, rule_at, order)
    } else {
        place_in::<MOST_PARTS, MOST_ENDS, P, F>(n, part_at, count, rule_at, order)
    }
}
