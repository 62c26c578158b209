// The common tip of lines and their pruning, counted in placements: the occurrences of all tips are counted in one pass.
#![tactic(auto)]

ghost use Rattle.std.specs.Prelude.{◌≡◌, ◌-◌, ◌≤◌, leb, length};
ghost use mathlib.Core.List.{map, zip_with};
ghost use Rattle.model.specs.Count.{All, largest};
ghost use Rattle.model.specs.CommonTip.{set_of, top, W, margin as margin_of};
ghost use Rattle.placements.specs.Repeated.{total, repeated};
ghost use Rattle.placements.specs.Keep.{V};
ghost use Rattle.model.specs.Limits.{most_placements};
ghost use Rattle.counts.specs.Counts.{count_at, busy_tips, Countable};
ghost use Rattle.common_tip.specs.Common.{margin_by, least_count, narrow_by, kept_by, kept_lines};

// The most placements that allow one tip, how many do not allow it, and the set W of the tips that as many allow.
#[derive(Clone, Copy)]
pub struct Common {
    pub top: usize,
    pub off: usize,
    pub tips: u64,
}

// What the occurrences of each tip in n placements tell. `rack ≤ 64` stays a clause here and below: it bounds a number that is passed.
pub fn common_by(planes: &[u64; counts::PLANES], rack: usize, n: usize) -> Common
    requires rack { rack ≤ 64 }
    requires n { largest (count_at planes.now) rack ≤ n }
    ensures top { result.top ≡ largest (count_at planes.now) rack }
    ensures off { result.off ≡ n - result.top }
    ensures tips { result.tips ≡ busy_tips (count_at planes.now) result.top rack }
{
    let busiest = counts::busiest_tips(planes, rack);
    let top = busiest.top as usize;
    Common {
        top,
        off: n - top,
        tips: busiest.tips,
    }
}

pub fn common_tip(rack: usize, lines: &[u64], quantities: &[u8]) -> Common
    requires rack { rack ≤ 64 }
    requires countable { Countable quantities.now lines.now }
    ensures top { result.top ≡ top rack (repeated quantities.now lines.now) }
    ensures off { result.off ≡ total quantities.now - result.top }
    ensures tips { result.tips ≡ W rack (repeated quantities.now lines.now) }
{
    let planes = counts::count_tips(lines, quantities);
    common_by(&planes, rack, placements::total(quantities))
}

// Top, less the placements, plus k.
fn margin(top: usize, n: usize, k: u16) -> i32
    requires top { top ≤ most_placements }
    requires n { n ≤ most_placements }
    ensures { result ≡ margin_by top n k }
{
    (top as i32) - (n as i32) + i32::from(k)
}

fn least_count(n: usize, k: u16) -> usize
    ensures { result ≡ least_count n k }
{
    n.saturating_sub(usize::from(k)).max(1)
}

// The margin, the number of placements, and the set V of the tips in some line that all but at most k of the placements allow.
#[derive(Clone, Copy)]
pub struct Bound {
    pub margin: i32,
    pub n: usize,
    pub tips: u64,
}

// What the occurrences of each tip in n placements tell of keep within k.
pub fn bound_by(planes: &[u64; counts::PLANES], rack: usize, n: usize, k: u16) -> Bound
    requires rack { rack ≤ 64 }
    requires n { n ≤ most_placements }
    requires top { largest (count_at planes.now) rack ≤ n }
    ensures margin { result.margin ≡ margin_by (largest (count_at planes.now) rack) n k }
    ensures n { result.n ≡ n }
    ensures tips { result.tips ≡ set_of (λ t. leb (least_count n k) (count_at planes.now t)) rack }
{
    let busiest = counts::busiest_tips(planes, rack);
    Bound {
        margin: margin(busiest.top as usize, n, k),
        n,
        tips: counts::tips_with(planes, rack, least_count(n, k)),
    }
}

fn within(rack: usize, k: u16, lines: &[u64], quantities: &[u8]) -> Bound
    requires rack { rack ≤ 64 }
    requires countable { Countable quantities.now lines.now }
    ensures margin { result.margin ≡ margin_of rack (repeated quantities.now lines.now) k }
    ensures n { result.n ≡ total quantities.now }
    ensures tips { result.tips ≡ V rack (repeated quantities.now lines.now) k }
{
    let planes = counts::count_tips(lines, quantities);
    bound_by(&planes, rack, placements::total(quantities), k)
}

// A set that has all of v keeps only v.
pub fn narrow(set: u64, v: u64) -> u64
    ensures { result ≡ narrow_by v set }
{
    if set & v == v { v } else { set }
}

// A line that has all of v keeps only v.
fn narrow_all(v: u64, lines: &mut [u64])
    ensures { lines.new ≡ map (narrow_by v) lines.old }
{
    for set in lines.iter_mut() {
        *set = narrow(*set, v);
    }
}

fn kept(v: u64, margin: i32, quantity: u8, set: u64) -> u64
    ensures { result ≡ kept_by v margin quantity set }
{
    if margin < i32::from(quantity) {
        narrow(set, v)
    } else {
        set
    }
}

// Where the margin is below its quantity, a line that has all of v keeps only v. No quantity is 0, and with a placement a line each is 1.
fn prune(margin: i32, n: usize, v: u64, lines: &mut [u64], quantities: &[u8])
    requires n { n ≡ total quantities.now }
    requires same { length quantities.now ≡ length lines.old }
    requires placed { All (λ q. 1 ≤ q) quantities.now }
    ensures { lines.new ≡ zip_with (kept_by v margin) quantities.now lines.old }
{
    if margin < 1 {
        narrow_all(v, lines);
        return;
    }
    if n == lines.len() {
        return;
    }
    // The quantities by places: with a second adapter of `iter_mut` a proof knows nothing of the elements.
    for (i, set) in lines.iter_mut().enumerate() {
        *set = kept(v, margin, quantities[i], *set);
    }
}

// Keep within k: gives the margin. Where it is not below zero the lines are pruned.
pub fn keep_lines(rack: usize, lines: &mut [u64], quantities: &[u8], k: u16) -> i32
    requires rack { rack ≤ 64 }
    requires countable { Countable quantities.now lines.old }
    requires placed { All (λ q. 1 ≤ q) quantities.now }
    ensures margin { result ≡ margin_of rack (repeated quantities.now lines.old) k }
    ensures lines { lines.new ≡ kept_lines rack quantities.now lines.old k }
{
    let bound = within(rack, k, lines, quantities);
    let margin = bound.margin;
    if margin < 0 {
        return margin;
    }
    prune(margin, bound.n, bound.tips, lines, quantities);
    margin
}
