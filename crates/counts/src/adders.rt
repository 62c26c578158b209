// The occurrences of all tips added up, thirty-two lines at a time: in two counts side by side, so that the compiler adds both at once.
ghost use Rattle.std.specs.Prelude.{◌≡◌, ◌≤◌, length};
ghost use Rattle.counts.specs.Counts.{AddsThree};
ghost use Rattle.counts.specs.Sums.{AddsEight, Raisable, Raised, Fits, Added, Doublable, Doubled, Joinable, Joined, differing, met};

use std::ops::{BitAnd, BitXor};

// The two binary digits of a small count of each tip. Like the four of `Low` they have names: an array of planes would be no plainer.
#[derive(Clone, Copy)]
struct Sum {
    ones: u64,
    twos: u64,
}

// How many of three sets have each tip: a full adder.
fn add_three(a: u64, b: u64, c: u64) -> Sum
    ensures { AddsThree a b c result.ones result.twos }
{
    let either = a ^ b;
    Sum {
        ones: either ^ c,
        twos: (a & b) | (either & c),
    }
}

// The four lowest planes of a count.
#[derive(Clone, Copy)]
struct Low {
    ones: u64,
    twos: u64,
    fours: u64,
    eights: u64,
}

// Every other of sixteen lines more: a carry goes to the next plane once for every two.
fn add_eight(ones: u64, twos: u64, fours: u64, lines: &[u64]) -> Low
    requires { 15 ≤ length lines.now }
    ensures { AddsEight ones twos fours lines.now result.ones result.twos result.fours result.eights }
{
    let a = add_three(ones, lines[0], lines[2]);
    let b = add_three(a.ones, lines[4], lines[6]);
    let c = add_three(twos, a.twos, b.twos);
    let d = add_three(b.ones, lines[8], lines[10]);
    let e = add_three(d.ones, lines[12], lines[14]);
    let f = add_three(c.ones, d.twos, e.twos);
    let g = add_three(fours, c.twos, f.twos);
    Low {
        ones: e.ones,
        twos: f.ones,
        fours: g.ones,
        eights: g.twos,
    }
}

// A plane of each of two counts.
#[derive(Clone, Copy)]
pub struct Pair {
    pub even: u64,
    pub odd: u64,
}

impl BitXor for Pair {
    type Output = Pair;

    ghost bitxor_gives = { λ p q r. r ≡ differing p q };

    #[tactic(auto, unfolding(crate::specs::Sums::differing))]
    fn bitxor(self, other: Pair) -> Pair {
        Pair {
            even: self.even ^ other.even,
            odd: self.odd ^ other.odd,
        }
    }
}

impl BitAnd for Pair {
    type Output = Pair;

    ghost bitand_gives = { λ p q r. r ≡ met p q };

    #[tactic(auto, unfolding(crate::specs::Sums::met))]
    fn bitand(self, other: Pair) -> Pair {
        Pair {
            even: self.even & other.even,
            odd: self.odd & other.odd,
        }
    }
}

// 16 more for each tip of either carry, through all planes; a test of what is left of the carries would cost more than it saves.
fn carry_up(carry: Pair, sums: &mut [Pair; crate::PLANES])
    requires { Raisable carry sums.old }
    ensures { Raised carry sums.old sums.new }
{
    let mut left = carry;
    for sum in sums[4..].iter_mut() {
        let old = *sum;
        *sum = old ^ left;
        left = old & left;
    }
}

// Thirty-two lines more. `Fits` stays a clause here and below: it is a fact of two buffers, and no value holds both.
pub fn add_block(lines: &[u64; 32], sums: &mut [Pair; crate::PLANES])
    requires { Fits lines.now sums.old }
    ensures { Added lines.now sums.old sums.new }
{
    let a = add_eight(sums[0].even, sums[1].even, sums[2].even, lines);
    let b = add_eight(sums[0].odd, sums[1].odd, sums[2].odd, &lines[1..]);
    let c = add_eight(a.ones, a.twos, a.fours, &lines[16..]);
    let d = add_eight(b.ones, b.twos, b.fours, &lines[17..]);
    let e = add_three(sums[3].even, a.eights, c.eights);
    let f = add_three(sums[3].odd, b.eights, d.eights);
    sums[0] = Pair {
        even: c.ones,
        odd: d.ones,
    };
    sums[1] = Pair {
        even: c.twos,
        odd: d.twos,
    };
    sums[2] = Pair {
        even: c.fours,
        odd: d.fours,
    };
    sums[3] = Pair {
        even: e.ones,
        odd: f.ones,
    };
    let carry = Pair {
        even: e.twos,
        odd: f.twos,
    };
    carry_up(carry, sums);
}

// Less than a block: lines that allow no tip make it whole.
fn add_rest(lines: &[u64], sums: &mut [Pair; crate::PLANES])
    requires fits { Fits lines.now sums.old }
    requires few { length lines.now ≤ 32 }
    ensures { Added lines.now sums.old sums.new }
{
    if lines.is_empty() {
        return;
    }
    let mut chosen = [0; 32];
    chosen[..lines.len()].copy_from_slice(lines);
    add_block(&chosen, sums);
}

// All lines, a block at a time.
pub fn add_all(lines: &[u64], sums: &mut [Pair; crate::PLANES])
    requires { Fits lines.now sums.old }
    ensures { Added lines.now sums.old sums.new }
{
    let (blocks, rest) = lines.as_chunks::<32>();
    for block in blocks {
        add_block(block, sums);
    }
    add_rest(rest, sums);
}

// Both counts twice: each plane moves up by one.
pub fn double(sums: &mut [Pair; crate::PLANES])
    requires { Doublable sums.old }
    ensures { Doubled sums.old sums.new }
{
    let mut lower = Pair { even: 0, odd: 0 };
    for sum in sums.iter_mut() {
        let old = *sum;
        *sum = lower;
        lower = old;
    }
}

// The sum of both counts.
pub fn join(sums: &[Pair; crate::PLANES]) -> [u64; crate::PLANES]
    requires { Joinable sums.now }
    ensures { Joined sums.now result }
{
    let mut planes = [0; crate::PLANES];
    let mut carry = 0;
    // By places: after an adapter of `iter_mut` a proof knows nothing of the elements.
    for (j, sum) in sums.iter().enumerate() {
        let both = add_three(sum.even, sum.odd, carry);
        planes[j] = both.ones;
        carry = both.twos;
    }
    planes
}
