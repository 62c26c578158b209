// Lines of any quantities added up: for each binary digit of the quantities, from the highest down, the lines that have it.
ghost use Rattle.std.specs.Prelude.{◌≡◌, ◌++◌, ◌+◌, ◌≤◌, ◌<◌, length, drop};
ghost use Rattle.model.specs.Count.{All};
ghost use Rattle.counts.specs.Counts.{Countable};
ghost use Rattle.counts.specs.Sums.{Empty, Fits, Added, Whole};
ghost use Rattle.counts.specs.Picked.{pick_by, picked, Between};

use crate::adders;
use crate::adders::Pair;

// A number that is not above any quantity, and one that is not below any.
#[derive(Clone, Copy)]
pub struct Bounds {
    pub low: u8,
    pub high: u8,
}

// The digits that all have, and those that some have.
pub fn bounds_of(quantities: &[u8]) -> Bounds
    ensures { Between result.low result.high quantities.now }
{
    let mut low = 255;
    let mut high = 0;
    for &quantity in quantities {
        low &= quantity;
        high |= quantity;
    }
    Bounds { low, high }
}

// A set whose quantity has the digit j; else no tip. A product, because a branch would often be mispredicted.
// `j < 8` stays a clause here and below: it bounds a number that is passed.
fn pick(j: usize, quantity: u8, set: u64) -> u64
    requires { j < 8 }
    ensures { result ≡ pick_by j quantity set }
{
    let digit = u64::from((quantity >> j) % 2);
    set * digit
}

// The lines that have the digit j, in the place of as many lines.
// The clause on the lengths stays here and below: it is a fact of two slices of the caller.
fn pick_lines(j: usize, lines: &[u64], quantities: &[u8], chosen: &mut [u64])
    requires digit { j < 8 }
    requires same { length quantities.now ≡ length lines.now }
    requires room { length lines.now ≤ length chosen.old }
    ensures { chosen.new ≡ picked j quantities.now lines.now
        ++ drop (length lines.now) chosen.old }
{
    // By places: after an adapter of `iter_mut` a proof knows nothing of the elements.
    for (i, &set) in lines.iter().enumerate() {
        chosen[i] = pick(j, quantities[i], set);
    }
}

// Less than a block of them: lines that allow no tip make it whole.
fn pick_rest(j: usize, lines: &[u64], quantities: &[u8], sums: &mut [Pair; crate::PLANES])
    requires digit { j < 8 }
    requires same { length quantities.now ≡ length lines.now }
    requires few { length lines.now ≤ 32 }
    requires fits { Fits (picked j quantities.now lines.now) sums.old }
    ensures { Added (picked j quantities.now lines.now) sums.old sums.new }
{
    if lines.is_empty() {
        return;
    }
    let mut chosen = [0; 32];
    pick_lines(j, lines, quantities, &mut chosen);
    adders::add_block(&chosen, sums);
}

// All lines that have the digit j, a block at a time.
fn add_digit(j: usize, lines: &[u64], quantities: &[u8], sums: &mut [Pair; crate::PLANES])
    requires digit { j < 8 }
    requires same { length quantities.now ≡ length lines.now }
    requires fits { Fits (picked j quantities.now lines.now) sums.old }
    ensures { Added (picked j quantities.now lines.now) sums.old sums.new }
{
    let (blocks, rest) = lines.as_chunks::<32>();
    let (many, few) = quantities.as_chunks::<32>();
    let mut chosen = [0; 32];
    for (block, numbers) in blocks.iter().zip(many) {
        pick_lines(j, block, numbers, &mut chosen);
        adders::add_block(&chosen, sums);
    }
    pick_rest(j, rest, few, sums);
}

// All placements, where no quantity is above the most.
pub fn add_digits(most: u8, lines: &[u64], quantities: &[u8], sums: &mut [Pair; crate::PLANES])
    requires countable { Countable quantities.now lines.now }
    requires most { All (λ q. q ≤ most) quantities.now }
    requires empty { Empty sums.old }
    ensures { Whole quantities.now lines.now sums.new }
{
    let digits = (u8::BITS - most.leading_zeros()) as usize;
    for j in (0..digits).rev() {
        adders::double(sums);
        add_digit(j, lines, quantities, sums);
    }
}
