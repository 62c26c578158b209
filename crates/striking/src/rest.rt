// The sums of the other lines: those of all lines without one.
ghost use Rattle.std.specs.Prelude.{◌≡◌, ◌≤◌, length};
ghost use Rattle.model.specs.Limits.{most_tips};
ghost use Rattle.spans.specs.Spans.{sums_size};
ghost use Rattle.striking.specs.Striking.{own_at, sums_without as without, Removable};

// What a line of these ends and this quantity adds at x and y of the sums.
#[tactic(auto, using(std::proofs::lemmas::Bool::Decides::nat_tests), unfolding(crate::specs::Striking::own_at))]
fn own_at(low: usize, high: usize, quantity: u8, x: usize, y: usize) -> u32
    ensures { result ≡ own_at low high quantity x y }
{
    if low < x && high < y {
        u32::from(quantity)
    } else {
        0
    }
}

pub fn sums_without(m: usize, sums: &[u32], line: u64, quantity: u8, rest: &mut [u32])
    requires rack { m ≤ most_tips }
    requires removable { Removable m sums.now line quantity }
    requires size { length rest.old ≡ sums_size m }
    ensures { rest.new ≡ without m sums.now line quantity }
{
    let low = tips::lowest(line);
    let high = tips::highest(line);
    let width = m + 1;
    for x in 0..width {
        for y in 0..width {
            let k = x * width + y;
            rest[k] = sums[k] - own_at(low, high, quantity, x, y);
        }
    }
}
