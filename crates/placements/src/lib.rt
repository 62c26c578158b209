// The rules of tip sharing where a line stands for several placements: definitions and laws are in specs/ and proofs/, the lines of a board and
// their total in code.
#![tactic(auto)]

ghost use Rattle.std.specs.Prelude.{◌≡◌, ◌≤◌, length};
ghost use Rattle.std.proofs.Props.{props};
ghost use Rattle.model.specs.Limits.{most_placements};
ghost use Rattle.placements.specs.Repeated.{total};
ghost use Rattle.placements.specs.Good.{GoodLines, All-prop};

// The lines of a board: the size of its rack, and the set and the quantity of each line.
#[derive(Clone, Copy)]
pub struct Lines<'a> {
    pub rack: usize,
    pub sets: &'a [u64],
    pub quantities: &'a [u8],
    ghost good: { GoodLines rack quantities.now sets.now } by { Prim.hlevel (All-prop, props) },
}

impl Lines<'_> {
    pub fn len(self) -> usize
        ensures { result ≡ length self.entry.sets.now }
    {
        self.sets.len()
    }

    // The number of placements.
    pub fn total(self) -> usize
        ensures { result ≡ total self.entry.quantities.now }
    {
        total(self.quantities)
    }
}

// The number of placements, summed in 16 bits, which hold it: the compiler adds eight at once, and of wider numbers fewer.
pub fn total(quantities: &[u8]) -> usize
    requires { total quantities.now ≤ most_placements }
    ensures { result ≡ total quantities.now }
{
    let mut sum = 0;
    for quantity in quantities {
        sum += u16::from(*quantity);
    }
    usize::from(sum)
}
