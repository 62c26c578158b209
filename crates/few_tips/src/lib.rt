// Sets of a rack of at most eight tips, a byte each: of bytes the compiler takes eight or sixteen lines at once.
#![tactic(auto)]

ghost use Rattle.std.specs.Prelude.{◌≡◌, ◌^◌, ◌<◌, cond, length};
ghost use Rattle.model.specs.Count.{All};
ghost use Rattle.model.specs.Plan.{has};

// The tips of the largest rack.
pub const TIPS: usize = 8;

// `tip < 8` stays a clause here and below: it bounds a number that is passed.
#[tactic(auto, unfolding(model::specs::Plan::has))]
pub fn has_tip(set: u8, tip: usize) -> bool
    requires { tip < 8 }
    ensures { result ≡ has set tip }
{
    (set >> tip) % 2 == 1
}

// The placements of a line that has the tip. A product, because a branch would often be mispredicted.
pub fn placed(set: u8, tip: usize, quantity: u8) -> u16
    requires { tip < 8 }
    ensures { result ≡ cond (has set tip) quantity 0 }
{
    u16::from(quantity) * u16::from((set >> tip) % 2)
}

// The sets of 64 bits as bytes.
pub fn narrow_sets(sets: &[u64], narrow: &mut [u8])
    requires size { length narrow.old ≡ length sets.now }
    requires narrow { All (λ s. s < 2 ^ 8) sets.now }
    ensures { narrow.new ≡ sets.now }
{
    for (i, set) in narrow.iter_mut().enumerate() {
        *set = sets[i] as u8;
    }
}
