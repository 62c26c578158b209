// The rows that the flags ask for: fine pitch first, tall last.
ghost use Rattle.std.specs.Prelude.{◌≡◌, cond, not, ◌≤◌, ◌<◌, List, length};
ghost use Rattle.order_rules.specs.declared.Part.{Part};
ghost use Rattle.order_rules.specs.Parts.{fine_pitch};
ghost use Rattle.flat_order.specs.Sets.{no_parts, single, joined};
ghost use Rattle.placing.specs.Given.{flag_row, Started, KindsOf};

use flat_order::sets::PartSet;
use order_rules::Part;

// The fine-pitch parts, and those that are not tall.
#[derive(Clone, Copy)]
pub struct Kinds {
    pub fine: PartSet,
    pub short: PartSet,
}

fn when(test: bool, s: PartSet) -> PartSet
    ensures { result ≡ cond test s no_parts }
{
    if test { s } else { PartSet::EMPTY }
}

fn is_fine(part: Part) -> bool
    ensures { result ≡ fine_pitch part }
{
    part.fine && !part.tall
}

impl Kinds {
    pub const NONE: Kinds = Kinds {
        fine: PartSet::EMPTY,
        short: PartSet::EMPTY,
    };

    // Part i is one more.
    pub fn with(self, i: usize, part: Part) -> Kinds
        requires { i < 128 }
        ensures fine { result.fine ≡ joined self.fine (cond (fine_pitch part) (single i) no_parts) }
        ensures short { result.short ≡ joined self.short (cond (not part.tall) (single i) no_parts) }
    {
        let one = PartSet::single(i);
        Kinds {
            fine: self.fine | when(is_fine(part), one),
            short: self.short | when(!part.tall, one),
        }
    }

    // The parts that are to precede part b by the flags.
    #[tactic(auto, unfolding(crate::specs::Given::flag_row))]
    fn row_of(self, b: usize) -> PartSet
        requires { b < 128 }
        ensures { result ≡ flag_row self b }
    {
        when(!self.fine.has(b), self.fine) | when(!self.short.has(b), self.short)
    }
}

// The rows by the flags of the parts.
pub fn start_rows(kinds: Kinds, rows: &mut [PartSet])
    requires { length rows.old ≤ 128 }
    ensures size { length rows.new ≡ length rows.old }
    ensures rows { (parts : List Part) → length parts ≡ length rows.old → KindsOf parts (length parts) kinds → Started parts rows.new }
{
    // By places: after an adapter of `iter_mut` a proof knows nothing of the elements.
    for b in 0..rows.len() {
        rows[b] = kinds.row_of(b);
    }
}
