// Sets renumbered: each tip is replaced by its rank among the named tips.
ghost use Rattle.std.specs.Prelude.{ℕ, ◌≡◌, List};
ghost use Rattle.model.specs.Count.{All};
ghost use Rattle.model.specs.Plan.{has};
ghost use Rattle.model.specs.Renumber.{ranks, renumbered};
ghost use Rattle.exact.specs.Leaf.{Renumbering};

// The set of the ranks, which are in the list at the places of their tips.
fn renumber_set(m: usize, list: &[u8], set: u64) -> u64
    requires { (names : ℕ) × Renumbering names m list.now set }
    ensures { (names : ℕ) → Renumbering names m list.now set → result ≡ ranks (has names) m set }
{
    let mut out = 0;
    for (t, &rank) in list[..m].iter().enumerate() {
        if tips::has_tip(set, t) {
            out += 1u64 << rank;
        }
    }
    out
}

pub fn renumber_sets(m: usize, list: &[u8], sets: &mut [u64])
    requires { (names : ℕ) × All (Renumbering names m list.now) sets.old }
    ensures { (names : ℕ) → All (Renumbering names m list.now) sets.old → sets.new ≡ renumbered (has names) m sets.old }
{
    for set in sets.iter_mut() {
        *set = renumber_set(m, list, *set);
    }
}
