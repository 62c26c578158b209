// Counts less other counts: all tips at once, plane by plane.
ghost use Rattle.counts.specs.Difference.{Subtractable, Subtracted};

// A full subtractor for each plane: the borrow goes to the next.
pub fn subtract(gone: &[u64; crate::PLANES], planes: &mut [u64; crate::PLANES])
    requires { Subtractable gone.now planes.old }
    ensures { Subtracted gone.now planes.old planes.new }
{
    let mut borrow = 0;
    // By places: after an adapter of `iter_mut` a proof knows nothing of the elements.
    for (j, &less) in gone.iter().enumerate() {
        let either = planes[j] ^ less;
        let rest = either ^ borrow;
        borrow = (either & less) | (rest & borrow);
        planes[j] = rest;
    }
}
