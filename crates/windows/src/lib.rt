// The first and the last position that each part has in any placing order that obeys, over flat arrays.
#![tactic(auto)]

ghost use Rattle.std.specs.Prelude.{◌≡◌, length};
ghost use Rattle.flat_order.specs.Flat.{flat_task, Room};
ghost use Rattle.windows.specs.Found.{Ready, FoundBounds, BoundsRule};

mod bounding;
mod noting;
mod orders;
mod wanted;

use crate::bounding::{narrow_first, narrow_last};
use crate::noting::{note, see_none};
use crate::orders::any_order;
use crate::wanted::{ahead_of, beside};
use flat_order::sets::PartSet;

// The first and the last position of each part in any order that obeys; false, and nothing is written, where none obeys. Each order that is
// found on the way may have other parts early or late too: their positions in it are noted, and not looked for again.
pub fn find_bounds<const PLACES: usize, const ENDS: usize>(
    firsts: &[u8],
    lasts: &[u8],
    rows: &[PartSet],
    first: &mut [u8],
    last: &mut [u8],
) -> bool
    requires room { Room PLACES ENDS (length lasts.now) }
    requires ready { Ready firsts.now lasts.now rows.now }
    requires firsts { length first.old ≡ length lasts.now }
    requires lasts { length last.old ≡ length lasts.now }
    ensures found { FoundBounds (flat_task firsts.now lasts.now rows.now) first.old last.old first.new last.new result }
    ensures rule { BoundsRule (flat_task firsts.now lasts.now rows.now) first.new last.new result }
{
    let n = lasts.len();
    let Some(found) = any_order::<PLACES, ENDS>(firsts, lasts, rows) else {
        return false;
    };
    let order = &found[..n];
    see_none(n as u8, first, last);
    note(order, first, last);
    for i in 0..n {
        let wanted = ahead_of(i, order, rows);
        narrow_first::<PLACES, ENDS>(firsts, lasts, rows, i, wanted, &mut *first, &mut *last);
    }
    for i in 0..n {
        let wanted = beside(i, order, rows);
        narrow_last::<PLACES, ENDS>(firsts, lasts, rows, i, wanted, &mut *first, &mut *last);
    }
    true
}
