// Quick sharing over slices, in rounds: each takes the tip that most placements left allow.
#![tactic(auto)]

ghost use Rattle.std.specs.Prelude.{◌≡◌, ◌≤◌, length};
ghost use Rattle.model.specs.Limits.{most_lines};
ghost use Rattle.head.specs.OnHead.{on_head};
ghost use Rattle.greedy.specs.Rounds.{Shareable, QuickShared, Shared, TakeReady, ListTaken};
ghost use Rattle.greedy.specs.Rounds.{RoundReady, RoundDone, Sizes, RoundsReady};

mod eight;

// The lines of the longest board, and those of a short one: room for fewer lines is sooner made.
const MOST: usize = model::MOST_LINES;

const FEW: usize = 64;

// Quick sharing of at most N lines between two rounds: how many placements left allow each tip; the lines without a tip, at the front of a list; and
// room for the places, sets and quantities of those taken in a round. The caller's quantities, sets and plan stay parameters: a struct would hold two
// `&mut`, and each contract would have to say that both are still the same.
#[derive(Drop)]
struct Rooms<const N: usize> {
    counts: [u64; counts::PLANES],
    unplanned: usize,
    list: [u16; N],
    places: [u16; N],
    sets: [u64; N],
    taken: [u8; N],
    ghost few: { N ≤ most_lines },
}

impl<const N: usize> Rooms<N> {
    // The tip is taken for the lines at the first places; their sets and quantities are gathered, and their sets become empty.
    fn take_places(
        &mut self,
        tip: usize,
        found: usize,
        quantities: &[u8],
        left: &mut [u64],
        plan: &mut [u8],
    )
        requires { TakeReady tip found self.old.places self.old.list quantities.now left.old plan.old self.old.sets self.old.taken }
        ensures taken { ListTaken tip found self.old.places self.old.list quantities.now left.old plan.old
            left.new plan.new self.new.sets self.new.taken }
        ensures kept { self.new ≡ record self.old { sets = self.new.sets; taken = self.new.taken } }
        ensures sets { length self.new.sets ≡ length self.old.sets }
        ensures quantities { length self.new.taken ≡ length self.old.taken }
    {
        let places = &self.places[..found];
        let list = &self.list;
        let sets = &mut self.sets;
        let taken = &mut self.taken;
        // By places: after an adapter of `iter_mut` a proof knows nothing of the elements.
        for (k, &place) in places.iter().enumerate() {
            let line = usize::from(list[usize::from(place)]);
            sets[k] = left[line];
            taken[k] = quantities[line];
            left[line] = 0;
            plan[line] = tip as u8;
        }
    }

    // One round: the tip is taken for each line that has it. Unless these are all that are left, their placements come off the counts.
    fn take_lines(&mut self, tip: usize, quantities: &[u8], left: &mut [u64], plan: &mut [u8])
        requires { RoundReady tip self.old.unplanned quantities.now left.old plan.old self.old.counts
            self.old.list self.old.places self.old.sets self.old.taken }
        ensures done { RoundDone tip quantities.now left.old plan.old
            left.new plan.new self.new.counts self.new.unplanned self.new.list }
        ensures sizes { Sizes self.old.list self.old.places self.old.sets self.old.taken
            self.new.list self.new.places self.new.sets self.new.taken }
    {
        let before = self.unplanned;
        let found = unplanned::find_places(tip, &self.list[..before], left, &mut self.places);
        self.take_places(tip, found, quantities, left, plan);
        if found == before {
            self.unplanned = 0;
            return;
        }
        self.unplanned = unplanned::drop_places(&self.places[..found], &mut self.list[..before]);
        let gone = counts::count_tips(&self.sets[..found], &self.taken[..found]);
        counts::difference::subtract(&gone, &mut self.counts);
    }

    // Each round takes the tip that most placements left allow; on a tie the mounted one, else the lowest.
    fn take_rounds(
        &mut self,
        rack: usize,
        mounted: Option<usize>,
        quantities: &[u8],
        left: &mut [u64],
        plan: &mut [u8],
    ) -> u32
        requires { RoundsReady rack quantities.now left.old plan.old self.old.counts
            self.old.list self.old.places self.old.sets self.old.taken }
        ensures { QuickShared (on_head mounted) rack quantities.now left.old result plan.new left.new }
    {
        self.unplanned = left.len();
        unplanned::list_all(&mut self.list[..self.unplanned]);
        let mut shared = 0;
        'rounds: loop {
            let busiest = counts::busiest_tips(&self.counts, rack);
            if busiest.top == 0 {
                return shared;
            }
            let tip = head::choose(mounted, busiest.tips);
            shared += pair_count::pairs_among(busiest.top);
            self.take_lines(tip, quantities, left, plan);
            if self.unplanned == 0 {
                return shared;
            }
        }
    }
}

// The rounds of a board of at most N lines, with the rooms that they need. At the end each set of the working copy is empty.
fn plan_in<const N: usize>(
    rack: usize,
    mounted: Option<usize>,
    sets: &[u64],
    quantities: &[u8],
    plan: &mut [u8],
) -> u32
    requires shareable { Shareable rack quantities.now sets.now plan.old }
    requires room { length sets.now ≤ N }
    requires size { N ≤ most_lines }
    ensures { Shared (on_head mounted) rack quantities.now sets.now result plan.new }
{
    let mut room = [0; N];
    let left = &mut room[..sets.len()];
    unplanned::copy_sets(sets, left);
    let counts = counts::count_tips(sets, quantities);
    let mut rooms = Rooms::<N> {
        counts,
        unplanned: 0,
        list: [0; N],
        places: [0; N],
        sets: [0; N],
        taken: [0; N],
    };
    rooms.take_rounds(rack, mounted, quantities, left, plan)
}

// The plan of quick sharing, and its pairs.
pub fn plan_lines(
    rack: usize,
    mounted: Option<usize>,
    sets: &[u64],
    quantities: &[u8],
    plan: &mut [u8],
) -> u32
    requires { Shareable rack quantities.now sets.now plan.old }
    ensures { Shared (on_head mounted) rack quantities.now sets.now result plan.new }
{
    if sets.len() > FEW {
        return plan_in::<MOST>(rack, mounted, sets, quantities, plan);
    }
    if rack > few_tips::TIPS {
        return plan_in::<FEW>(rack, mounted, sets, quantities, plan);
    }
    eight::plan_lines(rack, mounted, sets, quantities, plan)
}
