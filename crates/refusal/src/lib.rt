// Why a call refuses: a reason, and the place told with it.
#![tactic(auto)]

ghost use Rattle.std.specs.Prelude.{◌≡◌, pos};
ghost use Rattle.refusal.specs.Reasons.{reason_number, refusal_of, refused_at};
ghost use Rattle.refusal.specs.Refusal.{when};

// The reasons, under their names and with their numbers in include/tipshare.h.
#[derive(Clone, Copy, Debug, PartialEq, Eq)]
pub enum Reason {
    RackSize = 1,
    EmptyLine = 2,
    TipOutside = 3,
    ShortPlan = 4,
    ShortTable = 5,
    ShortFile = 6,
    WrongMark = 7,
    WrongVersion = 8,
    FileLines = 9,
    FileLength = 10,
    ShortOutput = 11,
    BadWindow = 12,
    BadRule = 13,
    ShortOrder = 14,
    ZeroQuantity = 15,
    MountedOutside = 16,
    RacksDiffer = 17,
    ForeignTip = 19,
    WrongClaim = 20,
    UnsoundBoard = 21,
    BoardClosed = 22,
    BoardOpen = 23,
    TooManyLines = 24,
    NoRun = 25,
    NoPlan = 26,
    UnsoundLine = 27,
    HeldBehind = 28,
    NoOrder = 29,
    TooManyPlacements = 30,
    NoTwoTips = 31,
    WrongTable = 33,
    GoalMissed = 34,
    TooManyNamed = 35,
    BrokenRecord = 101,
}

impl Reason {
    // The number in the rule book. The conversion is the language's own, of an enum with numbers.
    pub fn number(self) -> u32
        ensures { result ≡ reason_number self }
    {
        self as u32
    }

    // The refusal that tells the place too.
    pub fn at(self, place: usize) -> Refused
        ensures { result ≡ record { reason = self; place = place } }
    {
        Refused {
            reason: self,
            place,
        }
    }
}

#[derive(Clone, Copy, Debug, PartialEq, Eq)]
pub struct Refused {
    pub reason: Reason,
    pub place: usize,
}

// A reason alone tells place 0. The two instances of `From` differ in their types alone, as instances of a trait do.
impl From<Reason> for Refused {
    ghost from_gives = { λ reason e. e ≡ record { reason = reason; place = 0 } };

    fn from(reason: Reason) -> Refused {
        Refused { reason, place: 0 }
    }
}

// Why keep is refused, with its margin, which is 0 where the reason came before it.
#[derive(Clone, Copy, Debug, PartialEq, Eq)]
pub struct Unkept {
    pub refused: Refused,
    pub margin: i32,
}

impl From<Refused> for Unkept {
    ghost from_gives = { λ refused e. e ≡ record { refused = refused; margin = pos 0 } };

    fn from(refused: Refused) -> Unkept {
        Unkept { refused, margin: 0 }
    }
}

pub fn refuse_when(test: bool, reason: Reason) -> Result<(), Refused>
    ensures { refusal_of result ≡ when test (reason_number reason) }
{
    if test {
        return Err(reason.at(0));
    }
    Ok(())
}

// Refuses at the place, where there is one.
pub fn refuse_at(place: Option<usize>, reason: Reason) -> Result<(), Refused>
    ensures { refusal_of result ≡ refused_at place (reason_number reason) }
{
    match place {
        Some(place) => Err(reason.at(place)),
        None => Ok(()),
    }
}
