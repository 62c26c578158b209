// The changes that a report tells.
ghost use Rattle.std.specs.Prelude.{◌≡◌, ◌+◌, ◌≤◌, cond};
ghost use Rattle.mend.specs.Parts.{code_of};

// The changes of a line, and those of the whole file, each with its code.
#[derive(Clone, Copy, PartialEq, Eq, Debug)]
pub enum Change {
    Cleared = 1,
    Emptied = 2,
    Raised = 3,
    Dropped = 4,
    Recounted = 5,
    MoreBytes = 6,
}

impl Change {
    // The conversion is the language's own, of an enum with numbers.
    pub fn code(self) -> u8
        ensures { result ≡ code_of self }
    {
        self as u8
    }
}

// Which changes are made to a line: any of the four, so these are flags and not one kind.
#[derive(Clone, Copy)]
pub struct Changed {
    pub cleared: bool,
    pub emptied: bool,
    pub raised: bool,
    pub dropped: bool,
}

impl Changed {
    pub fn count(self) -> usize
        ensures count { result ≡ cond self.cleared 1 0 + cond self.emptied 1 0 + cond self.raised 1 0 + cond self.dropped 1 0 }
        ensures few { result ≤ 4 }
    {
        usize::from(self.cleared)
            + usize::from(self.emptied)
            + usize::from(self.raised)
            + usize::from(self.dropped)
    }
}
