//! What is done with a sum, and how long that is.
ghost use Rattle.std.specs.Prelude.{◌<◌, ◌≤◌};

/// What is done with a sum: its ends are asked one by one or all at once, or views are asked whether they keep it.
#[derive(Clone, Copy)]
pub(crate) enum Work {
    Next,
    Visit,
    Keeps,
}

/// How many terms a sum has.
#[derive(Clone, Copy)]
pub(crate) enum Size {
    Short,
    Middle,
    Long,
}

impl Work {
    pub(crate) fn name(self) -> &'static str {
        match self {
            Work::Next => "ends one by one",
            Work::Visit => "ends all at once",
            Work::Keeps => "views that keep it",
        }
    }

    /// The work of this name.
    pub(crate) fn of(word: &str) -> Option<Work> {
        match word {
            "next" => Some(Work::Next),
            "visit" => Some(Work::Visit),
            "keeps" => Some(Work::Keeps),
            _ => None,
        }
    }
}

impl Size {
    /// How many terms these are.
    pub(crate) fn terms(self) -> u32
        ensures some { 0 < result }
        ensures few { result ≤ 1000 }
    {
        match self {
            Size::Short => 30,
            Size::Middle => 300,
            Size::Long => 1000,
        }
    }

    /// What such a sum is at most, where about half of its variables have an implied end: 1,000 or 5,000 above the least
    /// that it can be.
    pub(crate) fn bound(self) -> i64 {
        match self {
            Size::Short => -13_310,
            Size::Middle => -639_850,
            Size::Long => -2_249_500,
        }
    }

    /// The size of this name.
    pub(crate) fn of(word: &str) -> Option<Size> {
        match word {
            "30" => Some(Size::Short),
            "300" => Some(Size::Middle),
            "1000" => Some(Size::Long),
            _ => None,
        }
    }
}
