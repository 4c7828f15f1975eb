// The meaning of a pattern in a log, the refusals, and what the calls return: definitions, their laws, and the results' types.
#![tactic(auto)]

ghost use Rattle.std.specs.Prelude.{◌≡◌};
ghost use Rattle.meaning.specs.Replies.{number_of, place_of, told};

use std::error::Error;
use std::fmt;

// Why a call is refused: docs/FORMATS.md, "Refusals".
#[derive(Clone, Copy, Debug, PartialEq, Eq)]
pub enum Refusal {
    LongLog,
    LongPattern,
    // the place from which on no pattern goes on so
    Misspelt(usize),
    Crowded,
    Deep,
    Miscalled,
    Miscut,
    Disordered,
    BadCount,
}

impl Refusal {
    // Its number.
    pub fn number(self) -> usize
        ensures { result ≡ number_of self }
    {
        match self {
            Refusal::LongLog => 1,
            Refusal::LongPattern => 2,
            Refusal::Misspelt(_) => 3,
            Refusal::Crowded => 4,
            Refusal::Deep => 5,
            Refusal::Miscalled => 6,
            Refusal::Miscut => 7,
            Refusal::Disordered => 8,
            Refusal::BadCount => 10,
        }
    }

    // Its place, 0 but of a misspelt pattern.
    pub fn place(self) -> usize
        ensures { result ≡ place_of self }
    {
        match self {
            Refusal::Misspelt(place) => place,
            _ => 0,
        }
    }
}

impl fmt::Display for Refusal {
    fn fmt<W: fmt::Write>(&self, f: &mut fmt::Formatter<W>) -> fmt::Result {
        match self {
            Refusal::LongLog => f.write_str("long log"),
            Refusal::LongPattern => f.write_str("long pattern"),
            Refusal::Misspelt(place) => write!(f, "misspelt at place {place}"),
            Refusal::Crowded => f.write_str("crowded"),
            Refusal::Deep => f.write_str("deep"),
            Refusal::Miscalled => f.write_str("miscalled"),
            Refusal::Miscut => f.write_str("miscut"),
            Refusal::Disordered => f.write_str("disordered"),
            Refusal::BadCount => f.write_str("bad count"),
        }
    }
}

impl Error for Refusal {}

// A pattern's refusal is the call's.
impl From<pattern::Refusal> for Refusal {
    ghost from_gives = { λ r e. e ≡ told r };

    fn from(r: pattern::Refusal) -> Refusal {
        match r {
            pattern::Refusal::Long => Refusal::LongPattern,
            pattern::Refusal::Misspelt(place) => Refusal::Misspelt(place),
            pattern::Refusal::Crowded => Refusal::Crowded,
            pattern::Refusal::Deep => Refusal::Deep,
        }
    }
}

// What a filling call wrote: how many stretches, and whether a further answer exists.
#[derive(Clone, Copy, Debug, PartialEq, Eq)]
pub struct Filled {
    pub count: usize,
    pub more: bool,
}
