// Why a call was refused, one number for each cause.
#![tactic(auto)]

ghost use Rattle.std.specs.Prelude.{◌≡◌, Some, decimal};
ghost use Rattle.refusal.specs.Numbers.{number_of};

use std::error::Error;
use std::fmt;

/// The cause of a refusal. Its discriminant is the number that programs print and C callers get.
#[derive(Clone, Copy, PartialEq, Eq, Debug)]
pub enum Refusal {
    /// The geometry is outside its rule, or the field is unknown.
    BadGeometry = 1,
    /// The medium does not suit, its counts pass the limits, or its memory has the wrong length.
    Unsuited = 2,
    /// There is no such frame, strip or square.
    NoSuchPlace = 3,
    /// A record, a frame or a buffer has the wrong length.
    WrongLength = 4,
    /// A symbol is not below the order of the field, or the levels of the medium.
    BadSymbol = 5,
    /// The frame is closed for writing.
    Closed = 6,
    /// More strips are gone than the check strips can make up for.
    TooManyGone = 7,
    /// More squares are doubtful than a strip has squares.
    TooManyDoubtful = 8,
    /// No record's frame fits what is shown.
    NoFit = 9,
    /// After a writing the frame does not show what was written.
    NotShown = 10,
    /// A script has a command that does not exist.
    UnknownCommand = 11,
    /// A script ends inside its header or an operand.
    EndsEarly = 12,
}

/// The number of a cause.
impl From<Refusal> for u8 {
    ghost from_gives = { λ cause number. number ≡ number_of cause };

    fn from(cause: Refusal) -> u8 {
        cause as u8
    }
}

/// Prints the number.
impl fmt::Display for Refusal {
    ghost output = { λ cause. Some (decimal (number_of cause)) };

    fn fmt<W: fmt::Write>(&self, f: &mut fmt::Formatter<W>) -> fmt::Result {
        write!(f, "{}", u8::from(*self))
    }
}

impl Error for Refusal {}
