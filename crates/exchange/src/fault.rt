//! What a call refuses with: the rule that was broken and the place where it was.
ghost use Rattle.std.specs.Prelude.{◌≡◌, Some};
ghost use Rattle.exchange.specs.declared.fault.Fault.TheVariants.{Memory};
ghost use Rattle.exchange.specs.Faults.{number_of, layer_of, layer_name, fault_text};

use std::alloc::{AllocError, AllocFailed};
use std::error::Error;
use std::fmt;

/// The part of the program that a rule belongs to.
#[derive(Clone, Copy, PartialEq, Eq, Debug)]
pub enum Layer {
    Reader,
    Search,
    Stock,
    Host,
    Writer,
    Ring,
    Sink,
}

impl Layer {
    /// The word for the layer in a printed line.
    pub fn name(self) -> &'static str
        ensures { result.now ≡ layer_name self }
    {
        match self {
            Layer::Reader => "reader",
            Layer::Search => "search",
            Layer::Stock => "stock",
            Layer::Host => "host",
            Layer::Writer => "writer",
            Layer::Ring => "ring",
            Layer::Sink => "sink",
        }
    }
}

impl fmt::Display for Layer {
    ghost output = { λ l. Some (layer_name l) };

    fn fmt<W: fmt::Write>(&self, f: &mut fmt::Formatter<W>) -> fmt::Result {
        f.write_str(self.name())
    }
}

/// A rule that an input or a state can break. What its place is stands with each.
#[derive(Clone, Copy, PartialEq, Eq, Debug)]
pub enum Rule {
    /// A book has a header of 8 bytes. Place: the length.
    BookTooShort = 1,
    /// A book has at most 256 boats (place 0) and 16,384 wishes (place 2).
    BookTooLarge = 2,
    /// The offsets in the header are those of the layout. Place: 4 or 6.
    WrongOffset = 3,
    /// A book is as long as its header says. Place: the length.
    WrongLength = 4,
    /// Row numbers begin at 0, never fall, and end at the number of wishes. Place: the number's first byte.
    WrongRowNumber = 5,
    /// A wish is for a boat of the book. Place: the wish's byte.
    UnknownBoat = 6,
    /// No boat is wished for by its own club. Place: the wish's byte.
    OwnBoat = 7,
    /// A boat stands once in a row. Place: the later byte.
    RepeatedWish = 8,
    /// A bound is 2 to 16. Place: the number.
    WrongBound = 9,
    /// A stock list has five bytes a boat, and at most 1,280. Place: the length.
    WrongStockLength = 10,
    /// A kind is 0 to 15. Place: the kind's byte.
    UnknownKind = 11,
    /// Marks are set and lifted at boats of the host. Place: the boat.
    NoSuchBoat = 12,
    /// A written book has at most 16,384 wishes. Place: the boat whose row passes that.
    TooManyWishes = 13,
    /// A ring has 2 to 16 boats. Place: the length.
    WrongRingLength = 14,
    /// No boat stands twice in a ring. Place: the later one's.
    RepeatedBoat = 15,
    /// The least boat of a ring stands first. Place: the first lower one's.
    LowerBoat = 16,
    /// A sink's limit is at most 1,000,000. Place: the limit asked for.
    LimitTooLarge = 17,
    /// What is written fits the buffer. Place: the length needed.
    BufferTooShort = 18,
    /// A boat sink has a number for each of 256 boats. Place: how many there are.
    TooFewNumbers = 19,
    /// A sheet has at most 1,000,000 lines. Place: how many there are.
    TooManyLines = 20,
    /// A full sink takes no ring. Place: 0.
    Full = 21,
    /// A search that has ended gives no ring. Place: 0.
    End = 22,
    /// A sink that has taken no ring has no latest one. Place: 0.
    NoLatestRing = 23,
}

impl Rule {
    /// The number by which the rule is known.
    pub fn number(self) -> u8
        ensures number { result ≡ number_of self }

        // No other rule has this number.
        ensures unique { (other : Rule) → number_of other ≡ result → other ≡ self }
    {
        // An enum's own number is had by `as` alone.
        self as u8
    }

    pub fn layer(self) -> Layer
        ensures { result ≡ layer_of self }
    {
        match self {
            Rule::BookTooShort
            | Rule::BookTooLarge
            | Rule::WrongOffset
            | Rule::WrongLength
            | Rule::WrongRowNumber
            | Rule::UnknownBoat
            | Rule::OwnBoat
            | Rule::RepeatedWish => Layer::Reader,
            Rule::WrongBound | Rule::End => Layer::Search,
            Rule::WrongStockLength | Rule::UnknownKind => Layer::Stock,
            Rule::NoSuchBoat => Layer::Host,
            Rule::TooManyWishes | Rule::BufferTooShort | Rule::TooManyLines => Layer::Writer,
            Rule::WrongRingLength | Rule::RepeatedBoat | Rule::LowerBoat => Layer::Ring,
            Rule::LimitTooLarge | Rule::TooFewNumbers | Rule::Full | Rule::NoLatestRing =>
                Layer::Sink,
        }
    }

    /// The refusal by this rule, broken at `place`.
    pub fn at(self, place: usize) -> Fault
        ensures { result ≡ Fault.Refused self place }
    {
        Fault::Refused { rule: self, place }
    }
}

/// Why a call gave no result.
#[derive(Clone, Copy, PartialEq, Eq, Debug)]
pub enum Fault {
    /// A rule was broken.
    Refused { rule: Rule, place: usize },
    /// There was no memory to be had: no fault of the input, so without a number or a place.
    Memory,
}

impl fmt::Display for Fault {
    ghost output = { λ x. Some (fault_text x) };

    fn fmt<W: fmt::Write>(&self, f: &mut fmt::Formatter<W>) -> fmt::Result {
        match *self {
            Fault::Refused { rule, place } => {
                let layer = rule.layer();
                let number = rule.number();
                write!(f, "fault {layer} {number} {place}")
            }
            Fault::Memory => write!(f, "fault memory"),
        }
    }
}

impl Error for Fault {}

impl From<AllocError> for Fault {
    ghost from_gives = { λ _ r. r ≡ Memory };

    fn from(_e: AllocError) -> Fault {
        Self::Memory
    }
}

/// A `push` or an `insert` that found no memory hands its value back: it is let go.
// Beside the `impl` above, since `?` looks for one for each error of the library.
impl<T: Drop> From<AllocFailed<T>> for Fault {
    ghost from_gives = { λ _ r. r ≡ Memory };

    fn from(e: AllocFailed<T>) -> Fault {
        AllocError::from(e).into()
    }
}
