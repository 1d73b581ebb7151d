//! The layout of a book: bytes that are as long as their header says.
ghost use Rattle.std.specs.Prelude.{◌≡◌, ◌+◌, ◌*◌, ◌^◌, ◌<◌, ◌≤◌, length, IfOk};
ghost use Rattle.std.specs.Result.{result_err};
ghost use Rattle.hosts.specs.Books.{number, boats, wishes, row_number, row_number_fault, table_fault, wishes_at, header_fault};
ghost use Rattle.hosts.specs.Layouts.{HeaderStands};
ghost use Rattle.hosts.specs.declared.layout.TheConstants.{HEADER};

use exchange::{Fault, Rule};

/// Where the header has the number of boats.
const BOAT_COUNT_AT: usize = 0;

/// Where the header has the number of wishes.
const WISH_COUNT_AT: usize = 2;

/// Where the header has the offset of the row table.
const TABLE_OFFSET_AT: usize = 4;

/// Where the header has the offset of the wishes.
const WISHES_OFFSET_AT: usize = 6;

/// How many bytes the header has.
const HEADER: usize = 8;

/// How many boats a book has at most.
const MOST_BOATS: usize = 256;

/// How many wishes a book has at most.
const MOST_WISHES: usize = 16384;

/// Bytes whose header stands.
// No `impl Model`: by a model, a refused `fill` would leave the bytes as they were, and not the whole book.
#[derive(Drop)]
pub(crate) struct Layout {
    bytes: Vec<u8>,
    ghost header: { HeaderStands bytes.items },
}

impl TryFrom<Vec<u8>> for Layout {
    type Error = Fault;

    ghost try_from_gives = { λ bytes r. (result_err r ≡ header_fault bytes.items) × IfOk r (λ layout. layout.bytes ≡ bytes) };

    #[tactic(auto, using(crate::specs::Sound::header_facts))]
    fn try_from(bytes: Vec<u8>) -> Result<Layout, Fault> {
        check_header(bytes.as_slice())?;
        Ok(Layout { bytes })
    }
}

impl Layout {
    pub(crate) fn bytes(&self) -> &[u8]
        ensures { result.now ≡ self.now.bytes.items }
    {
        self.bytes.as_slice()
    }

    pub(crate) fn boats(&self) -> usize
        ensures { result ≡ boats self.now.bytes.items }
    {
        number_at(self.bytes(), BOAT_COUNT_AT)
    }

    fn wishes(&self) -> usize
        ensures { result ≡ wishes self.now.bytes.items }
    {
        number_at(self.bytes(), WISH_COUNT_AT)
    }

    /// Where the wishes begin.
    pub(crate) fn wishes_at(&self) -> usize
        ensures { result ≡ wishes_at self.now.bytes.items }
    {
        row_number_place(self.boats() + 1)
    }

    /// Row number `u` of the row table.
    // An index, in range as at a slice: a type for it would state the same bound.
    pub(crate) fn row_number(&self, u: usize) -> usize
        requires { u ≤ boats self.now.bytes.items }
        ensures { result ≡ row_number self.now.bytes.items u }
    {
        number_at(self.bytes(), row_number_place(u))
    }

    /// The first fault of the row table, number after number.
    pub(crate) fn check_row_numbers(&self) -> Result<(), Fault>
        ensures { result_err result ≡ table_fault self.now.bytes.items }
    {
        // Not `0..=self.boats()`: at each number such a range asks whether it has ended, and the check takes about twice as long.
        (0..self.boats() + 1).try_for_each(|u| self.check_row_number(u))
    }

    /// The fault of row number `u`: it is 0 at the first, not below the one before it, not above the number of wishes, and
    /// that number at the last.
    #[tactic(auto, unfolding(crate::specs::Books::row_number_fault))]
    fn check_row_number(&self, u: usize) -> Result<(), Fault>
        requires { u ≤ boats self.now.bytes.items }
        ensures { result_err result ≡ row_number_fault self.now.bytes.items u }
    {
        let number = self.row_number(u);
        let starts = u > 0 || number == 0;
        let rises = u == 0 || self.row_number(u - 1) <= number;
        let within = number <= self.wishes();
        let ends = u < self.boats() || number == self.wishes();
        if starts && rises && within && ends {
            Ok(())
        } else {
            Err(Rule::WrongRowNumber.at(row_number_place(u)))
        }
    }
}

/// The first fault of the header, and of the length that it tells.
#[tactic(auto, unfolding(crate::specs::Books::header_fault))]
fn check_header(bytes: &[u8]) -> Result<(), Fault>
    ensures { result_err result ≡ header_fault bytes.now }
{
    let len = bytes.len();
    if len < HEADER {
        return Err(Rule::BookTooShort.at(len));
    }
    let boats = number_at(bytes, BOAT_COUNT_AT);
    if boats > MOST_BOATS {
        return Err(Rule::BookTooLarge.at(BOAT_COUNT_AT));
    }
    let wishes = number_at(bytes, WISH_COUNT_AT);
    if wishes > MOST_WISHES {
        return Err(Rule::BookTooLarge.at(WISH_COUNT_AT));
    }
    if number_at(bytes, TABLE_OFFSET_AT) != HEADER {
        return Err(Rule::WrongOffset.at(TABLE_OFFSET_AT));
    }
    let start = row_number_place(boats + 1);
    if number_at(bytes, WISHES_OFFSET_AT) != start {
        return Err(Rule::WrongOffset.at(WISHES_OFFSET_AT));
    }
    if len != start + wishes {
        return Err(Rule::WrongLength.at(len));
    }
    Ok(())
}

/// Where row number `u` stands; behind the last one the wishes begin.
fn row_number_place(u: usize) -> usize
    requires { HEADER + 2 * u < 2 ^ 64 }
    ensures { result ≡ HEADER + 2 * u }
{
    HEADER + 2 * u
}

/// A number of two bytes, the high byte first.
fn number_at(bytes: &[u8], at: usize) -> usize
    requires { at + 1 < length bytes.now }
    ensures { result ≡ number bytes.now at }
{
    usize::from(u16::from_be_bytes([bytes[at], bytes[at + 1]]))
}
