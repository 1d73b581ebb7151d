//! The book: a host that holds its rows as bytes.
ghost use Rattle.std.specs.Prelude.{◌≡◌, true, [], OnOk, OnErr};
ghost use Rattle.exchange.specs.Checks.{unless};
ghost use Rattle.exchange.specs.Rows.{row};
ghost use Rattle.hosts.specs.Books.{book_rows, book_fault, may_hold};
ghost use Rattle.hosts.specs.Held.{bytes_in};

use super::layout::Layout;
use super::table::Table;
use exchange::{Fault, Host};

/// Rows in the bytes of the layout. A book holds only bytes that its reader accepted, or none yet.
// No `impl Model`: by a model, a refused `fill` would leave the bytes as they were, and not the whole book.
#[derive(Drop)]
pub struct Book {
    table: Option<Table>,
    ghost held: { may_hold (bytes_in table) ≡ true },
}

impl Book {
    ghost use Rattle.hosts.specs.Shown.{rows_of};

    /// A book with no boats.
    #[tactic(auto, unfolding(crate::specs::Books::book_rows, crate::specs::Books::may_hold))]
    pub fn new() -> Book
        ensures { rows_of result ≡ [] }
    {
        Book { table: None }
    }

    /// Fills the book with the rows that the bytes lay out, or refuses them and leaves the book as it was. The bytes
    /// are handed over, so that no memory is wanted and the answer is settled by the bytes alone.
    pub fn fill(&mut self, bytes: Vec<u8>) -> Result<(), Fault>
        ensures answer { result ≡ unless (book_fault bytes.items) tt }
        ensures ok { OnOk result (rows_of self.new ≡ book_rows bytes.items) }
        ensures err { OnErr result (self.new ≡ self.old) }
    {
        *self = Book::try_from(bytes)?;
        Ok(())
    }

    /// The wishes of boat `u`: none for what is no boat.
    #[tactic(auto, using(crate::specs::Sound::rows_shown))]
    fn row(&self, u: usize) -> &[u8]
        ensures { result.now ≡ row (rows_of self.now) u }
    {
        match &self.table {
            Some(table) => table.row(u),
            None => &[],
        }
    }
}

// By hand: beside a ghost field `Default` is not derived.
impl Default for Book {
    ghost use Rattle.std.specs.Prelude.{◌≡◌, []};
    ghost use Rattle.hosts.specs.Shown.{rows_of};

    ghost is_default = { λ book. rows_of book ≡ [] };

    fn default() -> Book {
        Book::new()
    }
}

/// The book that the bytes are, or their first fault.
impl TryFrom<Vec<u8>> for Book {
    type Error = Fault;

    ghost use Rattle.std.specs.Prelude.{◌≡◌};
    ghost use Rattle.std.specs.Result.{result_map_both};
    ghost use Rattle.hosts.specs.Books.{reading};
    ghost use Rattle.hosts.specs.Shown.{rows_of};

    ghost try_from_gives = { λ bytes r. result_map_both rows_of (λ f. f) r ≡ reading bytes.items };

    #[tactic(auto, using(crate::proofs::Books::checks_in_order, crate::proofs::Books::held_accepted))]
    fn try_from(bytes: Vec<u8>) -> Result<Book, Fault> {
        let layout = Layout::try_from(bytes)?;
        let table = Table::try_from(layout)?;
        table.check_wishes()?;
        Ok(Book { table: Some(table) })
    }
}

impl Host for Book {
    ghost use Rattle.hosts.specs.Shown.{rows_of};
    ghost use Rattle.hosts.specs.Held.{bytes_in};
    ghost use Rattle.hosts.specs.Sound.{held_rows};

    ghost rows = { rows_of };

    ghost sound = { λ x. held_rows (bytes_in x.table) x.held };

    #[tactic(auto, using(crate::specs::Sound::rows_shown))]
    fn boats(&self) -> usize {
        match &self.table {
            Some(table) => table.boats(),
            None => 0,
        }
    }

    fn row_len(&self, u: usize) -> usize {
        self.row(u).len()
    }

    fn wish(&self, u: usize, i: usize) -> Option<u8> {
        self.row(u).get(i).copied()
    }
}
