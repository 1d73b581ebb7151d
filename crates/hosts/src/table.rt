//! The row table of a book, and the rows that it cuts out of the bytes.
ghost use Rattle.std.specs.Prelude.{◌≡◌, ◌+◌, ◌<◌, ◌≤◌, IfOk};
ghost use Rattle.std.specs.Result.{result_err};
ghost use Rattle.exchange.specs.Rows.{row};
ghost use Rattle.hosts.specs.Books.{boats, row_at, book_rows, table_fault, boat_fault, wishes_fault};
ghost use Rattle.hosts.specs.Layouts.{TableStands};

use super::layout::Layout;
use exchange::{Fault, Rule};

/// A layout whose row numbers stand.
// The rows stay in the bytes that were handed over: a vector of rows would want memory, and a book asks for none.
// No `impl Model`, as at `Layout`.
#[derive(Drop)]
pub(crate) struct Table {
    layout: Layout,
    ghost numbers: { TableStands layout.bytes.items },
}

impl TryFrom<Layout> for Table {
    type Error = Fault;

    ghost try_from_gives = { λ layout r. (result_err r ≡ table_fault layout.bytes.items) × IfOk r (λ table. table.layout ≡ layout) };

    #[tactic(auto, using(crate::proofs::Books::numbers_stand))]
    fn try_from(layout: Layout) -> Result<Table, Fault> {
        layout.check_row_numbers()?;
        Ok(Table { layout })
    }
}

impl Table {
    pub(crate) fn boats(&self) -> usize
        ensures { result ≡ boats self.now.layout.bytes.items }
    {
        self.layout.boats()
    }

    /// The wishes of boat `u`: none for what is no boat.
    #[tactic(auto, using(crate::specs::Sound::rows_shown))]
    pub(crate) fn row(&self, u: usize) -> &[u8]
        ensures { result.now ≡ row (book_rows self.now.layout.bytes.items) u }
    {
        if u < self.boats() {
            &self.layout.bytes()[self.row_at(u)..self.row_at(u + 1)]
        } else {
            &[]
        }
    }

    /// The byte at which row `u` begins.
    fn row_at(&self, u: usize) -> usize
        requires { u ≤ boats self.now.layout.bytes.items }
        ensures { result ≡ row_at self.now.layout.bytes.items u }
    {
        self.layout.wishes_at() + self.layout.row_number(u)
    }

    /// The first fault of the wishes, row after row.
    pub(crate) fn check_wishes(&self) -> Result<(), Fault>
        ensures { result_err result ≡ wishes_fault self.now.layout.bytes.items }
    {
        (0..self.boats()).try_for_each(|u| self.check_row(u))
    }

    /// The first fault in the row of boat `u`. One look serves the three rules of a wish: it ends at the first byte that
    /// breaks one of them.
    #[tactic(auto, using(crate::proofs::Wishes::look, crate::specs::Sound::rows_shown))]
    fn check_row(&self, u: usize) -> Result<(), Fault>
        requires { u < boats self.now.layout.bytes.items }
        ensures { result_err result ≡ boat_fault self.now.layout.bytes.items u }
    {
        let boats = self.boats();
        let at = self.row_at(u);
        let row = self.row(u);
        // Two loops and a label: a form that was asked for at this place (docs/DECISIONS.md).
        'look: {
            for (j, &wish) in row.iter().enumerate() {
                if usize::from(wish) >= boats {
                    break 'look Err(Rule::UnknownBoat.at(at + j));
                }
                if usize::from(wish) == u {
                    break 'look Err(Rule::OwnBoat.at(at + j));
                }
                for &earlier in &row[..j] {
                    if earlier == wish {
                        break 'look Err(Rule::RepeatedWish.at(at + j));
                    }
                }
            }
            Ok(())
        }
    }
}
