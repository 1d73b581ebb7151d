//! A host: boats with their rows of wishes.
ghost use Rattle.std.specs.Prelude.{◌≡◌, length};
ghost use Rattle.std.specs.List.{slice_get};
ghost use Rattle.exchange.specs.Rows.{Rows, row, WellFormed, wish_count};

/// At most 256 boats, numbered from 0, with a row for each: the boats that its club would take, the best liked first.
/// A question alters nothing, and asked again it is answered alike: each answer is an equation with the rows.
pub trait Host {
    // What a host means: all that the questions tell.
    ghost rows: { Self → Rows };

    /// How many boats there are.
    fn boats(&self) -> usize
        ensures { result ≡ length (rows self.now) };

    /// How long the row of boat `u` is: 0 for what is no boat.
    fn row_len(&self, u: usize) -> usize
        ensures { result ≡ length (row (rows self.now) u) };

    /// The boat at place `i` of the row of boat `u`, or nothing where the row has no such place.
    fn wish(&self, u: usize, i: usize) -> Option<u8>
        ensures { result ≡ slice_get (row (rows self.now) u) i };

    // What each host owes.
    ghost sound: { (x : Self) → WellFormed (rows x) };
}

/// How many wishes there are in all rows together.
pub fn count_wishes<H: Host>(host: &H) -> usize
    ensures { result ≡ wish_count (H.rows host.now) }
{
    (0..host.boats()).map(|u| host.row_len(u)).sum()
}
