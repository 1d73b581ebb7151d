//! What the programs do with their input, and the lines that they print.
#![tactic(auto)]

ghost use Rattle.std.specs.Prelude.{◌≡◌, Some};
ghost use Rattle.listing.specs.Summaries.{bound_of, book_of, answer_to, summary_text};

use exchange::{Bound, Fault, Host, count_wishes};
use hosts::Book;
use std::fmt;

/// How many bytes of input count: the bound, the longest book, and one byte more, by which a book that is too long is
/// known.
pub const MOST_INPUT: usize = 16908;

/// How much there is to search.
#[derive(Clone, Copy, PartialEq, Eq, Debug)]
pub struct Summary {
    pub boats: usize,
    pub wishes: usize,
}

impl fmt::Display for Summary {
    ghost output = { λ s. Some (summary_text s) };

    fn fmt<W: fmt::Write>(&self, f: &mut fmt::Formatter<W>) -> fmt::Result {
        write!(f, "boats {} wishes {}", self.boats, self.wishes)
    }
}

/// The summary of the book that stands behind the first byte of the input, which is the bound.
pub fn summarize(mut input: Vec<u8>) -> Result<Summary, Fault>
    ensures { result ≡ answer_to input.items }
{
    let number = take_bound(&mut input);
    let book = Book::try_from(input)?;
    let _bound = Bound::try_from(usize::from(number))?;
    Ok(Summary {
        boats: book.boats(),
        wishes: count_wishes(&book),
    })
}

/// Takes the bound off the input, and leaves the book.
#[tactic(auto, unfolding(crate::specs::Summaries::bound_of, crate::specs::Summaries::book_of))]
fn take_bound(input: &mut Vec<u8>) -> u8
    ensures value { result ≡ bound_of input.old.items }
    ensures rest { input.new.items ≡ book_of input.old.items }
{
    input.truncate(MOST_INPUT);
    // By the rule a missing bound is the number 0, refused like any wrong number: an `Option` would only become 0 in the caller.
    if input.is_empty() { 0 } else { input.remove(0) }
}
