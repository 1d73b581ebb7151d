//! What the program tells of its input.
use super::samples::{P, complete};
use exchange::{Fault, Rule};
use listing::{MOST_INPUT, Summary, summarize};
use std::alloc::{AllocError, Global};
use std::test::Fail;

// The bound in front of the bytes of a book.
fn input(alloc: Global, bound: u8, book: &[u8]) -> Result<Vec<u8>, AllocError> {
    let mut input = [bound].to_vec(alloc)?;
    input.extend_from_slice(book)?;
    Ok(input)
}

#[test]
fn the_worked_book_has_five_boats(rt: HostRuntime) -> Result<(), Fail> {
    for bound in [2, 5, 16] {
        let told = summarize(input(rt.alloc(), bound, &P)?);
        assert_eq!(rt;
            told,
            Ok(Summary {
                boats: 5,
                wishes: 9,
            })
        );
    }
    let text = Summary {
        boats: 5,
        wishes: 9,
    }
    .to_string(rt.alloc())?;
    assert_eq!(rt; text.as_str(), "boats 5 wishes 9");
    Ok(())
}

#[test]
fn no_input_is_a_book_too_short(rt: HostRuntime) -> Result<(), Fail> {
    let told = summarize(Vec::new(rt.alloc()));
    assert_eq!(rt; told, Err(Rule::BookTooShort.at(0)));
    let told = summarize(input(rt.alloc(), 5, &[])?);
    assert_eq!(rt; told, Err(Rule::BookTooShort.at(0)));
    Ok(())
}

#[test]
fn a_wrong_bound_is_told_after_the_book(rt: HostRuntime) -> Result<(), Fail> {
    for bound in [0, 1, 17, 255] {
        let told = summarize(input(rt.alloc(), bound, &P)?);
        assert_eq!(rt; told, Err(Rule::WrongBound.at(usize::from(bound))));
        let told = summarize(input(rt.alloc(), bound, &P[..28])?);
        assert_eq!(rt; told, Err(Rule::WrongLength.at(28)));
    }
    Ok(())
}

#[test]
fn bytes_past_the_most_do_not_count(rt: HostRuntime) -> Result<(), Fail> {
    let book = complete(rt.alloc())?;
    let mut longest = input(rt.alloc(), 16, book.as_slice())?;
    assert_eq!(rt; longest.len() + 1, MOST_INPUT);
    let told = summarize(input(rt.alloc(), 16, book.as_slice())?);
    assert_eq!(rt;
        told,
        Ok(Summary {
            boats: 256,
            wishes: 16384,
        })
    );
    for _ in 0..3 {
        longest.push(7)?;
        let told = summarize(longest.as_slice().to_vec(rt.alloc())?);
        assert_eq!(rt; told, Err(Rule::WrongLength.at(16907)));
    }
    Ok(())
}
