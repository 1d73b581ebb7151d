//! Books that are accepted, and each way to be refused with its place.
use super::samples::{P, changed, complete};
use exchange::{Fault, Host, Rule, count_wishes};
use hosts::Book;
use std::test::Fail;

// One byte of P changed, and what is then broken.
const CHANGES: [(usize, u8, Rule, usize); 20] = [
    (0, 1, Rule::BookTooLarge, 0),
    (2, 64, Rule::BookTooLarge, 2),
    (4, 1, Rule::WrongOffset, 4),
    (5, 9, Rule::WrongOffset, 4),
    (6, 1, Rule::WrongOffset, 6),
    (7, 21, Rule::WrongOffset, 6),
    (1, 4, Rule::WrongOffset, 6),
    (3, 8, Rule::WrongLength, 29),
    (3, 10, Rule::WrongLength, 29),
    (9, 1, Rule::WrongRowNumber, 8),
    (13, 1, Rule::WrongRowNumber, 12),
    (15, 10, Rule::WrongRowNumber, 14),
    (19, 8, Rule::WrongRowNumber, 18),
    (19, 10, Rule::WrongRowNumber, 18),
    (20, 5, Rule::UnknownBoat, 20),
    (20, 0, Rule::OwnBoat, 20),
    (21, 3, Rule::RepeatedWish, 21),
    (25, 0, Rule::RepeatedWish, 25),
    (28, 4, Rule::OwnBoat, 28),
    (28, 255, Rule::UnknownBoat, 28),
];

// What the reader says of bytes.
fn read(bytes: Vec<u8>) -> Result<(), Fault> {
    let mut book = Book::new();
    book.fill(bytes)
}

#[test]
fn a_new_book_has_no_boats(rt: HostRuntime) {
    let book = Book::new();
    assert_eq!(rt; book.boats(), 0);
    assert_eq!(rt; book.row_len(0), 0);
    assert_eq!(rt; book.wish(0, 0), None);
}

#[test]
fn a_default_book_is_a_new_one(rt: HostRuntime) {
    let book = Book::default();
    assert_eq!(rt; book.boats(), 0);
    assert_eq!(rt; book.row_len(0), 0);
    assert_eq!(rt; book.wish(0, 0), None);
}

#[test]
fn a_book_is_made_from_bytes(rt: HostRuntime) -> Result<(), Fail> {
    let book = Book::try_from(P.to_vec(rt.alloc())?)?;
    assert_eq!(rt; book.boats(), 5);
    assert_eq!(rt; book.wish(4, 0), Some(2));
    let made = Book::try_from(changed(rt.alloc(), &P, 20, 5)?);
    assert_eq!(rt; made.err(), Some(Rule::UnknownBoat.at(20)));
    Ok(())
}

#[test]
fn the_worked_book_shows_its_rows(rt: HostRuntime) -> Result<(), Fail> {
    let mut book = Book::new();
    assert_eq!(rt; book.fill(P.to_vec(rt.alloc())?), Ok(()));
    assert_eq!(rt; book.boats(), 5);
    assert_eq!(rt; count_wishes(&book), 9);
    let rows = [
        (3, Some(4)),
        (3, Some(4)),
        (0, Some(1)),
        (0, Some(1)),
        (2, None),
    ];
    for (u, (first, second)) in rows.iter().copied().enumerate() {
        assert_eq!(rt; book.wish(u, 0), Some(first));
        assert_eq!(rt; book.wish(u, 1), second);
        assert_eq!(rt; book.wish(u, 2), None);
    }
    Ok(())
}

#[test]
fn past_the_last_boat_there_is_nothing(rt: HostRuntime) -> Result<(), Fail> {
    let mut book = Book::new();
    book.fill(P.to_vec(rt.alloc())?)?;
    assert_eq!(rt; book.row_len(4), 1);
    for u in [5, 6, 256, usize::MAX] {
        assert_eq!(rt; book.row_len(u), 0);
        assert_eq!(rt; book.wish(u, 0), None);
    }
    assert_eq!(rt; book.wish(0, usize::MAX), None);
    Ok(())
}

#[test]
fn each_changed_byte_breaks_its_rule(rt: HostRuntime) -> Result<(), Fail> {
    for (at, byte, rule, place) in CHANGES {
        let bytes = changed(rt.alloc(), &P, at, byte)?;
        assert_eq!(rt; read(bytes), Err(rule.at(place)));
    }
    Ok(())
}

#[test]
fn fewer_bytes_than_a_header_are_too_short(rt: HostRuntime) -> Result<(), Fail> {
    for len in 0..8usize {
        let bytes = P[..len].to_vec(rt.alloc())?;
        assert_eq!(rt; read(bytes), Err(Rule::BookTooShort.at(len)));
    }
    Ok(())
}

#[test]
fn a_cut_book_has_the_wrong_length(rt: HostRuntime) -> Result<(), Fail> {
    for len in 8..29usize {
        let bytes = P[..len].to_vec(rt.alloc())?;
        assert_eq!(rt; read(bytes), Err(Rule::WrongLength.at(len)));
    }
    let mut longer = P.to_vec(rt.alloc())?;
    longer.push(0)?;
    assert_eq!(rt; read(longer), Err(Rule::WrongLength.at(30)));
    Ok(())
}

#[test]
fn the_first_broken_byte_decides(rt: HostRuntime) -> Result<(), Fail> {
    let own = changed(rt.alloc(), &P, 20, 0)?;
    let both = changed(rt.alloc(), own.as_slice(), 21, 9)?;
    assert_eq!(rt; read(both), Err(Rule::OwnBoat.at(20)));
    let unknown = changed(rt.alloc(), &P, 22, 9)?;
    let both = changed(rt.alloc(), unknown.as_slice(), 21, 3)?;
    assert_eq!(rt; read(both), Err(Rule::RepeatedWish.at(21)));
    Ok(())
}

#[test]
fn earlier_checks_come_first(rt: HostRuntime) -> Result<(), Fail> {
    let large = changed(rt.alloc(), &P, 0, 1)?;
    let bytes = changed(rt.alloc(), large.as_slice(), 2, 64)?;
    assert_eq!(rt; read(bytes), Err(Rule::BookTooLarge.at(0)));
    let offset = changed(rt.alloc(), &P, 5, 9)?;
    let bytes = changed(rt.alloc(), offset.as_slice(), 3, 8)?;
    assert_eq!(rt; read(bytes), Err(Rule::WrongOffset.at(4)));
    let number = changed(rt.alloc(), &P, 9, 1)?;
    let bytes = changed(rt.alloc(), number.as_slice(), 20, 5)?;
    assert_eq!(rt; read(bytes), Err(Rule::WrongRowNumber.at(8)));
    Ok(())
}

#[test]
fn the_largest_numbers_pass_and_one_more_does_not(rt: HostRuntime) -> Result<(), Fail> {
    let header = [1, 0, 64, 0, 0, 8, 2, 10].to_vec(rt.alloc())?;
    assert_eq!(rt; read(header), Err(Rule::WrongLength.at(8)));
    let boats = [1, 1, 64, 0, 0, 8, 2, 12].to_vec(rt.alloc())?;
    assert_eq!(rt; read(boats), Err(Rule::BookTooLarge.at(0)));
    let wishes = [1, 0, 64, 1, 0, 8, 2, 10].to_vec(rt.alloc())?;
    assert_eq!(rt; read(wishes), Err(Rule::BookTooLarge.at(2)));
    Ok(())
}

#[test]
fn a_book_of_no_boats_has_no_wishes(rt: HostRuntime) -> Result<(), Fail> {
    let none = [0, 0, 0, 0, 0, 8, 0, 10, 0, 0].to_vec(rt.alloc())?;
    assert_eq!(rt; read(none), Ok(()));
    let one = [0, 0, 0, 1, 0, 8, 0, 10, 0, 0, 0].to_vec(rt.alloc())?;
    assert_eq!(rt; read(one), Err(Rule::WrongRowNumber.at(8)));
    Ok(())
}

#[test]
fn the_largest_book_is_accepted(rt: HostRuntime) -> Result<(), Fail> {
    let mut book = Book::new();
    assert_eq!(rt; book.fill(complete(rt.alloc())?), Ok(()));
    assert_eq!(rt; book.boats(), 256);
    assert_eq!(rt; count_wishes(&book), 16384);
    assert_eq!(rt; book.row_len(255), 64);
    assert_eq!(rt; book.wish(255, 0), Some(0));
    assert_eq!(rt; book.wish(255, 63), Some(63));
    assert_eq!(rt; book.wish(0, 63), Some(64));
    let mut longer = complete(rt.alloc())?;
    longer.push(0)?;
    assert_eq!(rt; read(longer), Err(Rule::WrongLength.at(16907)));
    Ok(())
}

#[test]
fn a_refusal_leaves_the_book_as_it_was(rt: HostRuntime) -> Result<(), Fail> {
    let mut book = Book::new();
    book.fill(P.to_vec(rt.alloc())?)?;
    for (at, byte, rule, place) in CHANGES {
        let bytes = changed(rt.alloc(), &P, at, byte)?;
        assert_eq!(rt; book.fill(bytes), Err(rule.at(place)));
        assert_eq!(rt; book.boats(), 5);
        assert_eq!(rt; book.wish(0, 0), Some(3));
        assert_eq!(rt; book.wish(4, 0), Some(2));
    }
    Ok(())
}

#[test]
fn a_book_can_be_filled_again(rt: HostRuntime) -> Result<(), Fail> {
    let mut book = Book::new();
    book.fill(complete(rt.alloc())?)?;
    book.fill(P.to_vec(rt.alloc())?)?;
    assert_eq!(rt; book.boats(), 5);
    assert_eq!(rt; book.wish(3, 1), Some(1));
    Ok(())
}
