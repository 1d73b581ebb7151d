//! Each rule's number and layer, as its line tells them.
use exchange::{Fault, Rule};
use std::alloc::{AllocFailed, Global};
use std::test::Fail;

const LINES: [(Rule, &str); 23] = [
    (Rule::BookTooShort, "fault reader 1 7"),
    (Rule::BookTooLarge, "fault reader 2 7"),
    (Rule::WrongOffset, "fault reader 3 7"),
    (Rule::WrongLength, "fault reader 4 7"),
    (Rule::WrongRowNumber, "fault reader 5 7"),
    (Rule::UnknownBoat, "fault reader 6 7"),
    (Rule::OwnBoat, "fault reader 7 7"),
    (Rule::RepeatedWish, "fault reader 8 7"),
    (Rule::WrongBound, "fault search 9 7"),
    (Rule::WrongStockLength, "fault stock 10 7"),
    (Rule::UnknownKind, "fault stock 11 7"),
    (Rule::NoSuchBoat, "fault host 12 7"),
    (Rule::TooManyWishes, "fault writer 13 7"),
    (Rule::WrongRingLength, "fault ring 14 7"),
    (Rule::RepeatedBoat, "fault ring 15 7"),
    (Rule::LowerBoat, "fault ring 16 7"),
    (Rule::LimitTooLarge, "fault sink 17 7"),
    (Rule::BufferTooShort, "fault writer 18 7"),
    (Rule::TooFewNumbers, "fault sink 19 7"),
    (Rule::TooManyLines, "fault writer 20 7"),
    (Rule::Full, "fault sink 21 7"),
    (Rule::End, "fault search 22 7"),
    (Rule::NoLatestRing, "fault sink 23 7"),
];

#[test]
fn every_rule_has_its_line(rt: HostRuntime) -> Result<(), Fail> {
    for (rule, line) in LINES {
        let text = rule.at(7).to_string(rt.alloc())?;
        assert_eq!(rt; text.as_str(), line);
    }
    Ok(())
}

#[test]
fn places_are_decimal(rt: HostRuntime) -> Result<(), Fail> {
    let text = Rule::WrongLength.at(0).to_string(rt.alloc())?;
    assert_eq!(rt; text.as_str(), "fault reader 4 0");
    let text = Rule::LimitTooLarge.at(1000001).to_string(rt.alloc())?;
    assert_eq!(rt; text.as_str(), "fault sink 17 1000001");
    Ok(())
}

#[test]
fn want_of_memory_has_a_line_of_its_own(rt: HostRuntime) -> Result<(), Fail> {
    let text = Fault::Memory.to_string(rt.alloc())?;
    assert_eq!(rt; text.as_str(), "fault memory");
    Ok(())
}

// A size that no memory holds.
fn too_much(alloc: Global) -> Result<Vec<u8>, Fault> {
    Ok(Vec::with_capacity(alloc, usize::MAX)?)
}

#[test]
fn a_value_that_found_no_memory_is_let_go(rt: HostRuntime) {
    let fault: Fault = AllocFailed { value: 7u8 }.into();
    assert_eq!(rt; fault, Fault::Memory);
}

#[test]
fn want_of_memory_is_carried_up(rt: HostRuntime) {
    assert_eq!(rt; too_much(rt.alloc()).err(), Some(Fault::Memory));
}
