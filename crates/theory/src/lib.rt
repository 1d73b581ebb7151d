//! Rings, the full list and the rule of the search, with the theorems that tie them together.
//!
//! The definitions stand in `specs/`, and what is claimed of them in `specs/Theorems.antt`. Each function here is one
//! claim: it does nothing when it is called, but it is accepted only with a proof of its contract.
#![tactic(auto)]

ghost use Rattle.theory.specs.Theorems.{OneFullList, EachOnce, Complete, Midway, Sound, Settled, Stepwise, Ends, Releases};
ghost use Rattle.theory.specs.Worked.{Worked};

/// Well-formed rows and a bound have one full list, and no other.
pub fn full_list_is_one()
    ensures { OneFullList }
{}

/// Each ring stands in the full list once.
pub fn each_ring_stands_once()
    ensures { EachOnce }
{}

/// From its opening the search hands out the full list, in order, and then ends.
pub fn search_is_complete()
    ensures { Complete }
{}

/// Wherever the search stands, what it has found and what it still hands out are the full list.
pub fn search_stands_midway()
    ensures { Midway }
{}

/// Every path that the search calls a ring is a ring of the rows within the bound.
pub fn search_is_sound()
    ensures { Sound }
{}

/// From whatever state, the rule hands out one list before it ends, and no other.
pub fn what_remains_is_settled()
    ensures { Settled }
{}

/// A silent step keeps what remains, the step of a ring takes its head, and where the search has ended nothing is left.
pub fn steps_work_off_what_remains()
    ensures { Stepwise }
{}

/// From whatever state, there are only so many steps.
pub fn search_ends()
    ensures { Ends }
{}

/// A release frees the boats that are reached through waiters off the path and locked, and no other.
pub fn release_frees_what_is_reached()
    ensures { Releases }
{}

/// The worked rows: rings, entries and locks, one table.
pub fn worked_rows_hold()
    ensures { Worked }
{}
