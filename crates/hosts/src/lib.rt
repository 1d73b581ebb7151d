//! The hosts: what shows boats with their rows of wishes.
#![tactic(auto)]

mod book;
mod layout;
mod table;

pub use book::Book;
