// Books: how data fields are read as lists of numbers and lists are written as data fields, and the plain-word book.
#![tactic(auto)]

pub mod book;
pub mod faults;
pub mod known;
pub mod plain;
pub mod room;
pub mod scan;
