// The elements of a guest state buffer: the one constant table, and the types in which it is told what an ID is.
// `kinds` and `numbers` scan it, `registers` has the short way for nearly all IDs, `lists` has what POWER9 lacks of it; the crate `rules`
// says what a call may do with an element.
#![tactic(auto)]

mod cells;
mod kinds;
mod lists;
mod numbers;
mod registers;
mod rows;

pub use cells::{listed_cell, register_cell};
pub use kinds::kind_of;
pub use lists::{is_later, is_offered, offer_of};
pub use numbers::{number_of, thread_element};
pub use registers::{is_register, register_of};

#[derive(Clone, Copy)]
pub enum Access {
    Read,
    Write,
    ReadWrite,
}

#[derive(Clone, Copy)]
pub enum Scope {
    Guest,
    Thread,
}

// A row of the table: the IDs from first to last have values of size bytes each.
#[derive(Clone, Copy)]
pub struct Row {
    pub first: u16,
    pub last: u16,
    pub size: usize,
    pub access: Access,
    pub scope: Scope,
}

// Where a listed element's value comes from: a number that never changes, or its place in a guest's or a slot's values.
#[derive(Clone, Copy)]
pub enum Source {
    Fixed(u64),
    Stored(usize),
}

#[derive(Clone, Copy)]
pub struct Entry {
    pub size: usize,
    pub access: Access,
    pub scope: Scope,
    pub source: Source,
}

// What an ID is.
#[derive(Clone, Copy)]
pub enum Kind {
    Unlisted,
    Nop,
    Listed(Entry),
}

// The list that a guest is offered: all of the table, or what POWER9 has of it.
#[derive(Clone, Copy)]
pub enum Offer {
    Full,
    Power9,
}

// A thread element by its number: its ID, its size and where its value lies in a slot's values.
#[derive(Clone, Copy)]
pub struct Element {
    pub id: u16,
    pub size: usize,
    pub position: usize,
}

// A register: its size, and where its value lies in a slot's values.
#[derive(Clone, Copy)]
pub struct Register {
    pub size: usize,
    pub position: usize,
}

// A thread element by its ID: its number, its size, and where its value lies in a slot's values.
#[derive(Clone, Copy)]
pub struct Cell {
    pub number: usize,
    pub size: usize,
    pub position: usize,
}
