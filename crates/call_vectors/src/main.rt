// Runs the calls of the input on a book, and prints the answer to each: its number, and its values.
#![tactic(auto)]

use answers::number_of;
use arrayvec::ArrayVec;
use book::{Cents, Day, Opening, Parts, Placed, ReachedBook, Revised, Taken};
use book_cases::{put_position, put_totals};
use cases::Cases;
use std::io;

// The most bytes of the input.
const INPUT: usize = 131072;

// The most numbers that a list of the input has.
const LISTED: usize = 70;

// The book, and the cases of the input that are still to come.
#[derive(Drop)]
struct Calls<'a> {
    book: ReachedBook,
    cases: Cases<'a>,
}

impl<'a> Calls<'a> {
    // The numbers of a list: it says first how many they are.
    fn list(&mut self) -> ArrayVec<u32, LISTED> {
        let mut numbers = ArrayVec::new();
        for _ in 0..self.cases.count(LISTED) {
            let _ = numbers.try_push(self.cases.number_u32());
        }
        numbers
    }

    fn open_book(&mut self, rt: &impl Print) {
        let first = self.cases.number_u32();
        let term = Day(self.cases.number_u32());
        let annual = self.cases.number();
        let cents = Cents(self.cases.number());
        let holders = self.list();
        let shares = self.list();
        let opening = Opening {
            first,
            term,
            annual,
            cents,
            holders: &holders,
            shares: &shares,
        };
        let opened = book::open_book_in_place(&mut self.book, opening);
        let _ = println!(rt; "{}", number_of(opened));
    }

    fn advance(&mut self, rt: &impl Print) {
        let date = self.cases.number_u32();
        let advanced = book::advance_in_place(&mut self.book, date);
        let days = advanced.unwrap_or_default().0;
        let _ = println!(rt; "{} {days}", number_of(advanced));
    }

    fn transfer(&mut self, rt: &impl Print) {
        let cedent = self.cases.number_u32();
        let assignee = self.cases.number_u32();
        let parts = Parts(self.cases.number());
        let transferred = book::transfer_in_place(&mut self.book, cedent, assignee, parts);
        let left = transferred.unwrap_or_default().0;
        let _ = println!(rt; "{} {left}", number_of(transferred));
    }

    fn settle(&mut self, rt: &impl Print) {
        let cents = Cents(self.cases.number());
        let settled = book::settle_in_place(&mut self.book, cents);
        let Taken {
            interest,
            principal,
        } = settled.unwrap_or_default();
        let _ = println!(rt; "{} {} {}", number_of(settled), interest.0, principal.0);
    }

    fn rate(&mut self, rt: &impl Print) {
        let date = self.cases.number_u32();
        let annual = self.cases.number();
        let rated = book::rate_in_place(&mut self.book, date, annual);
        let Revised { outstanding, due } = rated.unwrap_or_default();
        let _ = println!(rt; "{} {} {}", number_of(rated), outstanding.0, due.0);
    }

    // The position of a holder.
    fn position_of(&mut self, rt: &impl Print) {
        let position = book::position_of(&self.book, self.cases.number_u32());
        let _ = print!(rt; "{} ", number_of(position));
        put_position(rt, position.unwrap_or_default());
    }

    // How many positions there are, and the one at a place.
    fn position_at(&mut self, rt: &impl Print) {
        let placed = book::position_at(&self.book, self.cases.number() as usize);
        let Placed { count, position } = placed.unwrap_or_default();
        let _ = print!(rt; "{} {count} ", number_of(placed));
        put_position(rt, position);
    }

    fn begin_anew(&mut self, rt: &impl Print) {
        self.book = ReachedBook::empty();
        let _ = println!(rt; "0");
    }

    // The next call, by the number that the input has for it: told apart once, here, so no enum stands between. Numbers that no other call has are for
    // the totals.
    fn call(&mut self, rt: &impl Print) {
        match self.cases.number() {
            0 => self.begin_anew(rt),
            1 => self.open_book(rt),
            2 => self.advance(rt),
            3 => self.transfer(rt),
            4 => self.settle(rt),
            5 => self.position_of(rt),
            6 => self.position_at(rt),
            8 => self.rate(rt),
            _ => put_totals(rt, &self.book),
        }
    }
}

fn main(rt: HostRuntime) -> io::Result<()> {
    let mut buffer = [0u8; INPUT];
    let cases = Cases::read(&mut rt.stdin(), &mut buffer)?;
    let mut calls = Calls {
        book: ReachedBook::empty(),
        cases,
    };
    for _ in 0..calls.cases.number() {
        calls.call(&rt);
    }
    Ok(())
}
