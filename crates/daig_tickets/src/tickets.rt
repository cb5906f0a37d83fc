//! Open tickets.
ghost use Rattle.std.specs.Prelude.{◌≡◌, ◌+◌, ◌<◌, ◌^◌, [], ◌∷◌, ◌++◌, length, map, nat_le, None, IfOk, ℕ, MatchOption, OnErr, OnOk, Some, take, drop};
ghost use Rattle.daig_machine.specs.Machine.{ticket_of, without_ticket};
ghost use Rattle.daig_tickets.specs.Tickets.{anew, number, tickets, AreOpen, IsAt, IsPlaced};

use base_values::Memory;
use daig_machine::Question;
use std::alloc::Global;
use thiserror::Error;

/// The most tickets that are open.
const MOST_OPEN: usize = 16;

/// No ticket of this number is open.
#[derive(Clone, Copy, Debug, PartialEq, Eq, Error)]
#[error("no such ticket is open")]
pub struct NoTicket;

/// An open ticket: its number, what it asks, and how far it has come.
#[derive(Drop)]
pub struct OpenTicket<G> {
    pub number: u64,
    pub question: Question,
    pub going: Option<G>,
}

/// The open tickets, and the number of the next one.
#[derive(Drop)]
pub struct Tickets<G> {
    pub open_ones: Vec<OpenTicket<G>>,
    pub next: u64,
}

/// The place of a ticket.
fn place_in<G>(open_ones: &[OpenTicket<G>], number: u64) -> Option<usize>
    ensures is { IsPlaced number open_ones.now result }
{
    for (place, one) in open_ones.iter().enumerate() {
        if one.number == number {
            return Some(place);
        }
    }
    None
}

/// Lets these tickets begin anew.
fn begin_all<G: Drop>(open_ones: &mut [OpenTicket<G>])
    ensures is { open_ones.new ≡ map anew open_ones.old }
{
    for place in 0..open_ones.len() {
        open_ones[place].going = None;
    }
}

impl<G> Tickets<G> {
    /// None is open, and the first one will have the number 1.
    pub fn new(alloc: Global) -> Tickets<G>
        ensures is { AreOpen result }
        ensures none { result.open_ones.items ≡ [] }
        ensures first { result.next ≡ 1 }
    {
        Tickets {
            open_ones: Vec::new(alloc),
            next: 1,
        }
    }

    /// Whether no further ticket can be opened.
    pub fn is_full(&self) -> bool
        ensures is { result ≡ nat_le 16 (length self.now.open_ones.items) }
    {
        MOST_OPEN <= self.open_ones.len()
    }

    #[tactic(auto, using(crate::proofs::Closing::placed_none, crate::proofs::Closing::placed_some))]
    /// The place of the open ticket of a number. It takes time linear in the open tickets, which are few.
    pub fn place_of(&self, number: u64) -> Option<usize>
        ensures is { MatchOption result (ticket_of number (tickets self.now) ≡ None)
            (IsAt self.now number) }
    {
        place_in(self.open_ones.as_slice(), number)
    }
}

impl<G: Drop> Tickets<G> {
    #[tactic(auto, using(crate::proofs::Opening::opens))]
    /// Opens a ticket, for which so much is done, and gives its number. When memory runs out it opens none.
    pub fn add(&mut self, question: Question, going: Option<G>) -> Result<u64, Memory>
        requires tickets { AreOpen self.old }
        requires few { length self.old.open_ones.items < 16 }
        requires room { self.old.next < 2 ^ 63 }
        ensures tickets { AreOpen self.new }
        ensures number { IfOk result (λ n. n ≡ self.old.next) }
        ensures added { OnOk result (self.new.open_ones.items ≡ self.old.open_ones.items
            ++ record { number = self.old.next; question = question; going = going } ∷ []) }
        ensures next { OnOk result (self.new.next ≡ self.old.next + 1) }
        ensures unchanged { OnErr result (self.new.open_ones.items ≡ self.old.open_ones.items) }
        ensures same_next { OnErr result (self.new.next ≡ self.old.next) }
    {
        let number = self.next;
        self.open_ones.push(OpenTicket {
            number,
            question,
            going,
        })?;
        self.next = number + 1;
        Ok(number)
    }

    #[tactic(auto, using(crate::proofs::Closing::closes, crate::proofs::Closing::closed_is))]
    /// Closes the ticket at a place. The others stay in their order.
    pub fn close(&mut self, place: usize)
        requires tickets { AreOpen self.old }
        requires there { place < length self.old.open_ones.items }
        ensures tickets { AreOpen self.new }
        ensures closed { (n : ℕ) → IsAt self.old n place →
            tickets self.new ≡ without_ticket n (tickets self.old) }
        ensures rest { self.new.open_ones.items ≡ take place self.old.open_ones.items
            ++ drop (place + 1) self.old.open_ones.items }
        ensures next { self.new.next ≡ self.old.next }
    {
        self.open_ones.remove(place);
    }

    /// Lets all tickets begin anew.
    pub fn begin_anew(&mut self)
        ensures anew { self.new.open_ones.items ≡ map anew self.old.open_ones.items }
        ensures next { self.new.next ≡ self.old.next }
    {
        begin_all(self.open_ones.as_mut_slice());
    }
}
