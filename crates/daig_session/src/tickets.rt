//! Tickets: questions that are answered in steps.
ghost use Rattle.std.specs.Prelude.{◌≡◌, ◌+◌, ◌<◌, ◌≤◌, ◌^◌, length, None, IfOk, OnOk};
ghost use Rattle.daig_tickets.specs.Tickets.{anew};
ghost use Rattle.daig_session.specs.Books.{flow_in, OfTicketAt, RemakesAt, come_to};
ghost use Rattle.daig_session.specs.Sessions.{IsReadyBy, KeepsNextTicket};
ghost use Rattle.daig_session.specs.Engines.{HasCome, BeginsFor, KeepsSetup};
ghost use Rattle.daig_session.specs.Questions.{OpensFrom, StaysUnopenedFrom, StaysUnasked};
ghost use Rattle.daig_session.specs.Questions.{CancelsFrom, NotRefuses};

use crate::asking::begun;
use crate::course::{Course, Going};
use crate::error::{AskError, QueryError};
use crate::parts::Parts;
use crate::session::Session;
use batch_meaning::QueryRefusal;
use daig_machine::Question;
use daig_tickets::{NoTicket, OpenTicket};
use domain_laws::Domain;
use imp_syntax::Location;
use std::alloc::Global;

/// Takes what a ticket has come to: it is to begin anew.
pub(crate) fn take_going(open_ones: &mut Vec<OpenTicket<Course>>, place: usize) -> Option<Course>
    requires there { place < length open_ones.old.items }
    ensures taken { OfTicketAt open_ones.old.items place (λ o. result ≡ o.going) }
    ensures left { RemakesAt place anew open_ones.old.items open_ones.new.items }
{
    let one = &mut open_ones[place];
    one.going.take()
}

/// Puts back what a ticket has come to.
pub(crate) fn put_going(open_ones: &mut Vec<OpenTicket<Course>>, place: usize, going: Course)
    requires there { place < length open_ones.old.items }
    ensures put { RemakesAt place (come_to going) open_ones.old.items open_ones.new.items }
{
    let one = &mut open_ones[place];
    one.going = Some(going);
}

impl From<QueryError> for AskError {
    ghost use Rattle.std.specs.Prelude.{◌≡◌};
    ghost use Rattle.daig_session.specs.Turns.{ask_error};

    ghost from_gives = { λ q e. e ≡ ask_error q };

    fn from(error: QueryError) -> AskError {
        match error {
            QueryError::Refused(why) => AskError::Refused(why),
            QueryError::Memory => AskError::Memory,
        }
    }
}

impl<D: Domain> Parts<D> {
    /// A question at one place that a ticket is to be opened for, or why none is opened.
    fn asked_going(&self, alloc: Global, at: &Location, string: &[u32]) -> Result<Going, AskError>
        requires ready { IsReadyBy D.operations self.now }
        ensures not_full { OnOk result (length self.now.book.tickets.open_ones.items < 16) }
        ensures going { IfOk result
            (HasCome D.operations self.now.engine (flow_in self.now.book) at.now string.now) }
        ensures answered { NotRefuses D.operations self.now (Question.State at.now string.now)
            result }
        ensures unopened { StaysUnasked D.operations self.now at.now string.now result }
    {
        if string.len() > 2 {
            return Err(AskError::Refused(QueryRefusal::LongString));
        }
        if self.book.tickets.is_full() {
            return Err(AskError::Full);
        }
        let flow = self.book.flow();
        let going = begun(alloc, &self.engine, &flow, at, string)?;
        Ok(going)
    }

    /// What is done for a ticket when it is opened, or why it is not: a report is begun by its first step.
    fn asked_course(&self, alloc: Global, question: &Question) -> Result<Option<Course>, AskError>
        requires ready { IsReadyBy D.operations self.now }
        ensures not_full { OnOk result (length self.now.book.tickets.open_ones.items < 16) }
        ensures course { IfOk result
            (BeginsFor D.operations self.now.engine (flow_in self.now.book) question.now) }
        ensures answered { NotRefuses D.operations self.now question.now result }
        ensures unopened { StaysUnopenedFrom D.operations self.now question.now result }
    {
        match question {
            Question::State { at, string } => {
                let going = self.asked_going(alloc, at, string.as_slice())?;
                Ok(Some(Course::Place(going)))
            }
            Question::Why { at, string } => {
                let going = self.asked_going(alloc, at, string.as_slice())?;
                Ok(Some(Course::Place(going)))
            }
            Question::Report => self.asked_report(),
            Question::Faults { only: _ } => self.asked_report(),
        }
    }

    /// The same for a report, which the program never refuses.
    fn asked_report(&self) -> Result<Option<Course>, AskError>
        requires ready { IsReadyBy D.operations self.now }
        ensures not_full { OnOk result (length self.now.book.tickets.open_ones.items < 16) }
        ensures none { IfOk result (λ c. c ≡ None) }
        ensures unopened { StaysUnopenedFrom D.operations self.now Question.Report result }
    {
        if self.book.tickets.is_full() {
            Err(AskError::Full)
        } else {
            Ok(None)
        }
    }
}

impl<D: Domain> Session<D> {
    /// Opens a ticket for a question, and gives its number. Nothing is computed yet.
    ///
    /// # Errors
    ///
    /// The first of these causes: the call string has more than two calls; [`AskError::Full`] where sixteen tickets are
    /// open; the program refuses the question, as [`Session::query`] says: it refuses no report. [`AskError::Memory`] when
    /// memory runs out. The session is then as it was.
    pub fn begin(&mut self, alloc: Global, question: Question) -> Result<u64, AskError>
        requires room { self.old.book.tickets.next < 2 ^ 63 }
        ensures setup { KeepsSetup self.old.engine self.new.engine }
        ensures unmoved { self.new.engine.store ≡ self.old.engine.store }
        ensures rises { self.new.book.tickets.next ≤ self.old.book.tickets.next + 1 }
        ensures opens { OpensFrom D.operations self.old self.new question result }
    {
        let course = self.parts.asked_course(alloc, &question)?;
        let number = self.parts.book.tickets.add(question, course)?;
        Ok(number)
    }

    /// Closes a ticket. It takes no memory.
    ///
    /// # Errors
    ///
    /// [`NoTicket`] exactly where no ticket of this number is open.
    pub fn cancel(&mut self, ticket: u64) -> Result<(), NoTicket>
        ensures setup { KeepsSetup self.old.engine self.new.engine }
        ensures unmoved { self.new.engine.store ≡ self.old.engine.store }
        ensures next_ticket { KeepsNextTicket self.old self.new }
        ensures cancels { CancelsFrom D.operations self.old self.new ticket result }
    {
        match self.parts.book.tickets.place_of(ticket) {
            None => Err(NoTicket),
            Some(place) => {
                self.parts.book.tickets.close(place);
                Ok(())
            }
        }
    }
}
