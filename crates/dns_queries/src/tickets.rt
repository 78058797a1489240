//! The tickets of an asker in their list.
ghost use Rattle.std.specs.Prelude.{◌≡◌, ◌↔◌, ◌+◌, ◌<◌, ◌≤◌, [], Some, None, slice_get, IsSome, IfOk, IfSome, IsTrue, MatchOption, length};
ghost use Rattle.std.specs.List.{All, find};
ghost use Rattle.std.specs.Option.{option_map};
ghost use Rattle.pending_list.specs.Pending.{entry_of, placed, without};
ghost use Rattle.pending_list.specs.declared.entry.Entry.{Entry};
ghost use Rattle.dns_queries.specs.Events.{closed, sent_octets};
ghost use Rattle.dns_queries.specs.Listed.{Finds, IsOverdue, IsThere, Opens, ToldBy, asking_of, is_of, resent};
ghost use Rattle.dns_queries.specs.Out.{HasQuestion, LacksQuestion};
ghost use Rattle.dns_queries.specs.Tickets.{IsAsking, Sent};

use crate::id_table::IdTable;
use crate::incoming::Due;
use crate::refusal::AskRefusal;
use crate::schedule::Schedule;
use crate::ticket::Ticket;
use dns_answers::Moment;
use dns_message::{Question, law_same_questions_are_equal};
use pending_list::{InsertRefusal, PendingId, PendingList};
use std::alloc::{AllocError, Global};
use std::marker::Model;

/// What is to be done about the first ticket, since no reply came in time.
#[derive(Clone, Copy)]
pub(crate) enum Overdue {
    /// The question of the ticket at this place is sent once more.
    Again(PendingId),
    /// The question of the ticket that was closed last waits no longer.
    GivenUp,
}

/// The tickets by their deadlines, at most one of each id, the table of their places, the last one
/// that was given up, for the caller, and the schedule by which their questions are sent.
#[derive(Drop)]
pub(crate) struct Tickets {
    list: PendingList<Ticket>,
    table: IdTable,
    given_up: Option<Ticket>,
    schedule: Schedule,
}

impl Model for Tickets {
    ghost use Rattle.dns_queries.specs.TicketLists.{TicketList};

    ghost Value = { TicketList };

    ghost use Rattle.dns_queries.specs.IdTables.{place_in};
    ghost use Rattle.dns_queries.specs.Listed.{IsKept};

    ghost view = { λ it. record {
      list = it.list;
      given_up = it.given_up;
      schedule = it.schedule;
    } };

    ghost invariant = { λ it. IsKept it.schedule it.list (place_in it.table) };
}

impl Tickets {
    /// None; at most so many, numbered from the serial on.
    pub(crate) fn new(
        alloc: Global,
        limit: usize,
        serial: u64,
        schedule: Schedule,
    ) -> Result<Tickets, AllocError>
        requires some { 1 ≤ limit }
        requires few { limit ≤ 4096 }
        requires sends { (1 ≤ schedule.sends) × (schedule.sends ≤ 15) }
        requires wait { (1 ≤ schedule.wait) × (schedule.wait ≤ 60) }
        ensures none { IfOk result
            (λ it. it.list ≡ record { entries = []; limit = limit; serial = serial }) }
        ensures schedule { IfOk result (λ it. it.schedule ≡ schedule) }
    {
        Ok(Tickets {
            list: PendingList::new(alloc, limit, serial)?,
            table: IdTable::new(alloc, limit)?,
            given_up: None,
            schedule,
        })
    }

    /// What holds of them.
    pub(crate) fn law_stands_in_order(&self)
        ensures { IsAsking (asking_of self.now.schedule self.now.list) }
    {
        self.list.law_stands_in_order();
    }

    /// The place of the ticket of an id.
    pub(crate) fn pending_id_of(&self, id: u16) -> Option<PendingId>
        ensures { MatchOption result (find (is_of id) self.now.list.entries ≡ None)
            (Finds self.now.list.entries id) }
    {
        self.list.law_stands_in_order();
        self.table.get(id)
    }

    /// How many there are.
    pub(crate) fn len(&self) -> usize
        ensures { result ≡ length self.now.list.entries }
    {
        self.list.len()
    }

    /// Whether there are as many as can be.
    pub(crate) fn is_full(&self) -> bool
        ensures { IsTrue result ↔ (length self.now.list.entries ≡ self.now.list.limit) }
    {
        self.list.law_stands_in_order();
        matches!(self.list.can_insert(), Err(InsertRefusal::Full))
    }

    /// The id of the ticket of a question.
    pub(crate) fn id_of(&self, question: &Question) -> Option<u16>
        ensures { MatchOption result
            (LacksQuestion question.now (asking_of self.now.schedule self.now.list).tickets)
            (λ id. HasQuestion question.now id
            (asking_of self.now.schedule self.now.list).tickets) }
    {
        law_same_questions_are_equal();
        for (_, _, ticket) in self.list.walk() {
            if ticket.question() == question {
                return Some(ticket.id());
            }
        }
        None
    }

    /// The question of the ticket at a place.
    pub(crate) fn question_at(&self, at: PendingId) -> &Question
        requires { IsSome (entry_of at self.now.list.entries) }
        ensures { (entry : Entry Sent) → entry_of at self.now.list.entries ≡ Some entry
            → result.now ≡ entry.item.question }
    {
        match self.list.get(at) {
            Some(ticket) => ticket.question(),
            None => unreachable!(),
        }
    }

    /// How many times the question of the ticket at a place was sent.
    pub(crate) fn sends_at(&self, at: PendingId) -> u8
        requires { IsSome (entry_of at self.now.list.entries) }
        ensures { (entry : Entry Sent) → entry_of at self.now.list.entries ≡ Some entry
            → result ≡ entry.item.sends }
    {
        match self.list.get(at) {
            Some(ticket) => ticket.sends(),
            None => unreachable!(),
        }
    }

    /// Opens a ticket for a question that is sent now, and gives its place.
    pub(crate) fn open(
        &mut self,
        alloc: Global,
        question: Question,
        id: u16,
        now: Moment,
    ) -> Result<PendingId, AskRefusal>
        ensures opens { Opens self.old.list self.new.list
            (record { id = id; question = question; sends = 1 })
            (now + self.old.schedule.wait) result }
        ensures schedule { self.new.schedule ≡ self.old.schedule }
    {
        if self.pending_id_of(id).is_some() {
            return Err(AskRefusal::IdTaken);
        }
        match self.list.can_insert() {
            Ok(()) => {}
            Err(InsertRefusal::Full) => return Err(AskRefusal::Full),
            Err(InsertRefusal::SerialSpent) => return Err(AskRefusal::Spent),
            Err(InsertRefusal::Memory) => return Err(AskRefusal::Memory),
        }
        let Ok(ticket) = Ticket::new(alloc, id, question) else {
            return Err(AskRefusal::Memory);
        };
        let Ok(()) = self.table.reserve() else {
            return Err(AskRefusal::Memory);
        };
        let Ok(at) = self.list.insert(self.schedule.deadline_after(now), ticket) else {
            return Err(AskRefusal::Memory);
        };
        self.table.insert(id, at);
        Ok(at)
    }

    /// The deadline of the first ticket.
    pub(crate) fn first_deadline(&self) -> Option<u64>
        ensures first { result
            ≡ option_map (λ it. it.deadline) (slice_get self.now.list.entries 0) }
        ensures least { IfSome result
            (λ it. All (λ entry. it ≤ entry.deadline) self.now.list.entries) }
    {
        let (_, deadline) = self.list.first()?;
        Some(deadline)
    }

    /// The octets of the ticket at a place.
    pub(crate) fn octets_at(&self, at: PendingId) -> &[u8]
        requires { IsSome (entry_of at self.now.list.entries) }
        ensures { (entry : Entry Sent) → entry_of at self.now.list.entries ≡ Some entry
            → result.now ≡ sent_octets entry.item.id entry.item.question }
    {
        match self.list.get(at) {
            Some(ticket) => ticket.octets(),
            None => unreachable!(),
        }
    }

    /// Closes the ticket at a place, and gives its id and its question.
    pub(crate) fn close(&mut self, at: PendingId) -> (u16, Question)
        requires { IsSome (entry_of at self.old.list.entries) }
        ensures { (entry : Entry Sent) → entry_of at self.old.list.entries ≡ Some entry
            → (result.0 ≡ entry.item.id) × (result.1 ≡ entry.item.question)
            × (asking_of self.new.schedule self.new.list
            ≡ closed entry.item.id (asking_of self.old.schedule self.old.list)) }
    {
        match self.list.remove(at) {
            Some(ticket) => {
                let (id, question) = ticket.into_parts();
                self.table.remove(id);
                (id, question)
            }
            None => unreachable!(),
        }
    }

    /// The first ticket whose deadline is over at a moment: it is sent once more, or closed.
    pub(crate) fn take_overdue(&mut self, now: Moment) -> Option<Overdue>
        ensures overdue { IsOverdue self.old.schedule self.old.list self.new now result }
        ensures schedule { self.new.schedule ≡ self.old.schedule }
    {
        let (at, deadline) = self.list.first()?;
        if deadline > now.get() {
            return None;
        }
        self.list.law_stands_in_order();
        if may_be_sent_again(&self.list, at, self.schedule.sends) {
            send_again(&mut self.list, at, self.schedule.deadline_after(now));
            return Some(Overdue::Again(at));
        }
        let (_, _, ticket) = self.list.pop_due(now.get())?;
        self.table.remove(ticket.id());
        self.given_up = Some(ticket);
        Some(Overdue::GivenUp)
    }

    /// What is told of it.
    pub(crate) fn due_of(&self, overdue: Overdue) -> Due<'_>
        requires { IsThere self.now overdue }
        ensures { ToldBy self.now overdue result }
    {
        match overdue {
            Overdue::Again(at) => match self.list.get(at) {
                Some(ticket) => Due::Resend(ticket.id(), ticket.octets()),
                None => unreachable!(),
            },
            Overdue::GivenUp => match &self.given_up {
                Some(ticket) => Due::GaveUp(ticket.id(), ticket.question()),
                None => unreachable!(),
            },
        }
    }
}

/// Whether the ticket at a place may be sent once more, where a question is sent so many times at
/// most.
fn may_be_sent_again(list: &PendingList<Ticket>, at: PendingId, limit: u8) -> bool
    ensures { (entry : Entry Sent) → entry_of at list.now.entries ≡ Some entry
        → (IsTrue result ↔ (entry.item.sends < limit)) }
{
    match list.get(at) {
        Some(ticket) => ticket.may_be_sent_again(limit),
        None => false,
    }
}

/// Counts one send more of the ticket at a place, and gives it another deadline.
fn send_again(list: &mut PendingList<Ticket>, at: PendingId, deadline: u64)
    requires { (entry : Entry Sent) → entry_of at list.old.entries ≡ Some entry
        → entry.item.sends < 255 }
    ensures { (entry : Entry Sent) → entry_of at list.old.entries ≡ Some entry
        → (list.new ≡ record list.old {
          entries = placed (resent deadline entry) (without at list.old.entries);
        })
        × (entry_of at list.new.entries ≡ Some (resent deadline entry)) }
{
    if let Some(ticket) = list.get_mut(at) {
        ticket.send_again();
    }
    list.move_to(at, deadline);
}
