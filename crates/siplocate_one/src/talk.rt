//! One request and the replies to its questions.
ghost use Rattle.std.specs.Prelude.{◌≡◌, ◌≤◌, [], Some, IfErr, IfOk, OnOk, MatchResult};
ghost use Rattle.dns_message.specs.declared.message.Message as message;
ghost use Rattle.sip_selection.specs.Known as known;
ghost use Rattle.sip_selection.specs.Selections.{given_too, now_of};
ghost use Rattle.siplocate_one.specs.Replies.{IsFault, ReplyLine};
ghost use Rattle.siplocate_one.specs.Takings.{IsGiven, IsRefusedAs, IsTaken};
ghost use Rattle.siplocate_one.specs.Talks as spec;
ghost use Rattle.siplocate_one.specs.Words as words;
ghost use Rattle.std.specs.String.{string_bytes};

use crate::caller::{own_caps, own_words};
use crate::output::{shown, status_of};
use crate::reply::{BadReply, octets_of};
use answer_cache::{ListCache, ListSeat};
use dns_answers::Moment;
use sip_locator::{Locator, law_messages_decide};
use sip_selection::{Families, Request, law_questions_are_missing};
use std::alloc::{AllocError, Global};
use std::marker::Model;
use std::sync::Wait;

/// The locator of one request, with a book of its own.
#[derive(Drop)]
pub(crate) struct Talk {
    locator: Locator<ListCache>,
    book: ListCache,
    seat: ListSeat,
}

impl Model for Talk {
    ghost use Rattle.sip_selection.specs.Selections.{SelectionValue};
    ghost use Rattle.siplocate_one.specs.Books.{BookFits};

    ghost Value = { SelectionValue };

    ghost view = { λ it. it.locator };

    ghost invariant = { λ it. BookFits it.locator.given it.seat };
}

/// The one moment of the program.
fn moment() -> Moment
    ensures { result ≡ 0 }
{
    Moment::new(0).unwrap()
}

impl Talk {
    /// The talk of a request, over the program's transports and random words, before any reply.
    pub(crate) fn new(
        alloc: Global,
        families: Families,
        request: Request,
    ) -> Result<Talk, AllocError>
        ensures { IfOk result (λ it. it ≡ spec.selected families request []) }
    {
        let (book, seat) = ListCache::new(alloc);
        Ok(Talk {
            locator: Locator::new(alloc, request, own_caps(families), own_words(1))?,
            book,
            seat,
        })
    }

    /// The lines of what is next for the request, and their exit status.
    pub(crate) fn told(self, alloc: Global) -> Result<(String, u8), AllocError>
        ensures told { IfOk result (λ told. (string_bytes told.0 ≡ words.shown (now_of self))
            × (told.1 ≡ words.status_of (now_of self))) }
        ensures range { IfOk result (λ told. told.1 ≤ 5) }
    {
        law_questions_are_missing();
        let Talk {
            mut locator,
            book,
            mut seat,
        } = self;
        let next = locator.step(&book, &mut seat, moment())?;
        Ok((shown(alloc, next)?, status_of(next)))
    }

    /// Takes the octets of a reply to the question that is needed.
    fn answer<R: Wait>(&mut self, rt: &R, octets: &[u8]) -> Result<(), BadReply>
        ensures given { OnOk result (IsGiven self.old self.new octets.now) }
        ensures refused { IfErr result (IsRefusedAs self.old octets.now) }
    {
        self.locator
            .reply(rt, &self.book, &mut self.seat, moment(), octets)?;
        Ok(())
    }

    /// Takes the answer of a line to the question that is needed next.
    pub(crate) fn take<R: Wait>(
        &mut self,
        rt: &R,
        alloc: Global,
        line: &str,
    ) -> Result<(), BadReply>
        ensures taken { OnOk result (IsTaken self.old self.new line.now) }
        ensures read { (found : message.Message) (more : known.Given) → ReplyLine line.now found
            → spec.told (now_of self.old) found ≡ Some more
            → MatchResult result (λ _. self.new ≡ given_too self.old more.question more.answer)
            (λ reply. reply ≡ BadReply.Memory) }
        // What is wrong with a line is its first fault.
        ensures bad { IfErr result (λ reply. IsFault reply (now_of self.old) line.now) }
    {
        law_messages_decide();
        let octets = octets_of(alloc, line)?;
        self.answer(rt, &octets)
    }
}
