//! A resolver core over a book of its own.
ghost use Rattle.std.specs.Prelude.{◌≡◌, [], ℕ, ◌+◌, ◌↔◌, ◌<◌, ◌≤◌, ⊤, IfErr, IfNone, IfOk, IfSome, IsTrue, OnErr, OnOk, length, take};
ghost use Rattle.std.specs.Bool.{OnFalse};
ghost use Rattle.std.specs.List.{Contains};
ghost use Rattle.answer_cache.specs.Lists.{IsGroupCount, IsListSeat, seat_at};
ghost use Rattle.sip_resolver.specs.Cancels.{requests_without};
ghost use Rattle.sip_resolver.specs.Expiries.{timeouts_of};
ghost use Rattle.sip_resolver.specs.Questions.{IsLeast, count_out};
ghost use Rattle.sip_resolver.specs.Outcomes.{Sought};
ghost use Rattle.sip_resolver.specs.Requests.{AreSame, Stand, count_of, numbers_of};
ghost use Rattle.sip_resolver.specs.Resolvers.{HasRoomFor, RefusesSubmit, with_request};
ghost use Rattle.srv_choice.specs.Draws.{words_of};
ghost use Rattle.rolling_resolver.specs.Inside.{weight_of, weight_with};
ghost use Rattle.rolling_resolver.specs.Rolling.{CarriesOn, GivesUp, Holds, IsMark, IsOutOf, IsQuiet, IsWritten, Learns, MayWantOver, TakesOut, begun_generation, other_mark};

use crate::instant::Instant;
use answer_cache::{ListCache, ListSeat};
use dns_answers::Moment;
use rand_chacha::ChaCha20Rng;
use sip_resolver::{
    DnsTransport, Ids, Limits, NoFacts, RandomIds, ReplyOutcome, Resolved, Resolver, SubmitRefusal,
    random_ids,
};
use sip_selection::{Caps, Request};
use srv_choice::RandomWords;
use std::alloc::{AllocError, Global};
use std::marker::Model;

/// What draws the ids of queries.
pub type QueryIds = RandomIds<ChaCha20Rng>;

/// The resolver core over the book of one thread.
type Core = Resolver<ListCache, NoFacts, QueryIds>;

/// A request that ended, with what became of it.
pub type Ended = Resolved<ListCache>;

/// With so many answers for each group of its book a generation is left: of groups of 128 hardly
/// one is full by then.
const ANSWERS: usize = 96;

/// Where no more answers than these live for each group, the generation after it begins with them.
const CARRIED: usize = 64;

/// How many ids of queries there are.
const IDS: u32 = 65_536;

/// A message that was written into a buffer.
#[derive(Clone, Copy)]
pub struct Sent {
    /// So many octets it has.
    pub length: usize,
    /// What names its query for `give_up`: the mark of its generation, and its id.
    pub query: u32,
    /// Over what it goes.
    pub over: DnsTransport,
    /// Which send of its question it is, from 1 on.
    pub send: u8,
}

/// A resolver core with its book.
#[derive(Drop)]
pub(crate) struct Generation {
    core: Core,
    book: ListCache,
    seat: ListSeat,
    /// How many answers the book has at most: those that it began with, and one for each reply.
    answers: usize,
    /// The second of the last reply, if one came.
    heard: Option<Moment>,
    /// What sets the names of its queries apart from those of the next generation: 0 or `IDS`.
    mark: u32,
}

impl Model for Generation {
    ghost use Rattle.rolling_resolver.specs.Rolling.{GenerationView, Holds, IsMark};

    ghost Value = { GenerationView };

    ghost view = { λ it. record { core = it.core; seat = it.seat; mark = it.mark } };

    ghost invariant = { λ it. Holds it.seat it.core × IsMark it.mark };
}

/// An empty book of so many groups, and its seat.
fn empty_book(alloc: Global, groups: u32) -> (ListCache, ListSeat)
    requires { IsGroupCount groups }
    ensures seat { result.1 ≡ seat_at groups [] [] }
    ensures is { IsListSeat result.1 }
{
    ListCache::with_groups(alloc, groups).unwrap()
}

impl Generation {
    /// The first one, in which no request is, over an empty book of so many groups. The ids of its
    /// queries come of this seed.
    pub(crate) fn first(
        alloc: Global,
        limits: Limits,
        groups: u32,
        seed: [u8; 32],
    ) -> Result<Generation, AllocError>
        requires requests { (1 ≤ limits.requests) × (limits.requests ≤ 65536) }
        requires questions { (1 ≤ limits.questions) × (limits.questions ≤ 4096) }
        requires groups { IsGroupCount groups }
        ensures { IfOk result (λ it. it ≡ begun_generation groups limits) }
    {
        let books = empty_book(alloc, groups);
        let core = Resolver::new(alloc, limits, random_ids(seed, 0))?;
        Ok(Generation::over(core, books, 0))
    }

    /// A core over this book, with this mark.
    fn over(core: Core, books: (ListCache, ListSeat), mark: u32) -> Generation
        requires holds { Holds books.1 core }
        requires mark { IsMark mark }
        ensures { result ≡ record { core = core; seat = books.1; mark = mark } }
    {
        let (book, seat) = books;
        Generation {
            core,
            book,
            answers: seat.store_count(),
            seat,
            heard: None,
            mark,
        }
    }

    /// The one that comes after it, in which no request is. Its book has the answers of this one
    /// that lived at the last reply, if they are not too many.
    pub(crate) fn successor(
        &self,
        alloc: Global,
        limits: Limits,
        seed: [u8; 32],
        number: u64,
    ) -> Result<Generation, AllocError>
        requires requests { (1 ≤ limits.requests) × (limits.requests ≤ 65536) }
        requires questions { (1 ≤ limits.questions) × (limits.questions ≤ 4096) }
        ensures core { IfOk result
            (λ it. it.core ≡ (begun_generation self.now.seat.groups limits).core) }
        ensures seat { IfOk result (λ it. CarriesOn self.now.seat it.seat) }
        ensures back { IfOk result (λ it. self.now.mark ≡ other_mark it.mark) }
    {
        let books = self.book_after(alloc)?;
        let core = Resolver::new(alloc, limits, random_ids(seed, number))?;
        Ok(Generation::over(core, books, IDS - self.mark))
    }

    /// The book of the one that comes after it.
    fn book_after(&self, alloc: Global) -> Result<(ListCache, ListSeat), AllocError>
        ensures seated { IfOk result (λ it. IsListSeat it.1) }
        ensures groups { IfOk result (λ it. IsGroupCount it.1.groups) }
        ensures seat { IfOk result (λ it. CarriesOn self.now.seat it.1) }
    {
        let groups = self.seat.groups();
        let Some(heard) = self.heard else {
            return Ok(empty_book(alloc, groups));
        };
        let (book, seat) = ListCache::successor(alloc, &self.seat, heard)?;
        if seat.store_count() > CARRIED * groups as usize {
            return Ok(empty_book(alloc, groups));
        }
        Ok((book, seat))
    }

    /// Whether its book may soon be full.
    pub(crate) fn is_old(&self) -> bool {
        self.answers >= ANSWERS * self.seat.groups() as usize
    }

    /// Whether no request is inside, also none whose outcome was not taken.
    pub(crate) fn is_empty(&self) -> bool
        ensures { IsTrue result ↔ (count_of self.now.core.requests ≡ 0) }
    {
        self.core.is_empty()
    }

    /// How many requests are inside, also those whose outcome was not taken.
    pub(crate) fn request_count(&self) -> usize
        ensures is { result ≡ count_of self.now.core.requests }
        ensures few { result ≤ 65536 }
    {
        self.core.request_count()
    }

    /// How many questions are out.
    pub(crate) fn question_count(&self) -> usize
        ensures is { result ≡ count_out self.now.core.questions }
        ensures few { result ≤ 8192 }
    {
        self.core.question_count()
    }

    /// How many answers its book has, also those that live no longer.
    pub(crate) fn answer_count(&self) -> usize
        ensures { result ≡ length self.now.seat.seen }
    {
        self.seat.store_count()
    }

    /// Whether a request of this number is inside.
    pub(crate) fn has(&self, number: u64) -> bool
        ensures { IsTrue result ↔ Contains (numbers_of self.now.core.requests) number }
    {
        self.core.has(number)
    }

    /// Takes a request in.
    pub(crate) fn submit(
        &mut self,
        number: u64,
        request: Request,
        caps: Caps,
        words: &RandomWords<'_>,
        until: Option<Moment>,
    ) -> Result<(), SubmitRefusal>
        ensures submitted { OnOk result (self.new ≡ record self.old {
          core = with_request number request caps (words_of words.now) until self.old.core;
        }) }
        ensures room { OnOk result (HasRoomFor self.old.core number) }
        ensures refused { IfErr result (RefusesSubmit self.old.core number) }
        ensures unchanged { OnErr result (self.new ≡ self.old) }
    {
        self.core.submit(number, request, caps, words, until)
    }

    /// Cancels the request of this number, and says whether there was one.
    pub(crate) fn cancel(&mut self, number: u64) -> bool
        ensures found { IsTrue result ↔ Contains (numbers_of self.old.core.requests) number }
        ensures requests { self.new.core.requests
            ≡ requests_without number self.old.core.requests }
        ensures gone { Contains (numbers_of self.new.core.requests) number → ⊥ }
        ensures kept { (h : Sought → ℕ) → weight_of h self.old
            ≡ weight_of h self.new + weight_with h number self.old }
        ensures others { self.new ≡ record self.old { core = self.new.core } }
        ensures unchanged { OnFalse result (self.new ≡ self.old) }
    {
        self.core.cancel(number)
    }

    /// Writes what is to be sent next into a buffer, if it has room for it.
    pub(crate) fn transmit(&mut self, at: &Instant, octets: &mut [u8]) -> Option<Sent>
        ensures written { IfSome result (λ sent. IsWritten sent octets.new self.new) }
        ensures quiet { IfNone result (IsQuiet ⟦<QueryIds as Ids>⟧.draws at.now.second
            (length octets.old) self.new) }
        ensures same { AreSame self.old.core.requests self.new.core.requests }
        ensures others { self.new ≡ record self.old { core = self.new.core } }
    {
        let mark = self.mark;
        transmit(&mut self.core, &self.book, &mut self.seat, at, mark, octets)
    }

    /// Takes octets that came in.
    pub(crate) fn receive(
        &mut self,
        at: &Instant,
        over: DnsTransport,
        octets: &[u8],
    ) -> Result<ReplyOutcome, AllocError>
        ensures learns { IfOk result
            (λ heard. Learns over octets.now at.now.second heard self.old self.new) }
        ensures same { AreSame self.old.core.requests self.new.core.requests }
        ensures unchanged { OnErr result (self.new ≡ self.old) }
        ensures wanted { OnErr result (MayWantOver over octets.now self.old) }
    {
        let heard = self
            .core
            .handle(&(), &self.book, &mut self.seat, at.second, over, octets)?;
        if heard == ReplyOutcome::Reply {
            self.answers = self.answers.saturating_add(1);
            self.heard = Some(at.second);
        }
        Ok(heard)
    }

    /// Ends the wait for the reply to the question of this query, which no server takes, and says
    /// whether it was out.
    pub(crate) fn give_up(&mut self, query: u32) -> bool
        ensures found { IsTrue result → GivesUp query self.old self.new }
        ensures none { OnFalse result (IsOutOf query self.old → ⊥) }
        ensures same { AreSame self.old.core.requests self.new.core.requests }
        ensures others { self.new ≡ record self.old { core = self.new.core } }
        ensures unchanged { OnFalse result (self.new ≡ self.old) }
    {
        if query < self.mark || query - self.mark >= IDS {
            return false;
        }
        self.core.close((query - self.mark) as u16)
    }

    /// The second at which there is something to do next, if nothing else happens.
    pub(crate) fn deadline(&self) -> Option<u64>
        ensures { IsLeast (timeouts_of self.now.core.requests self.now.core.questions) result }
    {
        self.core.next_timeout()
    }

    /// The next request that ended, with what became of it.
    pub(crate) fn next_ended(&mut self) -> Option<Ended>
        ensures taken { IfSome result (λ ended. TakesOut ended self.old self.new) }
        ensures none { IfNone result (self.new ≡ self.old) }
        ensures empty { IfNone result (self.old.core.requests.ended ≡ []) }
    {
        self.core.poll_outcome()
    }
}

/// Writes what is to be sent next into a buffer, if it has room for it.
fn transmit(
    core: &mut Core,
    book: &ListCache,
    seat: &mut ListSeat,
    at: &Instant,
    mark: u32,
    octets: &mut [u8],
) -> Option<Sent>
    requires made_here { IsListSeat seat.old }
    requires stand { Stand (λ _. ⊤) (λ _. ⊤) seat.old core.old.requests }
    requires mark { IsMark mark }
    ensures stays { IsListSeat seat.new }
    ensures stand { Stand (λ _. ⊤) (λ _. ⊤) seat.new core.new.requests }
    ensures written { IfSome result (λ sent. IsWritten sent octets.new
        (record { core = core.new; seat = seat.new; mark = mark })) }
    ensures quiet { IfNone result (IsQuiet ⟦<QueryIds as Ids>⟧.draws at.now.second
        (length octets.old) (record { core = core.new; seat = seat.new; mark = mark })) }
    ensures same { AreSame core.old.requests core.new.requests }
    ensures unchanged { seat.new ≡ seat.old }
{
    let message = core.poll_transmit(book, seat, at.second, at.asked)?;
    let length = write_into(octets, message.octets)?;
    let (over, send) = (message.over, message.send);
    let query = mark + u32::from(message.id);
    Some(Sent {
        length,
        query,
        over,
        send,
    })
}

/// Writes octets into the front of a buffer, and gives their number; None where they don't fit.
fn write_into(buffer: &mut [u8], octets: &[u8]) -> Option<usize>
    ensures written { IfSome result
        (λ n. (n ≡ length octets.now) × (take n buffer.new ≡ octets.now)) }
    ensures room { IfNone result (length buffer.old < length octets.now) }
{
    let count = octets.len();
    if buffer.len() < count {
        return None;
    }
    buffer[..count].copy_from_slice(octets);
    Some(count)
}
