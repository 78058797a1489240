//! The atomic steps of the log, each with what it says.
ghost use Rattle.std.specs.Prelude.{◌≡◌, ◌≢◌, ℕ, ◌+◌, ◌<◌, ◌∷◌, ◌++◌, [], List, MatchBool, Some};
ghost use Rattle.std.specs.Prelude.{true};
ghost use mathlib.Core.List.{IsPrefix};
ghost use Rattle.logbook.specs.Pages.{nib, may_make, may_write};
ghost use Rattle.answer_log.specs.Counts.{count, first_name, first_seat, first_count};
ghost use Rattle.answer_log.specs.Groups.{group_in};
ghost use Rattle.answer_log.specs.Histories.{IsSound};
ghost use Rattle.answer_log.specs.Handles.{IsNamed};
ghost use Rattle.answer_log.specs.Logs.{In, groups_in, seats_in, top};
ghost use Rattle.answer_log.specs.declared.event.Event.{Event as Noted};
ghost use Rattle.answer_log.specs.Rules.{node_at, word_at};
ghost use Rattle.answer_log.specs.Steps.{Adds, Fits, HadRoom, NamesBelow, Same, Stays, store_of};
ghost use Rattle.answer_log.specs.declared.event.Counted.{Counted as Number};
ghost use Rattle.answer_log.specs.declared.event.Event.TheVariants.{Named, Placed};
ghost use Rattle.answer_log.specs.declared.store.Store.{Store};

use crate::event::{Counted, Event};
use crate::store::NewStore;
use crate::tally::{Back, Deal, Law, Tally};
use logbook::{Gain, Offer, Plain, Play};

/// What writes a link before its node is placed.
pub type Pen = logbook::Pen;

/// What was seen of the log.
pub type SeenLog = logbook::Seen<Event, Counted, Law>;

/// A word of the log's book.
pub type Word = logbook::Word<Event, Counted, Law>;

/// A step that trades nothing.
struct Nothing;

impl Gain<Event, Counted> for Nothing {
    ghost use base.Fml.{ftrue};

    ghost after = { λ names about counted. ftrue };
}

/// A look at a head.
struct Look;

impl Play<Event, Counted> for Look {
    ghost use Rattle.answer_log.specs.Steps.{Looks};

    ghost then = { Looks };
}

impl Plain<u64, Event, Counted> for Look {
    ghost use Rattle.std.specs.Prelude.{None};
    ghost use Rattle.answer_log.specs.declared.event.Event.TheVariants.{Asks};

    ghost ask = { λ seat. Asks seat 0 };

    ghost state = { λ seat. None };
}

/// A step along a link.
struct Follow;

impl Play<Event, Counted> for Follow {
    ghost use Rattle.answer_log.specs.Steps.{Follows};

    ghost then = { Follows };
}

impl Plain<u64, Event, Counted> for Follow {
    ghost use Rattle.std.specs.Prelude.{Some};
    ghost use Rattle.answer_log.specs.declared.event.Event.TheVariants.{Asks};

    ghost ask = { λ seat. Asks seat 0 };

    ghost state = { λ seat. Some (record { before = 0; after = 0 }) };
}

/// A node is named.
struct Claim;

impl Play<Event, Counted> for Claim {
    ghost use Rattle.answer_log.specs.Steps.{Claims};

    ghost then = { Claims };
}

impl<'a> Plain<NewStore<'a>, Event, Counted> for Claim {
    ghost use Rattle.std.specs.Prelude.{None};
    ghost use Rattle.answer_log.specs.Steps.{store_of};
    ghost use Rattle.answer_log.specs.declared.event.Event.TheVariants.{Named};

    ghost ask = { λ new_store. Named new_store.node (store_of new_store) 0 };

    ghost state = { λ new_store. None };
}

/// A try to place a node.
struct Try;

impl Play<Event, Counted> for Try {
    ghost use Rattle.answer_log.specs.Steps.{Tries};

    ghost then = { Tries };
}

impl<'a> Plain<NewStore<'a>, Event, Counted> for Try {
    ghost use Rattle.std.specs.Prelude.{None};
    ghost use Rattle.answer_log.specs.Steps.{store_of};
    ghost use Rattle.answer_log.specs.declared.event.Event.TheVariants.{Placed};

    ghost ask = { λ new_store. Placed new_store.node (store_of new_store) 0 };

    ghost state = { λ new_store. None };
}

/// The count comes back from an offer that has run.
fn settle(tally: &mut Tally, deal: Deal)
    requires { (counted : Number) × (deal.state ≡ Some counted) }
    ensures { (counted : Number) → deal.state ≡ Some counted
        → (tally.new.held ≡ true) × (tally.new.name ≡ first_name deal.names)
        × (tally.new.seat ≡ first_seat deal.about)
        × (tally.new.count ≡ counted.after) × (first_count deal.about ≡ counted.before) }
{
    tally.back(deal.into_gain());
}

/// A load of the head of a group: its node placed last, 0 where there is none. Till then the log
/// had as many events of the seat as the tally says.
pub(crate) fn top_node(
    head: &Word,
    group: u32,
    book: &mut SeenLog,
    tally: &mut Tally,
    seat: u64,
) -> u64
    requires head { head.now ≡ word_at book.old.book group }
    requires group { group < groups_in book.old.log }
    requires fits { Fits tally.old book.old.names seat }
    ensures book { (book.new.book ≡ book.old.book) × (book.new.names ≡ book.old.names) }
    ensures later { IsPrefix book.old.log book.new.log }
    ensures top { result ≡ top (groups_in book.new.log) group book.new.log }
    ensures same { Same tally.old tally.new (count seat book.new.log) }
{
    let mut deal = tally.bid::<u64, Look>(&seat);
    let found = head.load::<Look, Back>(book, &mut deal);
    settle(tally, deal);
    found
}

/// The node of its group placed before a placed node, 0 where there is none: one load of its link.
/// The log that `named` has seen names the node with that link. The store that was placed is the
/// one that was named.
pub(crate) fn node_before(link: &Word, named: &SeenLog, node: u64, book: &mut SeenLog) -> u64
    requires books { named.now.book ≡ book.old.book }
    requires named { (store : Store) × IsNamed named.now.book named.now.log node store link.now }
    requires placed { (before : List Noted) × (after : List Noted) × (store : Store) × (key : ℕ)
        × (book.old.log ≡ before ++ Placed node store key ∷ after) }
    ensures book { book.new.book ≡ book.old.book }
    ensures later { IsPrefix book.old.log book.new.log }
    ensures before { (before after : List Noted) (store : Store) (key : ℕ)
        → book.old.log ≡ before ++ Placed node store key ∷ after
        → result ≡ top (groups_in book.old.log)
        (group_in (groups_in book.old.log) store.question) before }
    ensures store { (before after : List Noted) (store placed : Store) (key : ℕ)
        → book.old.log ≡ before ++ Placed node placed key ∷ after
        → IsNamed named.now.book named.now.log node store link.now → placed ≡ store }
{
    book.learn(named);
    let mut offer: Offer<Event, Counted, Law, Nothing> = book.plain::<Nothing, u64, Follow>(&0);
    link.load::<Follow, Nothing>(book, &mut offer)
}

/// An exchange of 0 with 0 on the idle word, which makes the cell of a link, with its pen, and
/// names the node.
pub(crate) fn claim_node(
    idle: &Word,
    book: &mut SeenLog,
    tally: &mut Tally,
    place: u64,
    new_store: &NewStore<'_>,
) -> Pen
    requires idle { idle.now ≡ word_at book.old.book (groups_in book.old.log) }
    requires fits { Fits tally.old book.old.names new_store.now.seat }
    requires counted { count new_store.now.seat book.old.log ≡ tally.old.count }
    requires below { NamesBelow new_store.now.seat place book.old.log }
    requires node { new_store.now.node ≡ node_at new_store.now.seat place }
    requires seat { new_store.now.seat < seats_in book.old.log }
    ensures book { (book.new.book ≡ book.old.book) × (book.new.names ≡ book.old.names)
        × (result.book ≡ book.old.book) }
    ensures pen { (groups_in book.old.log < result.nib.key)
        × (result.nib ≡ nib may_make result.nib.key 0) }
    ensures tally { Stays tally.old tally.new × (tally.new.count ≡ tally.old.count + 1) }
    ensures adds { Adds (Named new_store.now.node (store_of new_store.now) result.nib.key)
        tally.old book.old.log book.new.log }
{
    let mut deal = tally.bid::<NewStore<'_>, Claim>(new_store);
    let mut pen = book.no_pen();
    idle.compare_exchange::<Claim, Back>(0, 0, book, &mut deal, &mut pen);
    settle(tally, deal);
    pen
}

/// An exchange of the head of a group: tries to place a node before the node `old`, which the pen
/// has written into its link.
pub(crate) fn place(
    head: &Word,
    book: &mut SeenLog,
    tally: &mut Tally,
    pen: &mut Pen,
    old: u64,
    new_store: &NewStore<'_>,
    link: &Word,
) -> bool
    requires head { head.now ≡ word_at book.old.book
        (group_in (groups_in book.old.log) new_store.now.question.now) }
    requires fits { Fits tally.old book.old.names new_store.now.seat }
    requires pen { (pen.old.book ≡ book.old.book) × (pen.old.nib.right ≡ may_write)
        × (pen.old.nib.key ≡ link.now.key)
        × (pen.old.nib.value ≡ old) }
    requires room { HadRoom (groups_in book.old.log) book.old.log old
        new_store.now.question.now }
    requires sound { IsSound (store_of new_store.now) }
    requires named { In (Named new_store.now.node (store_of new_store.now) link.now.key)
        book.old.log
        × (groups_in book.old.log < link.now.key) }
    ensures book { (book.new.book ≡ book.old.book) × (book.new.names ≡ book.old.names)
        × (pen.new.book ≡ pen.old.book) }
    ensures later { IsPrefix book.old.log book.new.log }
    ensures tally { Stays tally.old tally.new }
    ensures tried { MatchBool result
        (Adds (Placed new_store.now.node (store_of new_store.now) link.now.key)
        tally.old book.old.log book.new.log
        × (tally.new.count ≡ tally.old.count + 1))
        ((old ≢ top (groups_in book.new.log)
        (group_in (groups_in book.new.log) new_store.now.question.now) book.new.log)
        × (pen.new.nib ≡ pen.old.nib)
        × Same tally.old tally.new (count new_store.now.seat book.new.log)) }
{
    let mut deal = tally.bid::<NewStore<'_>, Try>(new_store);
    let found = head.compare_exchange::<Try, Back>(old, new_store.node, book, &mut deal, pen);
    settle(tally, deal);
    found == old
}
