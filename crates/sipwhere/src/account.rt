//! How the targets of a text came about.
ghost use Rattle.std.specs.Prelude.{◌≡◌, ◌≢◌, ◌↔◌, ◌<◌, ◌++◌, ◌∷◌, [], length, set, slice_get, IfOk, IfSome, IsTrue, None, OnOk, Some};
ghost use Rattle.std.specs.List.{Contains};
ghost use Rattle.answer_cache.specs.Seats.{GoesOn, StoresNothing};
ghost use Rattle.sip_report.specs.declared.account.FirstCount.{FirstCount};
ghost use Rattle.sip_report.specs.declared.line_outcome.LineOutcome.TheVariants as outcomes;
ghost use Rattle.sipwhere.specs.Accounts as spec;
ghost use Rattle.sipwhere.specs.Accounts.{IsAccount, IsAccountOfText, IsDraw, AreDraws};

use crate::destination::law_one_destination_of_a_text;
use crate::locate_settings::LocateSettings;
use crate::submitted_lines::located_of;
use answer_cache::AnswerBook;
use dns_answers::Moment;
use resolution_paths::paths_of;
use sip_locator::{BookAt, Located, locate};
use sip_report::{Account, FirstCount, LineOutcome};
use sip_selection::{Request, RequestView, Target};
use srv_choice::RandomWords;
use std::alloc::{AllocError, Global};
use std::net::SocketAddr;

/// The number of the words of the first draw that is counted. Those of lines are far below it.
const FIRST_DRAW: u64 = 1 << 63;

/// An account of nothing.
pub fn no_account(alloc: Global) -> Account
    ensures { spec.IsEmpty result }
{
    Account {
        paths: Vec::new(alloc),
        draws: 0,
        firsts: Vec::new(alloc),
        server: None,
    }
}

/// Whether this is the target that was counted.
fn is_of(first: &FirstCount, target: Target) -> bool
    ensures { IsTrue result ↔ (first.now.target ≡ target) }
{
    first.target == target
}

/// The place of a target among those that were counted.
fn place_of(firsts: &[FirstCount], target: Target) -> Option<usize>
    ensures inside { IfSome result (λ place. place < length firsts.now) }
    ensures found { IfSome result (λ place. (it : FirstCount) → slice_get firsts.now place ≡ Some it
        → it.target ≡ target) }
    ensures none { result ≡ None → Contains (spec.targets_of firsts.now) target → ⊥ }
{
    'firsts: for (place, first) in firsts.iter().enumerate() {
        if is_of(first, target) {
            return Some(place);
        }
    }
    None
}

/// Counts the target at a place once more, up to `u32::MAX`.
fn count_at(firsts: &mut Vec<FirstCount>, place: usize)
    requires inside { place < length firsts.old.items }
    ensures { (it : FirstCount) → slice_get firsts.old.items place ≡ Some it
        → firsts.new.items ≡ set firsts.old.items place (spec.once_more it) }
{
    let FirstCount { target, times } = firsts[place];
    let times = times.saturating_add(1);
    firsts[place] = FirstCount { target, times };
}

/// Counts a target for the first time.
fn count_new(firsts: &mut Vec<FirstCount>, target: Target) -> Result<(), AllocError>
    ensures { OnOk result (firsts.new.items ≡ firsts.old.items ++ spec.once target ∷ []) }
{
    firsts.push(FirstCount { target, times: 1 })?;
    Ok(())
}

/// Counts a target that came first once more.
fn count_first(firsts: &mut Vec<FirstCount>, target: Target) -> Result<(), AllocError>
    ensures { OnOk result (spec.IsCounted target firsts.old.items firsts.new.items) }
{
    match place_of(firsts.as_slice(), target) {
        Some(place) => {
            count_at(firsts, place);
            Ok(())
        }
        None => count_new(firsts, target),
    }
}

/// Draws the order of the targets of a request once, and counts which one comes first.
fn draw_once<B: AnswerBook>(
    alloc: Global,
    at: &BookAt<'_, B>,
    seat: &mut B::Seat,
    request: &Request,
    settings: &LocateSettings,
    draw: u32,
    firsts: &mut Vec<FirstCount>,
) -> Result<(), AllocError>
    requires made_here { B.belongs at.now.book.now seat.old }
    ensures stays { B.belongs at.entry.now.book.now seat.new }
    ensures goes_on { GoesOn (B.shown seat.old) (B.shown seat.new) }
    ensures stores_nothing { StoresNothing (B.shown seat.old) (B.shown seat.new) }
    ensures draws { OnOk result (IsDraw request.now settings.now at.entry.now.now
        (B.shown seat.old).seen (B.shown seat.new).seen draw firsts.old.items firsts.new.items) }
{
    let words = RandomWords::Drawn {
        key: settings.key,
        number: FIRST_DRAW + u64::from(draw),
    };
    let view = RequestView::Read(request);
    match locate(alloc, at.book, seat, &view, &settings.caps, &words, at.now)? {
        Located::Targets(targets) => match targets.first() {
            Some(target) => count_first(firsts, *target),
            None => Ok(()),
        },
        Located::Refused(_) => Ok(()),
        Located::Missing(_) => Ok(()),
    }
}

/// How often each target of a request comes first, in so many draws as the settings ask for.
fn firsts_of<B: AnswerBook>(
    alloc: Global,
    at: &BookAt<'_, B>,
    seat: &mut B::Seat,
    request: &Request,
    settings: &LocateSettings,
) -> Result<Vec<FirstCount>, AllocError>
    requires made_here { B.belongs at.now.book.now seat.old }
    ensures stays { B.belongs at.entry.now.book.now seat.new }
    ensures goes_on { GoesOn (B.shown seat.old) (B.shown seat.new) }
    ensures stores_nothing { StoresNothing (B.shown seat.old) (B.shown seat.new) }
    ensures draws { IfOk result (λ firsts. AreDraws request.now settings.now at.entry.now.now
        (B.shown seat.old).seen (B.shown seat.new).seen settings.now.draws firsts.items) }
{
    let mut firsts = Vec::new(alloc);
    'draws: for draw in 0..settings.draws {
        draw_once(alloc, at, seat, request, settings, draw, &mut firsts)?;
    }
    Ok(firsts)
}

/// How the targets of a request came about, by what a book has at a moment. The server counts only
/// where the host is a name, so that there is a path.
fn account_for<B: AnswerBook>(
    alloc: Global,
    book: &B,
    seat: &mut B::Seat,
    settings: &LocateSettings,
    request: &Request,
    now: Moment,
    server: Option<SocketAddr>,
) -> Result<Account, AllocError>
    requires made_here { B.belongs book.now seat.old }
    ensures stays { B.belongs book.now seat.new }
    ensures goes_on { GoesOn (B.shown seat.old) (B.shown seat.new) }
    ensures stores_nothing { StoresNothing (B.shown seat.old) (B.shown seat.new) }
    ensures account { IfOk result
        (IsAccount (B.shown seat.old) (B.shown seat.new) settings.now now request.now) }
    ensures server { IfOk result (λ it. it.server ≡ spec.server_for it.paths.items server) }
{
    let at = BookAt { book, now };
    let paths = paths_of(alloc, &at, seat, request)?;
    let firsts = firsts_of(alloc, &at, seat, request, settings)?;
    let server = if paths.is_empty() { None } else { server };
    Ok(Account {
        paths,
        draws: settings.draws,
        firsts,
        server,
    })
}

/// The account of a text for which no request is located, as this became of it.
fn account_without(alloc: Global, line_outcome: &LineOutcome) -> Result<Account, AllocError>
    ensures empty { IfOk result spec.IsEmpty }
    ensures memory { OnOk result (line_outcome.now ≢ outcomes.Memory) }
{
    match line_outcome {
        LineOutcome::Memory => Err(AllocError),
        _ => Ok(no_account(alloc)),
    }
}

/// How the targets of a text came about, by what a book has at a moment. Where its target is named
/// by its Via, or it has none, nothing is looked up.
pub fn account_of<B: AnswerBook>(
    alloc: Global,
    book: &B,
    seat: &mut B::Seat,
    settings: &LocateSettings,
    text: &str,
    now: Moment,
    server: Option<SocketAddr>,
) -> Result<Account, AllocError>
    requires made_here { B.belongs book.now seat.old }
    ensures stays { B.belongs book.now seat.new }
    ensures goes_on { GoesOn (B.shown seat.old) (B.shown seat.new) }
    ensures stores_nothing { StoresNothing (B.shown seat.old) (B.shown seat.new) }
    ensures account { IfOk result
        (IsAccountOfText (B.shown seat.old) (B.shown seat.new) settings.now now text.now) }
    ensures server { IfOk result (λ it. it.server ≡ spec.server_for it.paths.items server) }
{
    law_one_destination_of_a_text();
    match located_of(alloc, settings, text) {
        Ok(request) => account_for(alloc, book, seat, settings, &request, now, server),
        Err(line_outcome) => account_without(alloc, &line_outcome),
    }
}
