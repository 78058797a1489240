//! Books of one thread, of a number of groups, each of which follows the one before it.
ghost use Rattle.answer_cache.specs.Lists.{IsListSeat};

use crate::books::book_line;
use crate::fields::moment;
use answer_cache::{ListCache, ListSeat};
use dns_answers::Moment;
use row_fields::{Fault, Output, number32, split_word};

/// The seat of the book that follows takes the place of a seat, and how many stores that book has
/// is written, or that memory was refused.
fn follow(output: &mut Output, seat: &mut ListSeat, now: Moment)
    requires { IsListSeat seat.old }
    ensures { IsListSeat seat.new }
{
    match ListCache::successor(output.alloc(), seat, now) {
        Ok((_, next)) => {
            output.push_length(next.store_count());
            output.push_line(" stores");
            *seat = next;
        }
        Err(_) => output.push_line("out of memory"),
    }
}

/// The seat of a new book of so many groups takes the place of a seat, and how many groups that
/// book has is written, or that there is no such book.
fn begin(output: &mut Output, seat: &mut ListSeat, field: &str)
    requires { IsListSeat seat.old }
    ensures { IsListSeat seat.new }
{
    let Ok(groups) = number32(field) else {
        output.fail(Fault::Form);
        return;
    };
    match ListCache::with_groups(output.alloc(), groups) {
        Some((_, next)) => {
            output.push_length(next.groups() as usize);
            output.push_line(" groups");
            *seat = next;
        }
        None => output.push_line("no book"),
    }
}

/// What a line gives.
fn list_line<R>(rt: &R, output: &mut Output, book: &ListCache, seat: &mut ListSeat, line: &str)
    requires { IsListSeat seat.old }
    ensures { IsListSeat seat.new }
{
    let (word, rest) = split_word(line);
    match (word, moment(rest)) {
        ("successor", Ok(now)) => follow(output, seat, now),
        ("successor", Err(fault)) => output.fail(fault),
        ("groups", _) => begin(output, seat, rest),
        _ => book_line(rt, output, book, seat, line),
    }
}

/// Lines of a book of one thread: after a line `groups 1024` of a new one of so many groups, and
/// after each line `successor 105` of the book that begins with what lives of it at that moment.
pub(crate) fn list_successors<R>(rt: &R, output: &mut Output, input: &str) {
    let (book, mut seat) = ListCache::new(output.alloc());
    'lines: for line in input.lines() {
        list_line(rt, output, &book, &mut seat, line);
    }
    drop(seat);
    drop(book);
}
