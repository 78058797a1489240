//! Calls of `pending_list`, of characters.
use crate::fields::keep;
use crate::shown::push_debug;
use pending_list::{PendingId, PendingList};
use row_fields::{Fault, Output, count, first_line, number64, split_word};
use std::alloc::Global;

/// What a call gives for a row's lines.
pub(crate) fn told(output: &mut Output, call: &str, input: &str) -> Result<(), Fault> {
    match call {
        "steps" => steps(output, input),
        _ => Err(Fault::Call),
    }
}

/// A list of a limit and with a first serial.
fn new_list(alloc: Global, limit: usize, serial: u64) -> Result<PendingList<char>, Fault> {
    if limit < 1 || limit > 256 {
        return Err(Fault::Form);
    }
    Ok(PendingList::new(alloc, limit, serial)?)
}

/// The list of a line: its limit, and its first serial.
fn list(alloc: Global, line: &str) -> Result<PendingList<char>, Fault> {
    let (limit, serial) = split_word(line);
    new_list(alloc, count(limit)?, number64(serial)?)
}

/// An item: the one character of a field.
fn item(field: &str) -> Result<char, Fault> {
    field.chars().next().ok_or(Fault::Form)
}

/// The id at a place among all that the list gave.
fn id_at(ids: &[PendingId], place: &str) -> Result<PendingId, Fault> {
    let place = count(place)?;
    ids.get(place).copied().ok_or(Fault::Form)
}

/// Writes an item, or `none`.
fn push_item(output: &mut Output, item: Option<char>) {
    match item {
        Some(item) => output.push_char(item),
        None => output.push("none"),
    }
}

/// Keeps an id, and writes that its item is taken.
fn push_taken(output: &mut Output, ids: &mut Vec<PendingId>, id: PendingId) {
    output.end(keep(ids, id));
    output.push("taken");
}

/// Inserts the item and the deadline of a line, and writes whether it is taken, or why not and what
/// came back.
fn insert(
    output: &mut Output,
    list: &mut PendingList<char>,
    ids: &mut Vec<PendingId>,
    line: &str,
) -> Result<(), Fault> {
    let (one, deadline) = split_word(line);
    let deadline = number64(deadline)?;
    let item = item(one)?;
    match list.insert(deadline, item) {
        Ok(id) => push_taken(output, ids, id),
        Err((item, refusal)) => {
            push_debug(output, &refusal);
            output.push(" ");
            output.push_char(item);
        }
    }
    Ok(())
}

/// Sets the item at a place, and writes whether it was there.
fn set(
    output: &mut Output,
    list: &mut PendingList<char>,
    ids: &[PendingId],
    line: &str,
) -> Result<(), Fault> {
    let (place, one) = split_word(line);
    let item = item(one)?;
    match list.get_mut(id_at(ids, place)?) {
        Some(slot) => {
            *slot = item;
            output.push("set");
        }
        None => output.push("none"),
    }
    Ok(())
}

/// Moves the entry at a place to a deadline, and writes whether it was there.
fn move_to(
    output: &mut Output,
    list: &mut PendingList<char>,
    ids: &[PendingId],
    line: &str,
) -> Result<(), Fault> {
    let (place, deadline) = split_word(line);
    let id = id_at(ids, place)?;
    let is_moved = list.move_to(id, number64(deadline)?);
    output.push(if is_moved { "moved" } else { "none" });
    Ok(())
}

/// Takes the entry that is due at a moment out, and writes its item.
fn pop_due(output: &mut Output, list: &mut PendingList<char>, now: u64) {
    match list.pop_due(now) {
        Some((_, _, item)) => output.push_char(item),
        None => output.push("none"),
    }
}

/// Does the step of a line, and writes what it gives.
fn step(
    output: &mut Output,
    list: &mut PendingList<char>,
    ids: &mut Vec<PendingId>,
    line: &str,
) -> Result<(), Fault> {
    let (word, rest) = split_word(line);
    match word {
        "insert" => return insert(output, list, ids, rest),
        "remove" => push_item(output, list.remove(id_at(ids, rest)?)),
        "move" => return move_to(output, list, ids, rest),
        "due" => pop_due(output, list, number64(rest)?),
        "get" => push_item(output, list.get(id_at(ids, rest)?).copied()),
        "set" => return set(output, list, ids, rest),
        "can" => push_debug(output, &list.can_insert()),
        _ => return Err(Fault::Form),
    }
    Ok(())
}

/// Writes how many entries there are.
fn push_size(output: &mut Output, list: &PendingList<char>) {
    if list.is_empty() {
        output.push("; empty");
    } else {
        output.push("; ");
        output.push_length(list.len());
    }
}

/// Writes the first deadline, where there is one.
fn push_first(output: &mut Output, list: &PendingList<char>) {
    if let Some((_, deadline)) = list.first() {
        output.push(" from ");
        output.push_number(deadline);
    }
}

/// Writes an entry.
fn push_entry(output: &mut Output, item: char, deadline: u64) {
    output.push(", ");
    output.push_char(item);
    output.push(" ");
    output.push_number(deadline);
}

/// Writes the entries of a list.
fn push_list(output: &mut Output, list: &PendingList<char>) {
    push_size(output, list);
    push_first(output, list);
    for (_, deadline, item) in list.walk() {
        push_entry(output, *item, deadline);
    }
    output.push("\n");
}

/// Does the steps of lines, and writes what each gives, and what is in the list then.
fn play(output: &mut Output, list: &mut PendingList<char>, lines: &str) -> Result<(), Fault> {
    let mut ids = Vec::new(output.alloc());
    for line in lines.lines() {
        step(output, list, &mut ids, line)?;
        push_list(output, list);
    }
    Ok(())
}

/// A line with the limit and the first serial of a list, and lines with steps, give what each step
/// gives, and what is in the list then.
fn steps(output: &mut Output, input: &str) -> Result<(), Fault> {
    let (first, lines) = first_line(input)?;
    let mut list = list(output.alloc(), first)?;
    play(output, &mut list, lines)
}
