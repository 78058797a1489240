//! What became of requests.
ghost use Rattle.std.specs.Prelude.{◌≡◌, ◌≢◌, None, Some, IfErr, IfNone, IfOk, IfSome, IsSome, MatchOption, OnErr, OnOk, length, pos};
ghost use Rattle.dns_message.specs.declared.question.Question.{Question};
ghost use Rattle.rolling_resolver.specs.Rests.{KeepsAnswers, TellsOf};
ghost use Rattle.rolling_resolver.specs.Rolling.{HasNone};
ghost use Rattle.wokhleas.specs.Handles.{GoesBy, StaysBy, WhyNothing};
ghost use Rattle.wokhleas.specs.Told.{IsTold, target_told_at};
ghost use Rattle.wokhleas.specs.Told as spec;
ghost use Rattle.wokhleas.specs.Statuses.{IsRefused};

use crate::handle::Handle;
use crate::status::{DONE, Status};
use crate::told::{ToldOutcome, ToldTarget, question_of, target_at, told_outcome};
use dns_message::Question;
use rolling_resolver::RollingResolver;
use std::alloc::Global;

/// A question, in numbers.
#[repr(C)]
#[derive(Drop)]
pub struct ToldQuestion {
    /// The length of the name's text.
    pub length: usize,
    /// The type of records that is asked for.
    pub type_number: u16,
}

/// Goes to the next outcome of a resolver.
fn tell_next(resolver: &mut RollingResolver) -> Option<ToldOutcome>
    ensures told { IfSome result (λ outcome. IsTold outcome resolver.old resolver.new) }
    ensures chosen { IsSome result → TellsOf resolver.old resolver.new }
    ensures answers { KeepsAnswers resolver.old resolver.new }
    ensures unchanged { IfNone result (resolver.new ≡ resolver.old) }
    ensures none { IfNone result (HasNone resolver.old) }
{
    if !resolver.tell_next() {
        return None;
    }
    Some(told_outcome(resolver.told()?))
}

/// The next outcome of a resolver.
fn next(alloc: Global, handle: &mut Handle) -> Result<ToldOutcome, Status>
    ensures told { IfOk result
        (λ told. GoesBy (IsTold told) handle.old.held.state handle.new.held.state) }
    ensures chosen { OnOk result (GoesBy TellsOf handle.old.held.state handle.new.held.state) }
    ensures answers { StaysBy KeepsAnswers handle.old.held.state handle.new.held.state }
    ensures refused { IfErr result (WhyNothing HasNone handle.old.held.state) }
    ensures unchanged { OnErr result (handle.new.held.state ≡ handle.old.held.state) }
{
    let mut resolver = handle.take(alloc)?;
    let told = tell_next(&mut resolver);
    handle.put(resolver);
    match told {
        Some(told) => Ok(told),
        None => Err(Status::Nothing),
    }
}

/// A target of the outcome that was told last.
fn told_target(resolver: &RollingResolver, index: usize) -> Option<ToldTarget>
    ensures { result ≡ target_told_at index (Some resolver.now) }
{
    target_at(resolver.told()?, index)
}

/// A target of the outcome that was told last.
fn target(alloc: Global, handle: &mut Handle, index: usize) -> Result<ToldTarget, Status>
    ensures told { IfOk result (λ told. target_told_at index handle.old.held.state ≡ Some told) }
    ensures refused { IfErr result
        (WhyNothing (λ it. target_told_at index (Some it) ≡ None) handle.old.held.state) }
    ensures same { handle.new.held.state ≡ handle.old.held.state }
{
    let resolver = handle.take(alloc)?;
    let told = told_target(&resolver, index);
    handle.put(resolver);
    match told {
        Some(told) => Ok(told),
        None => Err(Status::Nothing),
    }
}

/// The question whose answer the outcome that was told last lacks.
fn told_question(resolver: &RollingResolver) -> Option<&Question>
    ensures { MatchOption result (spec.question_lacked (Some resolver.now) ≡ None)
        (λ question. spec.question_lacked (Some resolver.now) ≡ Some question.now) }
{
    question_of(resolver.told()?)
}

/// Writes the name that a question asks about into a buffer.
fn write_question(resolver: &RollingResolver, name: &mut [u8]) -> Result<ToldQuestion, Status>
    ensures told { IfOk result (λ told. (question : Question)
        × (spec.question_lacked (Some resolver.now) ≡ Some question)
        × spec.IsQuestionTold told name.old name.new question) }
    ensures refused { IfErr result
        (spec.WhyNoQuestion (length name.old) (Some resolver.now)) }
    ensures unchanged { OnErr result (name.new ≡ name.old) }
{
    let Some(question) = told_question(resolver) else {
        return Err(Status::Nothing);
    };
    let Ok(text) = question.name.text() else {
        return Err(Status::Memory);
    };
    let octets = text.as_str().as_bytes();
    if name.len() < octets.len() {
        return Err(Status::Room);
    }
    name[..octets.len()].copy_from_slice(octets);
    Ok(ToldQuestion {
        length: octets.len(),
        type_number: question.kind.type_number(),
    })
}

/// Writes the name that the question of the outcome that was told last asks about.
fn question(alloc: Global, handle: &mut Handle, name: &mut [u8]) -> Result<ToldQuestion, Status>
    ensures told { IfOk result (λ told. (question : Question)
        × (spec.question_lacked handle.old.held.state ≡ Some question)
        × spec.IsQuestionTold told name.old name.new question) }
    ensures refused { IfErr result
        (spec.WhyNoQuestion (length name.old) handle.old.held.state) }
    ensures unchanged { OnErr result (name.new ≡ name.old) }
    ensures same { handle.new.held.state ≡ handle.old.held.state }
{
    let resolver = handle.take(alloc)?;
    let told = write_question(&resolver, name);
    handle.put(resolver);
    told
}

/// See `c/wokhleas.h`.
#[unsafe(no_mangle)]
pub extern "C" fn wokhleas_raw_next(
    alloc: Global,
    handle: &mut Handle,
    outcome: &mut ToldOutcome,
) -> i32
    ensures told { result ≡ pos 0
        → GoesBy (IsTold outcome.new) handle.old.held.state handle.new.held.state }
    ensures chosen { result ≡ pos 0
        → GoesBy TellsOf handle.old.held.state handle.new.held.state }
    ensures refused { result ≢ pos 0
        → IsRefused (WhyNothing HasNone handle.old.held.state) result }
    ensures unchanged { result ≢ pos 0 → (handle.new.held.state ≡ handle.old.held.state)
        × (outcome.new ≡ outcome.old) }
    ensures answers { StaysBy KeepsAnswers handle.old.held.state handle.new.held.state }
{
    match next(alloc, handle) {
        Ok(told) => {
            *outcome = told;
            DONE
        }
        Err(status) => status.code(),
    }
}

/// See `c/wokhleas.h`.
#[unsafe(no_mangle)]
pub extern "C" fn wokhleas_raw_get_target(
    alloc: Global,
    handle: &mut Handle,
    index: usize,
    target_told: &mut ToldTarget,
) -> i32
    ensures told { result ≡ pos 0
        → target_told_at index handle.old.held.state ≡ Some target_told.new }
    ensures refused { result ≢ pos 0
        → IsRefused (WhyNothing (λ it. target_told_at index (Some it) ≡ None)
        handle.old.held.state) result }
    ensures unchanged { result ≢ pos 0 → target_told.new ≡ target_told.old }
    ensures same { handle.new.held.state ≡ handle.old.held.state }
{
    match target(alloc, handle, index) {
        Ok(told) => {
            *target_told = told;
            DONE
        }
        Err(status) => status.code(),
    }
}

/// See `c/wokhleas.h`.
#[unsafe(no_mangle)]
pub extern "C" fn wokhleas_raw_get_question(
    alloc: Global,
    handle: &mut Handle,
    name: &mut [u8],
    question_told: &mut ToldQuestion,
) -> i32
    ensures told { result ≡ pos 0 → (question : Question)
        × (spec.question_lacked handle.old.held.state ≡ Some question)
        × spec.IsQuestionTold question_told.new name.old name.new question }
    ensures refused { result ≢ pos 0
        → IsRefused (spec.WhyNoQuestion (length name.old) handle.old.held.state) result }
    ensures unchanged { result ≢ pos 0 → (name.new ≡ name.old)
        × (question_told.new ≡ question_told.old) }
    ensures same { handle.new.held.state ≡ handle.old.held.state }
{
    match question(alloc, handle, name) {
        Ok(told) => {
            *question_told = told;
            DONE
        }
        Err(status) => status.code(),
    }
}
