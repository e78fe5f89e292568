//! Questions to the device, as they cross to C and come back.

ghost use Rattle.std.specs.Prelude.{◌≡◌, ◌≢◌, ◌⊎◌, IfErr, OnOk, false, map, true};
ghost use Rattle.gpu_desk.specs.Calls.{IsFaultOf};
ghost use Rattle.wallthyme.specs.Layout.{answered_of};
ghost use Rattle.wallthyme.specs.Malformed.{AreAnswered, HasNoAnswer, IsAsked};
ghost use Rattle.wallthyme.specs.Status.{Denies, IsQuestionOf, status_of};

use crate::layout;
use crate::status::{ASK, BAD_ANSWER, NOT_OPEN, OK, denied, misused};
use gpu_desk::{Answered, Denial, Fault};

/// Why C's answers cannot be read.
#[derive(Clone, Copy)]
pub(crate) enum Unread {
    /// One of them, or its question, is invalid.
    Invalid,

    /// Each is valid, and host memory is exhausted.
    NoMemory,
}

/// Reads C's answers so far into `answers`, or says why it cannot. It takes memory only when there are more answers
/// than ever before.
#[inline(always)]
pub(crate) fn answers_of(
    answers: &mut Vec<Answered>,
    asked: &[layout::Question],
) -> Result<(), Unread>
    ensures answers { OnOk result (answers.new.items ≡ map answered_of asked.now) }
    ensures formed { OnOk result (AreAnswered asked.now) }
    ensures malformed { IfErr result (λ unread. ((unread ≡ Unread.Invalid) × HasNoAnswer asked.now)
        ⊎ ((unread ≡ Unread.NoMemory) × AreAnswered asked.now)) }
{
    if asked.is_empty() {
        answers.clear();
        return Ok(());
    }
    read_answers(answers, asked)
}

/// As above, for one or more answers. (It stands apart so that a call without answers does not pay for it.)
#[inline(never)]
fn read_answers(answers: &mut Vec<Answered>, asked: &[layout::Question]) -> Result<(), Unread>
    ensures answers { OnOk result (answers.new.items ≡ map answered_of asked.now) }
    ensures formed { OnOk result (AreAnswered asked.now) }
    ensures malformed { IfErr result (λ unread. ((unread ≡ Unread.Invalid) × HasNoAnswer asked.now)
        ⊎ ((unread ≡ Unread.NoMemory) × AreAnswered asked.now)) }
{
    answers.clear();
    for question in asked {
        let Some(answered) = question.to_answered() else {
            return Err(Unread::Invalid);
        };
        if answers.push(answered).is_err() {
            // An invalid one further on is reported all the same.
            return Err(if are_answered(asked) {
                Unread::NoMemory
            } else {
                Unread::Invalid
            });
        }
    }
    Ok(())
}

/// Whether each is a valid question with a valid answer.
pub(crate) fn are_answered(asked: &[layout::Question]) -> bool
    ensures each { result ≡ true → AreAnswered asked.now }
    ensures one { result ≡ false → HasNoAnswer asked.now }
{
    for question in asked {
        if question.to_answered().is_none() {
            return false;
        }
    }
    true
}

impl Unread {
    /// The status of a call whose answers cannot be read. Where only memory is missing, it is that of the first
    /// condition that the call misses, if it misses one.
    pub(crate) fn status(self, missed: Option<Fault>) -> u32
        ensures invalid { self ≡ Unread.Invalid → result ≡ BAD_ANSWER }
        ensures denied { self ≡ Unread.NoMemory → Denies (IsFaultOf missed) result }
        ensures failed { result ≢ OK }
        ensures unasked { result ≢ ASK }
        ensures is_open { result ≢ NOT_OPEN }
    {
        match self {
            Unread::Invalid => BAD_ANSWER,
            Unread::NoMemory => misused(missed.unwrap_or(Fault::NoMemory)),
        }
    }
}

/// The status of a desk's denial. For an open question it also writes the question.
pub(crate) fn denied_or_asked(denial: Denial, question: &mut layout::Question) -> u32
    ensures status { result ≡ status_of denial }
    ensures unanswered { result ≡ ASK → IsAsked question.new }
    ensures asked { result ≡ ASK → IsQuestionOf denial question.new }
    ensures kept { result ≢ ASK → question.new ≡ question.old }
    ensures failed { result ≢ OK }
    ensures is_open { result ≢ NOT_OPEN }
{
    if let Denial::Open {
        question: open,
        own,
    } = denial
    {
        *question = layout::Question::asked(open, own);
    }
    denied(denial)
}
