//! The kinds of answers whose words go on behind the first.
ghost use Rattle.std.specs.Prelude.{◌≡◌};
ghost use Rattle.mega_transcript_reader.specs.ReadingAnswers.{answer_kind_of};

use crate::kinds::is;

/// The kinds of answers whose words go on behind the first.
#[derive(Clone, Copy, Drop)]
pub(crate) enum AnswerKind {
    Committed,
    Conflict,
    Turned,
    Read,
    Found,
    Refreshed,
    LogFull,
    Nothing,
    NoHandler,
    Batch,
}

/// The kind of the answer that begins with this word, if there is one.
pub(crate) fn answer_kind_of(word: &[u8]) -> Option<AnswerKind>
    ensures { result ≡ answer_kind_of word.now }
{
    if is(word, b"committed") {
        Some(AnswerKind::Committed)
    } else if is(word, b"conflict") {
        Some(AnswerKind::Conflict)
    } else if is(word, b"turned") {
        Some(AnswerKind::Turned)
    } else if is(word, b"read") {
        Some(AnswerKind::Read)
    } else if is(word, b"found") {
        Some(AnswerKind::Found)
    } else if is(word, b"refreshed") {
        Some(AnswerKind::Refreshed)
    } else if is(word, b"logfull") {
        Some(AnswerKind::LogFull)
    } else if is(word, b"nothing") {
        Some(AnswerKind::Nothing)
    } else if is(word, b"nohandler") {
        Some(AnswerKind::NoHandler)
    } else if is(word, b"batch") {
        Some(AnswerKind::Batch)
    } else {
        None
    }
}
