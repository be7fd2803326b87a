//! The words of replies.
ghost use Rattle.std.specs.Prelude.{◌≡◌, ◌≤◌, ◌+◌, ◌-◌, ◌++◌, ◌∷◌, [], codes, decimal, drop, length, take, ℕ, List, IfOk, OnOk};
ghost use Rattle.mega_transcript.specs.declared.item.Item.TheVariants.{Answer as AnswerItem};
ghost use Rattle.mega_transcript.specs.Answers.{answer_words};
ghost use Rattle.mega_transcript.specs.Lines.{line};
ghost use Rattle.mega_transcript.specs.Words.{op_word};
ghost use Rattle.mega_promises.specs.Served.{joined};

use mega_base::{Bytes, NoMemory, OpId};
use mega_outcome::Answer;
use mega_page::{put_digits, put_number, put_word};
use mega_schema::Schema;
use std::alloc::Global;

/// The most bytes of the text of a reply.
const MOST_BYTES: usize = 65_000;

/// Appends a dot and a number.
fn put_dotted(out: &mut Bytes, number: u64) -> Result<(), NoMemory>
    ensures { OnOk result (out.new ≡ out.old ++ 46 ∷ decimal number) }
{
    out.push(b'.')?;
    put_digits(out, number)?;
    Ok(())
}

/// What stands before the words of the answer of an operation in its line.
fn answer_head(alloc: Global, op: OpId) -> Result<Bytes, NoMemory>
    ensures { IfOk result (λ head. head ≡ codes "answer" ++ 32 ∷ (op_word op ++ 32 ∷ [])) }
{
    let mut head = Bytes::from_slice(alloc, b"answer")?;
    put_number(&mut head, u64::from(op.node.0))?;
    put_dotted(&mut head, u64::from(op.start))?;
    put_dotted(&mut head, u64::from(op.number))?;
    head.push(b' ')?;
    Ok(head)
}

/// What stands behind a head and before the last byte.
fn middle(line: &[u8], head: usize) -> &[u8]
    requires { head + 1 ≤ length line.now }
    ensures { result.now ≡ take (length line.now - head - 1) (drop head line.now) }
{
    let (_head, rest) = line.split_at(head);
    let (words, _end) = rest.split_at(rest.len() - 1);
    words
}

/// The words that stand behind a head, before the line feed.
#[tactic(auto, using(crate::proofs::Words::found_between))]
fn words_behind(alloc: Global, line: &[u8], head: &[u8]) -> Result<Bytes, NoMemory>
    requires { length head.now + 1 ≤ length line.now }
    ensures { IfOk result (λ found. (words : List ℕ) → line.now ≡ head.now ++ (words ++ 10 ∷ []) → found ≡ words) }
{
    let words = Bytes::from_slice(alloc, middle(line, head.len()))?;
    Ok(words)
}

/// Of the text of a reply the first 65,000 bytes.
#[tactic(auto, using(crate::proofs::Words::taken_short))]
pub(crate) fn shortened(text: Bytes) -> Bytes
    ensures text { result ≡ take 65000 text }
    ensures short { length result ≤ 65000 }
{
    let mut text = text;
    text.truncate(MOST_BYTES);
    text
}

/// The words of an answer, out of its line.
pub(crate) fn answer_words(
    alloc: Global,
    schema: &Schema,
    op: OpId,
    answer: &Answer,
    written: &[u8],
) -> Result<Bytes, NoMemory>
    requires { written.now ≡ line schema.now (AnswerItem op answer.now) }
    ensures { IfOk result (λ words. words ≡ joined (answer_words schema.now answer.now)) }
{
    let _schema = schema;
    let _answer = answer;
    let head = answer_head(alloc, op)?;
    let words = words_behind(alloc, written, head.as_slice())?;
    Ok(words)
}

/// Two words and a number.
#[tactic(auto, using(crate::proofs::Words::three_joined))]
fn three_words(alloc: Global, first: &[u8], second: &[u8], number: u64) -> Result<Bytes, NoMemory>
    ensures { IfOk result (λ words. words ≡ joined (first.now ∷ second.now ∷ decimal number ∷ [])) }
{
    let mut words = Bytes::from_slice(alloc, first)?;
    put_word(&mut words, second)?;
    put_number(&mut words, number)?;
    Ok(words)
}

/// The text of the reply that tells why an object is refused.
pub(crate) fn refusal_text(alloc: Global, kind: &[u8], reason: u8) -> Result<Bytes, NoMemory>
    ensures text { IfOk result (λ text. text ≡ take 65000 (joined (codes "refused" ∷ kind.now ∷ decimal reason ∷ []))) }
    ensures short { IfOk result (λ text. length text ≤ 65000) }
{
    let words = three_words(alloc, b"refused", kind, u64::from(reason))?;
    Ok(shortened(words))
}
