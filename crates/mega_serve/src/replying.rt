//! Replies to the clients that wait, in the step in which their operations are answered: their words are those that the record has.
ghost use Rattle.std.specs.Prelude.{◌≡◌, ◌≤◌, ◌++◌, ◌∷◌, [], ℕ, List, map, All, codes, decimal, option_map, OnOk};
ghost use Rattle.std.specs.List.{flat_map};
ghost use Rattle.mega_transcript.specs.declared.item.Item.TheVariants.{Answer as AnswerItem};
ghost use Rattle.mega_transcript.specs.Lines.{HasLine, line};
ghost use Rattle.mega_promises.specs.Served.{Line, Noted, answered_line, reply_line};
ghost use Rattle.mega_page.specs.Pages.{IsPage};
ghost use Rattle.mega_serve.specs.Replies.{item_reply, put_reply, waiting_of};

use crate::texts::{answer_words, refusal_text, shortened};
use crate::waiting::{Waiting, waits_for};
use mega_base::{Bytes, NoMemory, OpId};
use mega_outcome::Answer;
use mega_page::Page;
use mega_schema::Schema;
use mega_transcript::Item;
use std::alloc::Global;

/// A client is told why its object is refused.
pub(crate) fn refuse(
    page: &mut Page,
    alloc: Global,
    me: u8,
    client: u32,
    token: u64,
    kind: &[u8],
    reason: u8,
) -> Result<(), NoMemory>
    requires least { 1 ≤ me }
    requires most { me ≤ 9 }
    ensures { OnOk result ((schema : _) (lines : List Line) → IsPage schema page.old lines → IsPage schema page.new (lines ++ reply_line me client token (codes "refused" ∷ kind.now ∷ decimal reason ∷ []) ∷ [])) }
{
    let text = refusal_text(alloc, kind, reason)?;
    page.reply(alloc, me, client, token, text)?;
    Ok(())
}

/// A reply that a client is to get: of its words the first 65,000 bytes.
#[derive(Drop)]
pub(crate) struct Reply {
    pub client: u32,
    pub token: u64,
    pub words: Bytes,
}

/// The client that waits for an operation, if one does, is to get its answer, out of this line.
fn gather_answer(
    alloc: Global,
    schema: &Schema,
    one: Option<Waiting>,
    op: OpId,
    answer: &Answer,
    written: &[u8],
    replies: &mut Vec<Reply>,
) -> Result<(), NoMemory>
    requires { written.now ≡ line schema.now (AnswerItem op answer.now) }
    ensures { OnOk result ((me : ℕ) → map (put_reply me) replies.new.items ≡ map (put_reply me) replies.old.items ++ answered_line schema.now me answer.now (option_map waiting_of one)) }
{
    match one {
        Some(one) => {
            let words = answer_words(alloc, schema, op, answer, written)?;
            replies.push(Reply {
                client: one.client,
                token: one.token,
                words,
            })?;
            Ok(())
        }
        None => Ok(()),
    }
}

/// The reply that an item brings, out of its line, where it is an answer for which a client waits.
fn gather_reply(
    alloc: Global,
    schema: &Schema,
    waiting: &[Waiting],
    item: &Item,
    written: &[u8],
    replies: &mut Vec<Reply>,
) -> Result<(), NoMemory>
    requires { written.now ≡ line schema.now item.now }
    ensures { OnOk result ((me : ℕ) → map (put_reply me) replies.new.items ≡ map (put_reply me) replies.old.items ++ item_reply schema.now me (map waiting_of waiting.now) item.now) }
{
    match item {
        Item::Answer { op, answer } => {
            gather_answer(
                alloc,
                schema,
                waits_for(waiting, *op),
                *op,
                answer,
                written,
                replies,
            )?;
            Ok(())
        }
        _ => Ok(()),
    }
}

/// An item goes onto a page, and its reply is gathered from there.
fn note(
    page: &mut Page,
    alloc: Global,
    schema: &Schema,
    waiting: &[Waiting],
    item: &Item,
    replies: &mut Vec<Reply>,
) -> Result<(), NoMemory>
    requires { HasLine item.now }
    ensures lines { OnOk result ((lines : List Line) → IsPage schema.now page.old lines → IsPage schema.now page.new (lines ++ Noted item.now ∷ [])) }
    ensures replies { OnOk result ((me : ℕ) → map (put_reply me) replies.new.items ≡ map (put_reply me) replies.old.items ++ item_reply schema.now me (map waiting_of waiting.now) item.now) }
{
    let at = page.text().len();
    page.note(alloc, schema, item)?;
    let (_before, written) = page.text().split_at(at);
    gather_reply(alloc, schema, waiting, item, written, replies)?;
    Ok(())
}

/// All that a step shows goes onto a page, and the replies that it brings are gathered.
pub(crate) fn note_all(
    page: &mut Page,
    alloc: Global,
    schema: &Schema,
    waiting: &[Waiting],
    items: &[Item],
    replies: &mut Vec<Reply>,
) -> Result<(), NoMemory>
    requires { All HasLine items.now }
    ensures lines { OnOk result ((lines : List Line) → IsPage schema.now page.old lines → IsPage schema.now page.new (lines ++ map Noted items.now)) }
    ensures replies { OnOk result ((me : ℕ) → map (put_reply me) replies.new.items ≡ map (put_reply me) replies.old.items ++ flat_map (item_reply schema.now me (map waiting_of waiting.now)) items.now) }
{
    for item in items {
        note(page, alloc, schema, waiting, item, replies)?;
    }
    Ok(())
}

/// A client gets its reply.
fn give_reply(page: &mut Page, alloc: Global, me: u8, one: Reply) -> Result<(), NoMemory>
    requires least { 1 ≤ me }
    requires most { me ≤ 9 }
    ensures { OnOk result ((schema : _) (lines : List Line) → IsPage schema page.old lines → IsPage schema page.new (lines ++ put_reply me one ∷ [])) }
{
    let Reply {
        client,
        token,
        words,
    } = one;
    page.reply(alloc, me, client, token, shortened(words))?;
    Ok(())
}

/// The clients get their replies.
pub(crate) fn reply_all(
    page: &mut Page,
    alloc: Global,
    me: u8,
    replies: Vec<Reply>,
) -> Result<(), NoMemory>
    requires least { 1 ≤ me }
    requires most { me ≤ 9 }
    ensures { OnOk result ((schema : _) (lines : List Line) → IsPage schema page.old lines → IsPage schema page.new (lines ++ map (put_reply me) replies.items)) }
{
    for one in replies {
        give_reply(page, alloc, me, one)?;
    }
    Ok(())
}
