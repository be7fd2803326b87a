//! Writes the counts, a line each.
ghost use Rattle.std.specs.Prelude.{◌≡◌, ◌++◌, ◌∷◌, [], List, length, take, codes, OnOk, OnErr};
ghost use Rattle.mega_transcript.specs.declared.item.Item.{Item as OnTape};
ghost use Rattle.mega_transcript.specs.Counts.{count_line, log_lines, summary_text, unsafe_word};
ghost use Rattle.mega_tally.specs.Counting.{Counts, answer_lines, tally_text};

use crate::kinds::Kinds;
use crate::longest::{Longest, prefix_sum};
use crate::tally::Tally;
use itoa::Buffer;
use mega_base::{Bytes, NoMemory};

/// Appends bytes; a refusal leaves `out`.
fn put_first(out: &mut Bytes, word: &[u8]) -> Result<(), NoMemory>
    ensures ok { OnOk result (out.new ≡ out.old ++ word.now) }
    ensures err { OnErr result (take (length out.old) out.new ≡ out.old) }
{
    out.extend_from_slice(word)
}

/// Ends a line.
fn put_end(out: &mut Bytes) -> Result<(), NoMemory>
    ensures ok { OnOk result (out.new ≡ out.old ++ 10 ∷ []) }
    ensures err { OnErr result (take (length out.old) out.new ≡ out.old) }
{
    out.push(b'\n')
}

/// Appends a line with a count.
#[tactic(auto, using(mega_base::proofs::Keeps::keeps_front))]
fn put_count(out: &mut Bytes, word: &[u8], count: u128) -> Result<(), NoMemory>
    ensures ok { OnOk result (out.new ≡ out.old ++ count_line word.now count) }
    ensures err { OnErr result (take (length out.old) out.new ≡ out.old) }
{
    let mut buffer = Buffer::new();
    put_first(out, word)?;
    put_first(out, b" ")?;
    put_first(out, buffer.format(count).as_bytes())?;
    put_end(out)
}

/// Appends how many groups were decided, and how many positions.
#[tactic(auto, using(mega_base::proofs::Keeps::keeps_front))]
fn put_logs(longest: &Longest, out: &mut Bytes) -> Result<(), NoMemory>
    ensures ok { OnOk result (out.new ≡ out.old ++ log_lines longest.now.entries) }
    ensures err { OnErr result (take (length out.old) out.new ≡ out.old) }
{
    put_count(out, b"groups", longest.len() as u128)?;
    put_count(out, b"positions", prefix_sum(longest))
}

/// Appends how many answers of each kind were given.
#[tactic(auto, using(mega_base::proofs::Keeps::keeps_front))]
fn put_answers(kinds: Kinds, out: &mut Bytes) -> Result<(), NoMemory>
    ensures ok { OnOk result (out.new ≡ out.old ++ answer_lines kinds) }
    ensures err { OnErr result (take (length out.old) out.new ≡ out.old) }
{
    put_count(out, b"committed", u128::from(kinds.committed))?;
    put_count(out, b"conflicts", u128::from(kinds.conflicts))?;
    put_count(out, b"reads", u128::from(kinds.reads))
}

fn unsafe_word(truth: bool) -> &'static [u8]
    ensures { result.now ≡ unsafe_word truth }
{
    if truth { b"yes" } else { b"no" }
}

/// Appends whether leases were unsafe.
#[tactic(auto, using(mega_base::proofs::Keeps::keeps_front))]
fn put_unsafe(is_unsafe: bool, out: &mut Bytes) -> Result<(), NoMemory>
    ensures ok { OnOk result (out.new ≡ out.old ++ (codes "unsafe" ++ 32 ∷ (unsafe_word is_unsafe ++ 10 ∷ []))) }
    ensures err { OnErr result (take (length out.old) out.new ≡ out.old) }
{
    put_first(out, b"unsafe ")?;
    put_first(out, unsafe_word(is_unsafe))?;
    put_end(out)
}

impl Tally {
    /// Appends the counts. A refusal may leave a part of them in `out`.
    #[tactic(auto, using(mega_base::proofs::Keeps::keeps_front))]
    fn put(&self, events: u64, out: &mut Bytes) -> Result<(), NoMemory>
        ensures ok { OnOk result (out.new ≡ out.old ++ tally_text self.now events) }
        ensures err { OnErr result (take (length out.old) out.new ≡ out.old) }
    {
        put_count(out, b"events", u128::from(events))?;
        put_count(out, b"messages", u128::from(self.kinds.messages))?;
        put_logs(&self.decided.longest, out)?;
        put_answers(self.kinds, out)?;
        put_unsafe(self.is_unsafe, out)
    }

    /// Appends the counts; a refusal leaves `out`.
    fn write(&self, events: u64, out: &mut Bytes) -> Result<(), NoMemory>
        ensures ok { OnOk result (out.new ≡ out.old ++ tally_text self.now events) }
        ensures err { OnErr result (out.new ≡ out.old) }
    {
        let before = out.len();
        if let Err(refused) = self.put(events, out) {
            out.truncate(before);
            return Err(refused);
        }
        Ok(())
    }

    /// Appends the eight counts, a line each: events, of which there were so many, messages, groups with a decided position 1,
    /// positions of their longest decided prefixes, answers `committed`, `conflict` and `read`, and whether leases were unsafe. A
    /// refusal leaves `out`.
    pub fn tell(&self, events: u64, out: &mut Bytes) -> Result<(), NoMemory>
        ensures ok { OnOk result ((items : List OnTape) → Counts self.now items → out.new ≡ out.old ++ summary_text items events) }
        ensures err { OnErr result (out.new ≡ out.old) }
    {
        match self.write(events, out) {
            Ok(()) => Ok(()),
            Err(refused) => Err(refused),
        }
    }
}
