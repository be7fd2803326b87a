//! What one group's log entered and handled.
ghost use Rattle.std.specs.Prelude.{◌≡◌, ◌++◌, not, filter, OnOk};
ghost use Rattle.std.specs.Option.{option_copied};
ghost use Rattle.mega_entry.specs.declared.content.Enter.{Enter as EnterSeen};
ghost use Rattle.mega_rules.specs.Queues.{is_named};
ghost use Rattle.mega_queues.specs.Named.{is_known};
ghost use Rattle.mega_queues.specs.Mail.{first_of, is_left, no_mail, only_if, seen, with_entry, with_marks};

use crate::names::{Names, add_all, add_names_of, is_known};
use mega_base::{Copied, NoMemory};
use mega_entry::{Content, Enter, Name, is_same_name};
use std::alloc::Global;
use std::collections::BTreeMap;

/// What a log entered and handled, kept up entry by entry.
#[derive(Drop)]
pub struct Mailbox {
    /// The messages that were entered.
    pub entered: Names,
    /// The messages that were handled.
    pub handled: Names,
    /// The messages that were entered and not handled, the oldest first.
    pub waiting: Vec<Enter>,
}

fn is_named(name: &Name, names: &[Name]) -> bool
    ensures { result ≡ is_named name.now names.now }
{
    names.iter().any(|other| is_same_name(name, other))
}

/// Takes the messages out that are among these.
fn forget(waiting: &mut Vec<Enter>, handled: &[Name])
    ensures { waiting.new.items ≡ filter (is_left handled.now) waiting.old.items }
{
    waiting.retain(|message| !is_named(&message.name, handled));
}

/// Takes the messages out that are among these, if there are any.
fn forget_some(waiting: &mut Vec<Enter>, handled: &[Name])
    ensures { waiting.new.items ≡ filter (is_left handled.now) waiting.old.items }
{
    match handled {
        [] => {}
        [_, ..] => forget(waiting, handled),
    }
}

/// Adds the messages that are not handled.
fn await_all(
    alloc: Global,
    waiting: &mut Vec<Enter>,
    handled: &Names,
    enters: &[Enter],
) -> Result<(), NoMemory>
    ensures { OnOk result (waiting.new.items ≡ waiting.old.items ++ filter (λ (message : EnterSeen). not (is_known handled.now message.name)) enters.now) }
{
    for enter in enters {
        await_one(alloc, waiting, handled, enter)?;
    }
    Ok(())
}

fn await_one(
    alloc: Global,
    waiting: &mut Vec<Enter>,
    handled: &Names,
    enter: &Enter,
) -> Result<(), NoMemory>
    ensures { OnOk result (waiting.new.items ≡ waiting.old.items ++ only_if (not (is_known handled.now enter.now.name)) enter.now) }
{
    if is_known(handled, &enter.name) {
        return Ok(());
    }
    let enter = enter.copy(alloc)?;
    waiting.push(enter)?;
    Ok(())
}

/// The oldest of the messages that wait.
fn oldest(waiting: &[Enter]) -> Option<&Enter>
    ensures { option_copied result ≡ first_of waiting.now }
{
    match waiting {
        [] => None,
        [first, ..] => Some(first),
    }
}

impl Mailbox {
    /// Of a log with no entries.
    pub fn new(alloc: Global) -> Mailbox
        ensures { seen result ≡ no_mail }
    {
        let entered = BTreeMap::new(alloc);
        let handled = BTreeMap::new(alloc);
        let waiting = Vec::new(alloc);
        Mailbox {
            entered,
            handled,
            waiting,
        }
    }

    /// Takes in what an entry enters and handles.
    fn take_in(&mut self, alloc: Global, enters: &[Enter], handles: &[Name]) -> Result<(), NoMemory>
        ensures { OnOk result (seen self.new ≡ with_marks enters.now handles.now (seen self.old)) }
    {
        add_names_of(alloc, &mut self.entered, enters)?;
        add_all(alloc, &mut self.handled, handles)?;
        forget_some(&mut self.waiting, handles);
        await_all(alloc, &mut self.waiting, &self.handled, enters)?;
        Ok(())
    }

    /// Takes in the next entry of the log. After a refusal, which is for want of memory alone, make a new one.
    pub fn note(&mut self, alloc: Global, entry: &Content) -> Result<(), NoMemory>
        ensures { OnOk result (seen self.new ≡ with_entry entry.now (seen self.old)) }
    {
        self.take_in(alloc, entry.enters.as_slice(), entry.handles.as_slice())?;
        Ok(())
    }

    /// Whether the message is entered.
    pub fn is_entered(&self, name: &Name) -> bool
        ensures { result ≡ (seen self.now).entered name.now }
    {
        is_known(&self.entered, name)
    }

    /// The oldest message that is entered and not handled.
    pub fn oldest_unhandled(&self) -> Option<&Enter>
        ensures { option_copied result ≡ first_of (seen self.now).waiting }
    {
        oldest(self.waiting.as_slice())
    }
}
