//! Reads the head of a backup: its group, and how many entries follow.
ghost use Rattle.std.specs.Prelude.{◌≡◌, ◌==◌, IfOk, position};
ghost use Rattle.mega_backup.specs.Lines.{group_in, head_in, head_of};
ghost use Rattle.mega_backup.specs.Words.{number_in};

use crate::words::{behind, hex_in, number_in};
use mega_base::{GroupId, NoMemory};
use std::alloc::Global;

/// The group of a backup, and how many entries follow.
#[derive(Drop)]
pub struct Head {
    pub group: GroupId,
    pub count: u64,
}

/// The group that hex digits spell, which has 1 to 1,024 bytes.
fn group_in(alloc: Global, digits: &[u8]) -> Result<Option<GroupId>, NoMemory>
    ensures { IfOk result (λ group. group ≡ group_in digits.now) }
{
    if digits.len() < 2 || 2048 < digits.len() {
        return Ok(None);
    }
    match hex_in(alloc, digits)? {
        Some(key) => Ok(Some(GroupId::new(alloc, key)?)),
        None => Ok(None),
    }
}

/// The head of these two words.
fn head_of(alloc: Global, group: &[u8], count: &[u8]) -> Result<Option<Head>, NoMemory>
    ensures { IfOk result (λ head. head ≡ head_of (group_in group.now) (number_in count.now)) }
{
    let Some(group) = group_in(alloc, group)? else {
        return Ok(None);
    };
    match number_in(count) {
        Some(count) => Ok(Some(Head { group, count })),
        None => Ok(None),
    }
}

/// The index of the first space.
fn space_in(words: &[u8]) -> Option<usize>
    ensures { result ≡ position (λ c. c == 32) words.now }
{
    words.iter().position(|byte| *byte == b' ')
}

/// The head that a line is.
pub fn head_in(alloc: Global, line: &[u8]) -> Result<Option<Head>, NoMemory>
    ensures { IfOk result (λ head. head ≡ head_in line.now) }
{
    let Some(words) = behind(b"backup ", line) else {
        return Ok(None);
    };
    let Some(at) = space_in(words) else {
        return Ok(None);
    };
    let (group, rest) = words.split_at(at);
    let (_, count) = rest.split_at(1);
    head_of(alloc, group, count)
}
