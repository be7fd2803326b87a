//! Writes row keys, entity groups and index keys, or tells why the values have none.
ghost use Rattle.std.specs.Prelude.{◌≡◌, ◌++◌, ◌+◌, ◌≤◌, ◌<◌, length, IfOk, Ok, Err};
ghost use Rattle.mega_keys.specs.Spelling.{scattered, head_bytes};
ghost use Rattle.mega_keys.specs.Answers.{Gives, GivesGroup, limited, fault_of, row_key_of, group_key_of, index_key_of};

use crate::fault::KeyFault;
use crate::fit::misplaced;
use crate::spelling::{put_plain_values, put_values};
use mega_base::{Bytes, GroupId, Kind, NoMemory, Shape, Value};
use sha2::{Digest, Sha256};
use std::alloc::Global;

/// The most bytes that a key may have.
pub const LONGEST: usize = 1024;

/// The two bytes that stand before the root key values of a scattered root.
#[tactic(auto, unfolding(crate::specs::Spelling::scattered))]
pub fn scatter(alloc: Global, root: &[Value]) -> Result<[u8; 2], NoMemory>
    ensures { IfOk result (λ two. two ≡ scattered root.now) }
{
    let mut plain = Bytes::new(alloc);
    put_plain_values(&mut plain, root)?;
    let digest = Sha256::digest(plain.as_slice());
    Ok([digest[0], digest[1]])
}

/// The first byte, the two that scatter, and the root key values.
fn head(alloc: Global, first: u8, scatters: bool, root: &[Value]) -> Result<Bytes, NoMemory>
    ensures { IfOk result (λ key. key ≡ head_bytes first scatters root.now) }
{
    let mut key = Bytes::new(alloc);
    key.push(first)?;
    if scatters {
        key.extend_from_slice(&scatter(alloc, root)?)?;
    }
    put_values(&mut key, root)?;
    Ok(key)
}

/// Refuses values that are not those of these places.
fn check(root: &[Kind], rest: &[Kind], values: &[Value]) -> Result<(), KeyFault>
    ensures { result ≡ fault_of (root.now ++ rest.now) values.now }
{
    if let Some(place) = misplaced(root, rest, values) {
        return Err(KeyFault::Kind {
            property: place as u64,
        });
    }
    if values.len() < root.len() || values.len() - root.len() < rest.len() {
        return Err(KeyFault::Missing {
            property: values.len() as u64,
        });
    }
    Ok(())
}

/// Refuses a key that is too long.
fn limited(key: Bytes) -> Result<Bytes, KeyFault>
    ensures { result ≡ limited key }
{
    if LONGEST < key.len() {
        return Err(KeyFault::TooLong {
            length: key.len() as u64,
        });
    }
    Ok(key)
}

/// The key of the row with these key values, in the order of the primary key.
pub fn row_key(alloc: Global, shape: &Shape, values: &[Value]) -> Result<Bytes, KeyFault>
    ensures { Gives result (row_key_of shape.now values.now) }
{
    let root_kinds = shape.root_kinds.as_slice();
    check(root_kinds, shape.rest_kinds.as_slice(), values)?;
    let (root, rest) = values.split_at(root_kinds.len());
    let mut key = head(alloc, shape.space, shape.scatter, root)?;
    key.push(shape.table)?;
    put_values(&mut key, rest)?;
    limited(key)
}

/// The entity group of the root with these root key values.
pub fn group_of(alloc: Global, shape: &Shape, values: &[Value]) -> Result<GroupId, KeyFault>
    ensures { GivesGroup result (group_key_of shape.now values.now) }
{
    check(shape.root_kinds.as_slice(), &[], values)?;
    let key = limited(head(alloc, shape.root, shape.scatter, values)?)?;
    Ok(GroupId::new(alloc, key)?)
}

/// The key of an entry of the index with this number: behind the prefix, which is the group of a local
/// index and empty for a global one, the indexed values and the primary key of the row.
pub fn index_key(
    alloc: Global,
    number: u8,
    prefix: &[u8],
    indexed: &[Value],
    key: &[Value],
) -> Result<Bytes, KeyFault>
    requires { number ≤ 64 }
    ensures { Gives result (index_key_of number prefix.now indexed.now key.now) }
{
    let mut bytes = Bytes::from_slice(alloc, prefix)?;
    bytes.push(127 + number)?;
    put_values(&mut bytes, indexed)?;
    put_values(&mut bytes, key)?;
    limited(bytes)
}
