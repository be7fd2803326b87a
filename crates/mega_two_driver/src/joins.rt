//! Texts that are put together from pieces.
ghost use Rattle.std.specs.Prelude.{◌≡◌, ◌++◌, IfOk};
ghost use Rattle.mega_two_driver.specs.Texts.{bracketed, quoted};

use mega_base::{Bytes, NoMemory};
use std::alloc::Global;

pub(crate) fn joined3(alloc: Global, a: &[u8], b: &[u8], c: &[u8]) -> Result<Bytes, NoMemory>
    ensures { IfOk result (λ text. text ≡ a.now ++ (b.now ++ c.now)) }
{
    let mut text = Bytes::from_slice(alloc, a)?;
    text.extend_from_slice(b)?;
    text.extend_from_slice(c)?;
    Ok(text)
}

pub(crate) fn joined5(
    alloc: Global,
    a: &[u8],
    b: &[u8],
    c: &[u8],
    d: &[u8],
    e: &[u8],
) -> Result<Bytes, NoMemory>
    ensures { IfOk result (λ text. text ≡ a.now ++ (b.now ++ (c.now ++ (d.now ++ e.now)))) }
{
    let rest = joined3(alloc, c, d, e)?;
    joined3(alloc, a, b, rest.as_slice())
}

pub(crate) fn joined7(
    alloc: Global,
    a: &[u8],
    b: &[u8],
    c: &[u8],
    d: &[u8],
    e: &[u8],
    f: &[u8],
    g: &[u8],
) -> Result<Bytes, NoMemory>
    ensures { IfOk result (λ text. text ≡ a.now ++ (b.now ++ (c.now ++ (d.now ++ (e.now ++ (f.now ++ g.now)))))) }
{
    let rest = joined5(alloc, c, d, e, f, g)?;
    joined3(alloc, a, b, rest.as_slice())
}

pub(crate) fn joined9(
    alloc: Global,
    a: &[u8],
    b: &[u8],
    c: &[u8],
    d: &[u8],
    e: &[u8],
    f: &[u8],
    g: &[u8],
    h: &[u8],
    i: &[u8],
) -> Result<Bytes, NoMemory>
    ensures { IfOk result (λ text. text ≡ a.now ++ (b.now ++ (c.now ++ (d.now ++ (e.now ++ (f.now ++ (g.now ++ (h.now ++ i.now)))))))) }
{
    let rest = joined7(alloc, c, d, e, f, g, h, i)?;
    joined3(alloc, a, b, rest.as_slice())
}

pub(crate) fn quoted(alloc: Global, name: &[u8]) -> Result<Bytes, NoMemory>
    ensures { IfOk result (λ text. text ≡ quoted name.now) }
{
    joined3(alloc, b"\"", name, b"\"")
}

pub(crate) fn bracketed(alloc: Global, text: &[u8]) -> Result<Bytes, NoMemory>
    ensures { IfOk result (λ made. made ≡ bracketed text.now) }
{
    joined3(alloc, b"[", text, b"]")
}

/// A list of a name alone.
pub(crate) fn listed(alloc: Global, name: &[u8]) -> Result<Bytes, NoMemory>
    ensures { IfOk result (λ made. made ≡ bracketed (quoted name.now)) }
{
    let name = quoted(alloc, name)?;
    bracketed(alloc, name.as_slice())
}
