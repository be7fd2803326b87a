//! Texts in a page, so that no byte of them is markup.
ghost use Rattle.std.specs.Prelude.{◌≡◌, ◌++◌, ◌<◌, ◌≤◌, ◌+◌, OnOk, length};
ghost use Rattle.mega_picture.specs.Escape.{is_no_character, escaped, escape, width, fitting, goes_on, cut_at, shortened, fitted};

use mega_base::{Bytes, NoMemory};

/// Whether a byte ends the text of one of the two code points that no page may have, U+FFFE and U+FFFF, behind these
/// two bytes.
fn is_no_character(before: u8, last: u8, byte: u8) -> bool
    ensures { result ≡ is_no_character before last byte }
{
    before == 0xef && (last == 0xbf && 0xbe <= byte)
}

/// Appends a byte of a text behind the two bytes before it, so that no byte of it is markup.
#[tactic(auto, unfolding(crate::specs::Escape::escaped))]
fn put_byte(out: &mut Bytes, before: u8, last: u8, byte: u8) -> Result<(), NoMemory>
    ensures { OnOk result (out.new ≡ out.old ++ escaped before last byte) }
{
    if byte == b'<' {
        out.extend_from_slice(b"&lt;")
    } else if byte == b'>' {
        out.extend_from_slice(b"&gt;")
    } else if byte == b'&' {
        out.extend_from_slice(b"&amp;")
    } else if byte == b'"' {
        out.extend_from_slice(b"&quot;")
    } else if byte == b'\'' {
        out.extend_from_slice(b"&#39;")
    } else if byte < b' ' {
        out.push(b' ')
    } else if is_no_character(before, last, byte) {
        out.push(0xbd)
    } else {
        out.push(byte)
    }
}

/// Appends a text so that no byte of it is markup.
#[tactic(auto, using(crate::proofs::Escaping::escape_on))]
pub fn put_escaped(out: &mut Bytes, text: &[u8]) -> Result<(), NoMemory>
    ensures { OnOk result (out.new ≡ out.old ++ escape text.now) }
{
    let mut before = 0;
    let mut last = 0;
    for byte in text {
        put_byte(out, before, last, *byte)?;
        before = last;
        last = *byte;
    }
    Ok(())
}

/// How many bytes of a page a byte of a text takes, at most.
#[tactic(auto, unfolding(crate::specs::Escape::width))]
fn width(byte: u8) -> usize
    ensures { result ≡ width byte }
{
    if byte == b'<' || byte == b'>' {
        4
    } else if byte == b'&' || byte == b'\'' {
        5
    } else if byte == b'"' {
        6
    } else {
        1
    }
}

/// How many bytes of a text, from its first on, fit into so many of a page.
fn fitting(text: &[u8], room: usize) -> usize
    ensures value { result ≡ fitting room text.now }
    ensures bound { result ≤ length text.now }
{
    let mut left = room;
    for (index, byte) in text.iter().enumerate() {
        let wide = width(*byte);
        if left < wide {
            return index;
        }
        left -= wide;
    }
    text.len()
}

/// Whether a byte goes on with a character.
fn goes_on(byte: u8) -> bool
    ensures { result ≡ goes_on byte }
{
    128 <= byte && byte < 192
}

/// Where a text may be cut, up to `most`, so that no character is parted.
fn cut_of(text: &[u8], most: usize) -> usize
    requires { most < length text.now }
    ensures value { result ≡ cut_at text.now most }
    ensures bound { result ≤ most }
{
    let mut at = most;
    while 0 < at && goes_on(text[at]) {
        at -= 1;
    }
    at
}

/// Appends a text with no markup, or, where it is longer than so many bytes, its front and three dots.
#[tactic(auto, unfolding(crate::specs::Escape::shortened))]
pub fn put_cut(out: &mut Bytes, text: &[u8], most: usize) -> Result<(), NoMemory>
    ensures { OnOk result (out.new ≡ out.old ++ shortened most text.now) }
{
    if text.len() <= most {
        return put_escaped(out, text);
    }
    let (front, _) = text.split_at(cut_of(text, most));
    put_escaped(out, front)?;
    out.extend_from_slice(b"...")
}

/// Appends a text with no markup, or, where it would take more than so many bytes of the page, its front and three dots.
#[tactic(auto, using(crate::proofs::Fitting::put_fits), unfolding(crate::specs::Escape::fitted))]
pub fn put_fitted(out: &mut Bytes, text: &[u8], room: usize) -> Result<(), NoMemory>
    ensures text { OnOk result (out.new ≡ out.old ++ fitted room text.now) }
    ensures room { OnOk result (length out.new ≤ length out.old + (room + 3)) }
{
    put_cut(out, text, fitting(text, room))
}
