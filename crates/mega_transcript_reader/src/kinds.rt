//! The kinds of lines that go on behind their first word.
ghost use Rattle.std.specs.Prelude.{◌≡◌};
ghost use Rattle.mega_syntax.specs.Names.{same};
ghost use Rattle.mega_transcript_reader.specs.Kinds.{event_of, change_of, kind_of};

/// The kinds of lines that go on behind their first word.
#[derive(Clone, Copy, Drop)]
pub(crate) enum LineKind {
    Start,
    Unsent,
    Tick,
    Begin,
    Taken,
    Dropped,
    Sent,
    Grant,
    Lapse,
    Counts,
    Forgets,
    Serving,
    Lost,
    Valid,
    Invalid,
    Decide,
    Apply,
    Answer,
    Crash,
}

/// Whether the word is this one.
pub(crate) fn is(word: &[u8], name: &[u8]) -> bool
    ensures { result ≡ same word.now name.now }
{
    word == name
}

/// The kind of a line of an event or a message, by its first word.
fn event_of(word: &[u8]) -> Option<LineKind>
    ensures { result ≡ event_of word.now }
{
    if is(word, b"start") {
        Some(LineKind::Start)
    } else if is(word, b"unsent") {
        Some(LineKind::Unsent)
    } else if is(word, b"tick") {
        Some(LineKind::Tick)
    } else if is(word, b"begin") {
        Some(LineKind::Begin)
    } else if is(word, b"taken") {
        Some(LineKind::Taken)
    } else if is(word, b"dropped") {
        Some(LineKind::Dropped)
    } else if is(word, b"sent") {
        Some(LineKind::Sent)
    } else if is(word, b"answer") {
        Some(LineKind::Answer)
    } else if is(word, b"crash") {
        Some(LineKind::Crash)
    } else {
        None
    }
}

/// The kind of a line of a coordinator, a cell or a log, by its first word.
fn change_of(word: &[u8]) -> Option<LineKind>
    ensures { result ≡ change_of word.now }
{
    if is(word, b"grant") {
        Some(LineKind::Grant)
    } else if is(word, b"lapse") {
        Some(LineKind::Lapse)
    } else if is(word, b"counts") {
        Some(LineKind::Counts)
    } else if is(word, b"forgets") {
        Some(LineKind::Forgets)
    } else if is(word, b"serving") {
        Some(LineKind::Serving)
    } else if is(word, b"lost") {
        Some(LineKind::Lost)
    } else if is(word, b"valid") {
        Some(LineKind::Valid)
    } else if is(word, b"invalid") {
        Some(LineKind::Invalid)
    } else if is(word, b"decide") {
        Some(LineKind::Decide)
    } else if is(word, b"apply") {
        Some(LineKind::Apply)
    } else {
        None
    }
}

/// The kind of the line that begins with this word, if there is one.
pub(crate) fn kind_of(word: &[u8]) -> Option<LineKind>
    ensures { result ≡ kind_of word.now }
{
    match event_of(word) {
        Some(kind) => Some(kind),
        None => change_of(word),
    }
}
