//! Comments.

ghost use Rattle.std.specs.Prelude.{◌≡◌, ◌<◌, ◌≤◌, ◌↔◌, IsTrue, length, take, drop, slice_index, MatchOption};
ghost use Rattle.std.specs.List.{AllPass};
ghost use Rattle.hl_lexer.specs.Bytes.{Ends, is_no_line_feed};
ghost use Rattle.hl_lexer.specs.Scanning.{ClosesAt, CommentIs, FirstClosing, NoClosing};

/// What comment a text begins with.
#[derive(Clone, Copy, Debug)]
pub(crate) enum Comment {
    /// It begins with no comment.
    Absent,
    /// A comment of this many bytes.
    Closed(usize),
    /// A comment that doesn't end.
    Unclosed,
}

/// What comment a text begins with.
pub(crate) fn comment_of(rest: &[u8]) -> Comment
    ensures { CommentIs rest.now result }
{
    if byte_at(rest, 0) != b'/' {
        return Comment::Absent;
    }
    let second = byte_at(rest, 1);
    if second == b'/' {
        return Comment::Closed(2 + line_length(&rest[2..]));
    }
    if second != b'*' {
        return Comment::Absent;
    }
    match closing(&rest[2..]) {
        Some(length) => Comment::Closed(2 + length + 2),
        None => Comment::Unclosed,
    }
}

/// The byte at an index, or 0 past the end.
pub(crate) fn byte_at(bytes: &[u8], index: usize) -> u8
    ensures { result ≡ slice_index bytes.now index }
{
    bytes.get(index).copied().unwrap_or(0)
}

/// How many bytes stand in front of the first line feed or the end.
fn line_length(bytes: &[u8]) -> usize
    ensures within { result ≤ length bytes.now }
    ensures line { AllPass is_no_line_feed (take result bytes.now) }
    ensures end { Ends is_no_line_feed (drop result bytes.now) }
{
    for (index, byte) in bytes.iter().enumerate() {
        if *byte == b'\n' {
            return index;
        }
    }
    bytes.len()
}

/// How many bytes stand in front of the first `*/`, if there is one.
fn closing(bytes: &[u8]) -> Option<usize>
    ensures { MatchOption result (NoClosing bytes.now) (FirstClosing bytes.now) }
{
    for index in 0..bytes.len() {
        if is_closing(bytes, index) {
            return Some(index);
        }
    }
    None
}

/// Whether `*/` stands at an index.
fn is_closing(bytes: &[u8], index: usize) -> bool
    requires { index < length bytes.now }
    ensures { IsTrue result ↔ ClosesAt bytes.now index }
{
    bytes[index] == b'*' && byte_at(bytes, index + 1) == b'/'
}
