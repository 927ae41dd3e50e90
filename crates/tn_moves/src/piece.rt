// The pieces of a text of moves.
ghost use Rattle.std.specs.Prelude.{◌≡◌, ◌≤◌, [], drop, false, length, IfSome, IfNone};
ghost use Rattle.def_moves.specs.Texts.{after_gap, amount_len, ends_mover, is_gap_byte, mover_len};
ghost use Rattle.tn_moves.specs.Pieces.{IsPieceAt};

use tn_text::{gap_len, is_blank};

/// A piece of a text of moves.
#[derive(Clone, Copy)]
pub(crate) struct Piece<'a> {
    /// The offset of its first byte.
    pub from: usize,
    /// What says who moves.
    pub mover: &'a [u8],
    /// What says how often.
    pub amount: &'a [u8],
}

/// Whether the byte is a blank or begins a comment.
fn is_gap_byte(b: u8) -> bool
    ensures { result ≡ is_gap_byte b }
{
    is_blank(b) || b == b'%'
}

/// Whether the byte ends what says who moves.
fn ends_mover(b: u8) -> bool
    ensures { result ≡ ends_mover b }
{
    is_gap_byte(b) || b == b'*' || b == b'!'
}

/// How many bytes at the front say who moves: all before the first blank, `%`, `*` or `!` that isn't in quotes.
pub fn mover_len(bytes: &[u8]) -> usize
    ensures value { result ≡ mover_len false false bytes.now }
    ensures fits { result ≤ length bytes.now }
{
    let mut inside = false;
    let mut escaped = false;
    for (i, b) in bytes.iter().enumerate() {
        if escaped {
            escaped = false;
        } else if inside {
            escaped = *b == b'\\';
            inside = *b != b'\'';
        } else if ends_mover(*b) {
            return i;
        } else {
            inside = *b == b'\'';
        }
    }
    bytes.len()
}

/// How many bytes at the front say how often: all before the first blank or comment.
pub fn amount_len(bytes: &[u8]) -> usize
    ensures value { result ≡ amount_len bytes.now }
    ensures fits { result ≤ length bytes.now }
{
    for (i, b) in bytes.iter().enumerate() {
        if is_gap_byte(*b) {
            return i;
        }
    }
    bytes.len()
}

/// The first piece after an offset; None where only blanks and comments are there.
pub(crate) fn piece_at<'a>(text: &'a [u8], at: usize) -> Option<Piece<'a>>
    requires { at ≤ length text.now }
    ensures some { IfSome result (IsPieceAt text.now at) }
    ensures none { IfNone result (after_gap (drop at text.now) ≡ []) }
{
    let from = at + gap_len(&text[at..]);
    let left = &text[from..];
    if left.is_empty() {
        return None;
    }
    let end = mover_len(left);
    let mover = &left[..end];
    let rest = &left[end..];
    let amount = &rest[..amount_len(rest)];
    Some(Piece {
        from,
        mover,
        amount,
    })
}
