// The pieces of a version, read one after the other.
ghost use Rattle.std.specs.Prelude.{◌≡◌, ◌<◌, ◌≤◌, ◌∷◌, ◌==◌, take, drop, length, true, false};
ghost use Rattle.std.specs.List.{prefix_len};
ghost use Rattle.std.specs.Char.{is_ascii_digit, is_ascii_alphabetic};
ghost use Rattle.advise_versions.specs.Pieces.{begins_piece, version_pieces, without_zeros};
ghost use Rattle.advise_versions.specs.Seen.{is_last, piece_seen, pieces_behind};

/// The kind of a piece. The kinds are listed from the least to the greatest.
#[derive(Clone, Copy, Debug, PartialEq, Eq)]
pub(crate) enum PieceKind {
    /// A run of letters.
    Word,
    /// The end of the version, after the last piece.
    End,
    /// A run of digits.
    Number,
}

/// A piece, and the bytes after it.
#[derive(Clone, Copy, Debug)]
pub(crate) struct Piece<'v> {
    pub(crate) kind: PieceKind,
    /// The letters in the case in which they were written, or the digits without the leading zeros.
    pub(crate) text: &'v [u8],
    pub(crate) behind: &'v [u8],
}

fn count_digits(text: &[u8]) -> usize
    ensures count { result ≡ prefix_len is_ascii_digit text.now }
    ensures within { result ≤ length text.now }
{
    text.iter().take_while(|byte| byte.is_ascii_digit()).count()
}

fn count_letters(text: &[u8]) -> usize
    ensures count { result ≡ prefix_len is_ascii_alphabetic text.now }
    ensures within { result ≤ length text.now }
{
    text.iter()
        .take_while(|byte| byte.is_ascii_alphabetic())
        .count()
}

fn count_zeros(digits: &[u8]) -> usize
    ensures count { result ≡ prefix_len (λ d. d == 48) digits.now }
    ensures within { result ≤ length digits.now }
{
    digits.iter().take_while(|digit| **digit == b'0').count()
}

fn behind(text: &[u8], count: usize) -> &[u8]
    requires { count ≤ length text.now }
    ensures { result.now ≡ drop count text.now }
{
    &text[count..]
}

fn without_zeros(digits: &[u8]) -> &[u8]
    ensures { result.now ≡ without_zeros digits.now }
{
    behind(digits, count_zeros(digits))
}

fn number(text: &[u8]) -> Piece<'_>
    requires { begins_piece is_ascii_digit text.now ≡ true }
    ensures pieces { version_pieces text.now ≡ piece_seen result ∷ pieces_behind result }
    ensures shorter { length result.behind.now < length text.now }
{
    let count = count_digits(text);
    Piece {
        kind: PieceKind::Number,
        text: without_zeros(&text[..count]),
        behind: behind(text, count),
    }
}

fn word(text: &[u8]) -> Piece<'_>
    requires digit { begins_piece is_ascii_digit text.now ≡ false }
    requires letter { begins_piece is_ascii_alphabetic text.now ≡ true }
    ensures pieces { version_pieces text.now ≡ piece_seen result ∷ pieces_behind result }
    ensures shorter { length result.behind.now < length text.now }
{
    let count = count_letters(text);
    Piece {
        kind: PieceKind::Word,
        text: &text[..count],
        behind: behind(text, count),
    }
}

/// The first piece of a text, and the bytes after it. Each byte up to the end of the piece is read once. Allocates: no.
pub(crate) fn first_piece(text: &[u8]) -> Piece<'_>
    ensures pieces { version_pieces text.now ≡ piece_seen result ∷ pieces_behind result }
    ensures shorter { is_last result.kind ≡ false → length result.behind.now < length text.now }
{
    let mut rest = text;
    while let [byte, tail @ ..] = rest {
        if byte.is_ascii_digit() {
            return number(rest);
        }
        if byte.is_ascii_alphabetic() {
            return word(rest);
        }
        rest = tail;
    }
    Piece {
        kind: PieceKind::End,
        text: rest,
        behind: rest,
    }
}
