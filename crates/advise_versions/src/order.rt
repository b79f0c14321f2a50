// Comparison of versions, piece by piece.
ghost use Rattle.std.specs.Prelude.{◌≡◌, map};
ghost use Rattle.std.specs.Char.{to_ascii_lowercase};
ghost use Rattle.std.specs.Cmp.Lexicographic.{slice_cmp};
ghost use Rattle.std.specs.Ordering.{nat_cmp};
ghost use Rattle.advise_versions.specs.Order.{piece_order, version_order};
ghost use Rattle.advise_versions.specs.Pieces.{Number, Word};
ghost use Rattle.advise_versions.specs.Seen.{piece_seen};
ghost use Rattle.std.specs.Str.{str_to_ascii_lowercase};

use crate::piece::{Piece, PieceKind, first_piece};
use std::cmp::Ordering;

fn compare_words(word: &[u8], other: &[u8]) -> Ordering
    ensures { result ≡ slice_cmp nat_cmp (str_to_ascii_lowercase word.now) (str_to_ascii_lowercase other.now) }
{
    let mut left = word;
    let mut right = other;
    while let [x, left_tail @ ..] = left {
        let [y, right_tail @ ..] = right else {
            return Ordering::Greater;
        };
        let order = x.to_ascii_lowercase().cmp(&y.to_ascii_lowercase());
        if order != Ordering::Equal {
            return order;
        }
        left = left_tail;
        right = right_tail;
    }
    if right.is_empty() {
        Ordering::Equal
    } else {
        Ordering::Less
    }
}

// Compares numbers that are written without leading zeros.
fn compare_numbers(digits: &[u8], other: &[u8]) -> Ordering
    ensures { result ≡ piece_order (Number digits.now) (Number other.now) }
{
    match digits.len().cmp(&other.len()) {
        Ordering::Equal => digits.cmp(other),
        order => order,
    }
}

fn compare_pieces(piece: &Piece, other: &Piece) -> Ordering
    ensures { result ≡ piece_order (piece_seen piece.now) (piece_seen other.now) }
{
    match (piece.kind, other.kind) {
        (PieceKind::Word, PieceKind::Word) => compare_words(piece.text, other.text),
        (PieceKind::Number, PieceKind::Number) => compare_numbers(piece.text, other.text),
        (PieceKind::End, PieceKind::End) => Ordering::Equal,
        (PieceKind::Word, _) | (_, PieceKind::Number) => Ordering::Less,
        (PieceKind::Number, _) | (_, PieceKind::Word) => Ordering::Greater,
    }
}

/// The order of two versions, as the crate's page says. Each version is read once. Allocates: no.
pub fn version_cmp(a: &[u8], b: &[u8]) -> Ordering
    ensures { result ≡ version_order a.now b.now }
{
    let mut left = a;
    let mut right = b;
    loop {
        let piece = first_piece(left);
        let other = first_piece(right);
        let order = compare_pieces(&piece, &other);
        if order != Ordering::Equal {
            return order;
        }
        if piece.kind == PieceKind::End {
            return Ordering::Equal;
        }
        left = piece.behind;
        right = other.behind;
    }
}
