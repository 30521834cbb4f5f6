//! What stands at the front of the rest of a line.

ghost use Rattle.std.specs.Prelude.{◌≡◌, ◌<◌, ◌+◌, ◌^◌, length};
ghost use Rattle.std.specs.List.{prefix_len};
ghost use Rattle.hx_lex.specs.Answers.{Gives};
ghost use Rattle.hx_lex.specs.Letters.{is_word_part};
ghost use Rattle.hx_lex.specs.Pieces.{comment_at, piece_at};

use crate::errors::LexError;
use crate::numbers::number;
use crate::quotes::{text, valid_len};
use crate::token::{Piece, TokenKind};
use std::alloc::Global;

/// The comment that takes up all the bytes, from that place on.
#[tactic(auto, unfolding(crate::specs::Pieces::comment_at))]
fn comment(at: usize, bytes: &[u8]) -> Result<Piece, LexError>
    requires { at + length bytes.now < 2 ^ 64 }
    ensures { Gives (λ p. p) result (comment_at at bytes.now) }
{
    let valid = valid_len(bytes);
    if valid < bytes.len() {
        return Err(LexError::BadChar { place: at + valid });
    }
    Ok(Piece {
        kind: None,
        len: valid,
    })
}

/// Whether a word may have that byte.
fn is_word_part(b: u8) -> bool
    ensures { result ≡ is_word_part b }
{
    b.is_ascii_lowercase() || b.is_ascii_digit() || b == b'_'
}

/// How many bytes at the front a word may have.
fn word_len(bytes: &[u8]) -> usize
    ensures { result ≡ prefix_len is_word_part bytes.now }
{
    bytes.iter().take_while(|b| is_word_part(**b)).count()
}

/// What stands at the front of the rest of a line, which begins at that place.
#[tactic(auto, unfolding(crate::specs::Pieces::piece_at))]
pub(crate) fn piece(alloc: Global, at: usize, rest: &[u8]) -> Result<Piece, LexError>
    requires { at + length rest.now < 2 ^ 64 }
    ensures { Gives (λ p. p) result (piece_at at rest.now) }
{
    let Some((first, after)) = rest.split_first() else {
        return Ok(Piece { kind: None, len: 0 });
    };
    let next = after.first().copied();
    match *first {
        b' ' | b'\t' => Ok(Piece { kind: None, len: 1 }),
        b'\r' if next.is_none() => Ok(Piece { kind: None, len: 1 }),
        b'#' => comment(at, rest),
        b'a'..=b'z' => Ok(Piece {
            kind: Some(TokenKind::Word),
            len: word_len(rest),
        }),
        b'0'..=b'9' => number(at, false, rest),
        b'-' if next.is_some_and(|c| c.is_ascii_digit()) => number(at, true, after),
        b'"' => text(alloc, at, after),
        b'=' | b',' => Ok(Piece {
            kind: Some(TokenKind::Sign),
            len: 1,
        }),
        b'.' if next == Some(b'.') => Ok(Piece {
            kind: Some(TokenKind::Sign),
            len: 2,
        }),
        b'.' => Ok(Piece {
            kind: Some(TokenKind::Sign),
            len: 1,
        }),
        _ => Err(LexError::BadChar { place: at }),
    }
}
