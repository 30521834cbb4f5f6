//! Texts between quotes.

ghost use Rattle.std.specs.Prelude.{◌≡◌, ◌<◌, ◌≤◌, ◌+◌, ◌^◌, IfOk, IfSome, length, take, true, false};
ghost use Rattle.std.specs.List.{list_all, prefix_len};
ghost use Rattle.std.specs.Str.{IsUtf8};
ghost use Rattle.std.specs.Str.Lossy.{utf8_valid_len};
ghost use Rattle.hx_lex.specs.Answers.{Gives};
ghost use Rattle.hx_lex.specs.declared.token.TokenKind.TheVariants as kinds;
ghost use Rattle.hx_lex.specs.Numbers.{token_piece};
ghost use Rattle.hx_lex.specs.Plain.{IsPlainFront, is_plain};
ghost use Rattle.hx_lex.specs.Quotes.{inside_len, escaped, content, inside_at, text_at};

use crate::errors::LexError;
use crate::token::{Piece, TokenKind};
use hx_types::{Memory, Text};
use std::alloc::Global;
use std::str;

/// How many bytes stand before the closing quote, or all where there is none.
#[tactic(auto, using(crate::proofs::Inside::inside_len_behind, crate::proofs::Inside::inside_len_next, crate::proofs::Inside::inside_len_end))]
fn inside_len(bytes: &[u8]) -> usize
    ensures value { result ≡ inside_len false bytes.now }
    ensures within { result ≤ length bytes.now }
{
    let mut behind = false;
    for (i, b) in bytes.iter().enumerate() {
        if behind {
            behind = false;
        } else if *b == b'"' {
            return i;
        } else {
            behind = *b == b'\\';
        }
    }
    bytes.len()
}

/// What an escape stands for, by the byte behind its backslash.
fn escaped(c: u8) -> Option<u8>
    ensures { result ≡ escaped c }
{
    match c {
        b'"' => Some(b'"'),
        b'\\' => Some(b'\\'),
        b'n' => Some(b'\n'),
        b't' => Some(b'\t'),
        _ => None,
    }
}

/// What the bytes from that place on stand for between quotes.
#[tactic(auto, using(crate::proofs::Inside::content_steps))]
fn content(alloc: Global, at: usize, bytes: &[u8]) -> Result<Vec<u8>, LexError>
    requires { at + length bytes.now < 2 ^ 64 }
    ensures { Gives (λ v. v.items) result (content false at bytes.now) }
{
    let mut out = Vec::new(alloc);
    if out.reserve_exact(bytes.len()).is_err() {
        return Err(LexError::Memory);
    }
    let mut place = at;
    let mut rest = bytes;
    'bytes: while let Some((first, tail)) = rest.split_first() {
        if *first < b' ' {
            return Err(LexError::BadChar { place });
        }
        if *first != b'\\' {
            out.push(*first)?;
            rest = tail;
            place += 1;
            continue;
        }
        let Some((second, after)) = tail.split_first() else {
            return Err(LexError::BadChar { place });
        };
        let Some(c) = escaped(*second) else {
            return Err(LexError::BadChar { place });
        };
        out.push(c)?;
        rest = after;
        place += 2;
    }
    Ok(out)
}

/// How many bytes at the front are UTF-8.
#[tactic(auto, using(crate::proofs::Inside::utf8_lengths))]
pub(crate) fn valid_len(bytes: &[u8]) -> usize
    ensures value { result ≡ utf8_valid_len bytes.now }
    ensures within { result ≤ length bytes.now }
{
    match str::from_utf8(bytes) {
        Ok(_) => bytes.len(),
        Err(e) => e.valid_up_to(),
    }
}

/// The text of bytes that are UTF-8.
fn text_of(bytes: Vec<u8>) -> Result<Text, Memory>
    requires { IsUtf8 bytes.items }
    ensures { IfOk result (λ text. text ≡ bytes.items) }
{
    match String::from_utf8(bytes) {
        Ok(text) => Text::from_string(text),
        // The bytes are UTF-8.
        Err(_) => unreachable!(),
    }
}

/// The text that the bytes from that place on stand for between quotes.
#[tactic(auto, using(crate::proofs::Content::content_utf8_front), unfolding(crate::specs::Quotes::inside_at))]
fn inside(alloc: Global, at: usize, bytes: &[u8]) -> Result<Text, LexError>
    requires { at + length bytes.now < 2 ^ 64 }
    ensures { Gives (λ t. t) result (inside_at at bytes.now) }
{
    let valid = valid_len(bytes);
    let content = content(alloc, at, &bytes[..valid])?;
    if valid < bytes.len() {
        return Err(LexError::BadChar { place: at + valid });
    }
    Ok(text_of(content)?)
}

/// Whether a byte between quotes is ASCII and stands for itself.
fn is_plain(byte: u8) -> bool
    ensures { result ≡ is_plain byte }
{
    (b' '..128).contains(&byte) && byte != b'"' && byte != b'\\'
}

/// How many bytes at the front are ASCII and stand for themselves.
fn plain_len(bytes: &[u8]) -> usize
    ensures { result ≡ prefix_len is_plain bytes.now }
{
    bytes.iter().take_while(|byte| is_plain(**byte)).count()
}

/// The bytes before the closing quote, where all of them are ASCII and stand for themselves.
fn plain_front(bytes: &[u8]) -> Option<&[u8]>
    ensures { IfSome result (λ plain. IsPlainFront bytes.now plain.now) }
{
    let len = plain_len(bytes);
    match bytes.get(len) {
        Some(b'"') => Some(&bytes[..len]),
        _ => None,
    }
}

/// Bytes that are ASCII and stand for themselves, as a text. That they are UTF-8 is proved, and so
/// isn't looked at.
#[tactic(auto, using(crate::proofs::Plain::plain_utf8))]
fn plain_str(bytes: &[u8]) -> &str
    requires { list_all is_plain bytes.now ≡ true }
    ensures { result.now ≡ bytes.now }
{
    unsafe { str::from_utf8_unchecked(bytes) }
}

/// The text of bytes that are ASCII and stand for themselves, and of a quote behind them.
fn plain_text(alloc: Global, bytes: &[u8]) -> Result<Piece, LexError>
    requires { list_all is_plain bytes.now ≡ true }
    ensures { Gives (λ p. p) result (token_piece (kinds.Text bytes.now) (length bytes.now + 2)) }
{
    let text = Text::from_str(alloc, plain_str(bytes))?;
    Ok(Piece {
        kind: Some(TokenKind::Text(text)),
        len: bytes.len() + 2,
    })
}

/// The text whose first quote stands at that place, before the bytes. Most texts need no escape.
#[tactic(auto, using(crate::proofs::Plain::text_is_plain), unfolding(crate::specs::Quotes::text_at))]
pub(crate) fn text(alloc: Global, at: usize, bytes: &[u8]) -> Result<Piece, LexError>
    requires { at + length bytes.now + 1 < 2 ^ 64 }
    ensures { Gives (λ p. p) result (text_at at bytes.now) }
{
    if let Some(plain) = plain_front(bytes) {
        return plain_text(alloc, plain);
    }
    let len = inside_len(bytes);
    if len == bytes.len() {
        return Err(LexError::OpenText { place: at });
    }
    let text = inside(alloc, at + 1, &bytes[..len])?;
    Ok(Piece {
        kind: Some(TokenKind::Text(text)),
        len: len + 2,
    })
}
