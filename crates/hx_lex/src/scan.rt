//! The tokens of a line.

ghost use Rattle.std.specs.Prelude.{IfOk};
ghost use Rattle.std.specs.List.{AllByRecursion};
ghost use Rattle.hx_lex.specs.Answers.{Gives};
ghost use Rattle.hx_lex.specs.Lines.{tokens_of};
ghost use Rattle.hx_lex.specs.Spelling.{IsTokenOf};

use crate::errors::LexError;
use crate::pieces::piece;
use crate::token::{Piece, Token, Tokens};
use std::alloc::Global;

/// The tokens of a line in order. The line is given without its newline.
///
/// # Errors
///
/// The first fault of the line, at its place. A text that is never closed is `OpenText` at its
/// first quote, whatever stands in it. `Memory` may come instead of either.
#[tactic(auto, using(crate::proofs::Steps::goes_on, crate::proofs::Steps::goes_past, crate::proofs::Steps::is_done, crate::proofs::Parts::piece_moves, crate::proofs::Parts::piece_within))]
pub fn tokens(alloc: Global, line: &[u8]) -> Result<Tokens, LexError>
    ensures gives { Gives (λ ts. ts) result (tokens_of line.now) }
    ensures spelled { IfOk result (λ ts. AllByRecursion (IsTokenOf line.now) ts) }
{
    let Ok(mut tokens) = Tokens::with_capacity(alloc, 16) else {
        return Err(LexError::Memory);
    };
    let mut start = 0;
    let mut rest = line;
    'pieces: while !rest.is_empty() {
        let Piece { kind, len } = piece(alloc, start, rest)?;
        let end = start + len;
        rest = rest.split_at(len).1;
        if let Some(kind) = kind {
            tokens.push(Token { kind, start, end })?;
        }
        start = end;
    }
    Ok(tokens)
}
