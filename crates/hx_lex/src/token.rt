use hx_types::{Sequence, Text};

/// What a token is.
#[derive(Drop)]
pub enum TokenKind {
    /// A letter from `a` to `z`, and then such letters, digits and `_`.
    Word,
    /// A whole number.
    Number(i64),
    /// What the characters between two quotes stand for.
    Text(Text),
    /// One of `=`, `,`, `.` and `..`.
    Sign,
}

/// A token, and the slice of its line where it stands: from `start` up to `end`.
#[derive(Drop)]
pub struct Token {
    pub kind: TokenKind,
    pub start: usize,
    pub end: usize,
}

/// The tokens of a line in order.
pub type Tokens = Sequence<Token>;

/// What stands at the front of the rest of a line: a token, or else a blank or a comment.
///
/// It is public because the definitions of `specs/` speak of it.
#[derive(Drop)]
pub struct Piece {
    pub kind: Option<TokenKind>,
    pub len: usize,
}
