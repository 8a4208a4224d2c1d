//! A sum as tokens, of which up to 32 are kept without the heap.
use tinyvec_array::ArrayVec;

/// A number, or a sign.
#[derive(Clone, Copy)]
pub enum Token {
    Number(u32),
    Sign(char),
}

impl Default for Token {
    fn default() -> Token {
        Token::Number(0)
    }
}

/// Why a text is no list of tokens, and at which of its bytes.
#[derive(Clone, Copy)]
pub enum TokenError {
    Unknown(usize, char),
    TooGreat(usize),
    TooMany(usize),
}

/// The tokens of a text.
pub fn tokens(text: &str) -> Result<ArrayVec<[Token; 32]>, TokenError> {
    let mut tokens = ArrayVec::new();
    let mut number = None;
    for (at, c) in text.char_indices() {
        if let Some(digit) = c.to_digit(10) {
            number = Some(with_digit(number, digit).ok_or(TokenError::TooGreat(at))?);
            continue;
        }
        put(&mut tokens, number.take().map(Token::Number), at)?;
        match c {
            ' ' => {}
            '+' | '-' | '*' | '(' | ')' => put(&mut tokens, Some(Token::Sign(c)), at)?,
            _ => return Err(TokenError::Unknown(at, c)),
        }
    }
    put(&mut tokens, number.map(Token::Number), text.len())?;
    Ok(tokens)
}

// The number with one digit more, or `None` if it is too great.
fn with_digit(number: Option<u32>, digit: u32) -> Option<u32> {
    number.unwrap_or(0).checked_mul(10)?.checked_add(digit)
}

// Appends a token, if there is one and room for it.
fn put(
    tokens: &mut ArrayVec<[Token; 32]>,
    token: Option<Token>,
    at: usize,
) -> Result<(), TokenError> {
    let Some(token) = token else {
        return Ok(());
    };
    match tokens.try_push(token) {
        None => Ok(()),
        Some(_) => Err(TokenError::TooMany(at)),
    }
}
