// The tokens of an expression, and the one that a text begins with.
ghost use Rattle.std.specs.Prelude.{◌≡◌, ◌<◌, ◌∷◌, List, ℕ, length, option_map};
ghost use Rattle.rdf_values.specs.{first_token, long_mark, mark_first, number_first, short_mark, word_first};
ghost use Rattle.expr_read.specs.{first_of, token_of};

use rdf_values::scripts::name::{digits_size, is_digit, is_word_start, word_size};
use rdf_values::{BinOp, ExprCause, Mark, read_magnitude};

const LONGEST_WORD: usize = 64;

/// A token; a word is a part of the text.
#[derive(Clone, Copy, Debug)]
pub(crate) enum Token<'a> {
    Word(&'a [u8]),
    Truth(bool),
    Number(i64),
    Op(BinOp),
    Punct(Mark),
}

/// A token and its place in the text.
#[derive(Clone, Copy, Debug)]
pub(crate) struct Placed<'a> {
    pub(crate) token: Token<'a>,
    pub(crate) place: u32,
}

/// A token and how many bytes it has, or why there is none and how many bytes on.
pub(crate) type First<'a> = Result<(Token<'a>, usize), (ExprCause, usize)>;

// The token that a word is.
#[tactic(auto, unfolding(rdf_values::specs::expressions::Tokens::word_first))]
fn word(word: &[u8]) -> First<'_>
    ensures { first_of result ≡ word_first word.now }
{
    if word.len() > LONGEST_WORD {
        return Err((ExprCause::BadByte, LONGEST_WORD));
    }
    let token = if word == b"true".as_slice() {
        Token::Truth(true)
    } else if word == b"false".as_slice() {
        Token::Truth(false)
    } else {
        Token::Word(word)
    };
    Ok((token, word.len()))
}

// The token that some digits are.
#[tactic(auto, unfolding(rdf_values::specs::expressions::Tokens::number_first))]
fn number(digits: &[u8]) -> First<'_>
    ensures { first_of result ≡ number_first digits.now }
{
    match read_magnitude(digits, i64::MAX as u64) {
        Some(n) => Ok((Token::Number(n as i64), digits.len())),
        None => Err((ExprCause::BadNumber, 0)),
    }
}

// The token of a mark of two bytes.
#[tactic(auto, unfolding(rdf_values::specs::expressions::Tokens::long_mark))]
fn long_mark(first: u8, second: u8) -> Option<Token<'static>>
    ensures { option_map token_of result ≡ long_mark first second }
{
    match (first, second) {
        (b'<', b'=') => Some(Token::Op(BinOp::Le)),
        (b'>', b'=') => Some(Token::Op(BinOp::Ge)),
        (b'=', b'=') => Some(Token::Op(BinOp::Eq)),
        (b'!', b'=') => Some(Token::Op(BinOp::Ne)),
        (b'&', b'&') => Some(Token::Op(BinOp::And)),
        (b'|', b'|') => Some(Token::Op(BinOp::Or)),
        _ => None,
    }
}

// The token of a mark of one byte.
#[tactic(auto, unfolding(rdf_values::specs::expressions::Tokens::short_mark))]
fn short_mark(byte: u8) -> Option<Token<'static>>
    ensures { option_map token_of result ≡ short_mark byte }
{
    match byte {
        b'(' => Some(Token::Punct(Mark::Open)),
        b')' => Some(Token::Punct(Mark::Close)),
        b'[' => Some(Token::Punct(Mark::OpenBracket)),
        b']' => Some(Token::Punct(Mark::CloseBracket)),
        b'{' => Some(Token::Punct(Mark::OpenBrace)),
        b'}' => Some(Token::Punct(Mark::CloseBrace)),
        b',' => Some(Token::Punct(Mark::Comma)),
        b'?' => Some(Token::Punct(Mark::Question)),
        b':' => Some(Token::Punct(Mark::Colon)),
        b'+' => Some(Token::Op(BinOp::Add)),
        b'-' => Some(Token::Op(BinOp::Sub)),
        b'*' => Some(Token::Op(BinOp::Mul)),
        b'/' => Some(Token::Op(BinOp::Div)),
        b'%' => Some(Token::Op(BinOp::Rem)),
        b'!' => Some(Token::Punct(Mark::Bang)),
        b'<' => Some(Token::Op(BinOp::Lt)),
        b'>' => Some(Token::Op(BinOp::Gt)),
        _ => None,
    }
}

// The mark that the text begins with, the longest.
fn mark(first: u8, rest: &[u8]) -> First<'static>
    ensures { first_of result ≡ mark_first first rest.now }
{
    if let Some(second) = rest.first()
        && let Some(token) = long_mark(first, *second)
    {
        return Ok((token, 2));
    }
    match short_mark(first) {
        Some(token) => Ok((token, 1)),
        None => Err((ExprCause::BadByte, 0)),
    }
}

/// The token that a text begins with; its first byte isn't blank.
#[tactic(auto, unfolding(rdf_values::specs::expressions::Tokens::first_token))]
pub(crate) fn first_token<'a>(text: &'a [u8]) -> First<'a>
    requires { 0 < length text.now }
    ensures { (c : ℕ) (cs : List ℕ) → text.now ≡ c ∷ cs → first_of result ≡ first_token c cs }
{
    let first = text[0];
    if is_word_start(first) {
        word(&text[..word_size(text)])
    } else if is_digit(first) {
        number(&text[..digits_size(text)])
    } else {
        mark(first, &text[1..])
    }
}
