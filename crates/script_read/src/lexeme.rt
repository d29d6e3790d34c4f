// The tokens of a line, and what it begins with at a place.
ghost use Rattle.std.specs.Prelude.{◌≡◌, ◌==◌, ◌+◌, ◌-◌, ◌<◌, ◌≤◌, ◌∷◌, ◌||◌, ℕ, List, true, length, drop, map, position, Ok, IfOk, IfErr};
ghost use Rattle.std.specs.List.{list_all};
ghost use Rattle.rdf_values.specs.{between, integer_lexeme, integer_of, is_digit, is_name, is_word, lexeme, line_tokens, mark_lexeme, RefusesLine, string_lexeme, word_lexeme};
ghost use Rattle.script_read.specs.{lexeme_of, placed_of, RefusedFor};

use crate::form::{FormMark, FormToken, Quoted, TokenAt, Word};
use crate::refusal::LineStop;
use rdf_values::read_integer;
use rdf_values::scripts::name::{digits_size, is_digit, is_word_start, word_size};
use std::alloc::Global;

const LONGEST_NAME: usize = 64;

// A blank, a comment to the end of the line, a byte that begins no token, or a token with so many bytes behind its first.
#[derive(Clone, Copy)]
enum Lexeme<'a> {
    Blank,
    Comment,
    Bad,
    Found(FormToken<'a>, usize),
}

fn begins_integer(byte: u8) -> bool
    ensures { result ≡ (is_digit byte || byte == 45) }
{
    is_digit(byte) || byte == b'-'
}

fn are_printable(bytes: &[u8]) -> bool
    ensures { result ≡ list_all (between 32 126) bytes.now }
{
    bytes.iter().all(|byte| *byte >= 0x20 && *byte <= 0x7E)
}

fn quote_place(text: &[u8]) -> Option<usize>
    ensures { result ≡ position (λ c. c == 34) text.now }
{
    text.iter().position(|byte| *byte == b'"')
}

// The lexeme of a word, which must be a name.
#[tactic(auto, unfolding(rdf_values::specs::scripts::LineTokens::word_lexeme, rdf_values::specs::scripts::Names::is_name))]
fn word(bytes: &[u8]) -> Lexeme<'_>
    requires { is_word bytes.now ≡ true }
    ensures { lexeme_of result ≡ word_lexeme bytes.now }
{
    let is_truth = bytes == b"true".as_slice() || bytes == b"false".as_slice();
    if bytes.len() > LONGEST_NAME || is_truth {
        return Lexeme::Bad;
    }
    Lexeme::Found(FormToken::Word(Word { bytes }), bytes.len() - 1)
}

// The lexeme of some digits, maybe behind a `-`.
fn integer(text: &[u8]) -> Lexeme<'static>
    requires { 0 < length text.now }
    ensures { lexeme_of result ≡ integer_lexeme (length text.now - 1) (integer_of text.now) }
{
    match read_integer(text) {
        Some(number) => Lexeme::Found(FormToken::Number(number), text.len() - 1),
        None => Lexeme::Bad,
    }
}

// The lexeme of a string whose quote stands at the place, before the text.
#[tactic(auto, unfolding(rdf_values::specs::scripts::LineTokens::string_lexeme))]
fn string(place: u32, text: &[u8]) -> Lexeme<'_>
    requires { place + length text.now < 65536 }
    ensures { lexeme_of result ≡ string_lexeme place text.now }
{
    let Some(end) = quote_place(text) else {
        return Lexeme::Bad;
    };
    let content = &text[..end];
    if !are_printable(content) {
        return Lexeme::Bad;
    }
    Lexeme::Found(FormToken::Quoted(Quoted { place, content }), end + 1)
}

fn mark(byte: u8) -> Lexeme<'static>
    ensures { lexeme_of result ≡ mark_lexeme byte }
{
    let mark = match byte {
        b'=' => FormMark::Equals,
        b'.' => FormMark::Dot,
        b'(' => FormMark::Open,
        b')' => FormMark::Close,
        b'[' => FormMark::OpenBracket,
        b']' => FormMark::CloseBracket,
        b',' => FormMark::Comma,
        _ => return Lexeme::Bad,
    };
    Lexeme::Found(FormToken::Mark(mark), 0)
}

// What the line has at the place.
#[tactic(auto, unfolding(rdf_values::specs::scripts::LineTokens::lexeme))]
fn lexeme_at(line: &[u8], place: usize) -> Lexeme<'_>
    requires inside { place < length line.now }
    requires short { length line.now ≤ 65536 }
    ensures { (c : ℕ) (cs : List ℕ) → drop place line.now ≡ c ∷ cs → lexeme_of result ≡ lexeme place c cs }
{
    let text = &line[place..];
    match text[0] {
        b' ' | b'\t' => Lexeme::Blank,
        b'#' => Lexeme::Comment,
        b'"' => string(place as u32, &text[1..]),
        first if is_word_start(first) => word(&text[..word_size(text)]),
        first if begins_integer(first) => integer(&text[..1 + digits_size(&text[1..])]),
        first => mark(first),
    }
}

/// The tokens of a line.
#[tactic(auto, using(crate::proofs::TokenSteps::at_end, crate::proofs::TokenSteps::step_comment))]
pub(crate) fn tokenize(alloc: Global, line: &[u8]) -> Result<Vec<TokenAt<'_>>, LineStop>
    requires { length line.now ≤ 65536 }
    ensures ok { IfOk result (λ v. line_tokens line.now ≡ Ok (map placed_of v.items)) }
    ensures err { IfErr result (λ e. RefusedFor (RefusesLine line.now) e) }
{
    let mut found = Vec::new(alloc);
    let mut place = 0;
    while place < line.len() {
        match lexeme_at(line, place) {
            Lexeme::Blank => place += 1,
            Lexeme::Comment => break,
            Lexeme::Bad => return Err(LineStop::Syntax(place as u32)),
            Lexeme::Found(token, more) => {
                found.push(TokenAt {
                    token,
                    place: place as u32,
                })?;
                place += 1 + more;
            }
        }
    }
    Ok(found)
}
