// Reads scripts.
ghost use Rattle.std.specs.Io.BufRead.{strip_last};
ghost use Rattle.std.specs.Prelude.{◌≡◌, ◌<◌, ◌≤◌, ◌∷◌, ◌==◌, ◌↔◌, ◌⊎◌, ℕ, List, length, position, IfOk, IfErr, MatchOption, MatchResult};
ghost use Rattle.rdf_values.specs.{IsBlankLine, IsLine, IsScript, lines_of, RefusesLine, RefusesScript, Script, ScriptCause};
ghost use Rattle.script_read.specs.{AddsLine, RefusedFor, RefusesFirstAs, RefusesTextAs};

use crate::lexeme::tokenize;
use crate::refusal::{LineStop, ScriptRefusal};
use crate::statement::read_statement;
use crate::walk::read_form;
use rdf_values::{Line, ListOf, Script, ScriptCause, Statement};
use std::alloc::Global;

const MOST_STATEMENTS: usize = 256;

fn find_line_end(text: &[u8]) -> Option<usize>
    ensures { result ≡ position (λ byte. byte == 10) text.now }
{
    text.iter().position(|byte| *byte == b'\n')
}

fn without_cr(line: &[u8]) -> &[u8]
    ensures { result.now ≡ strip_last 13 line.now }
{
    match line.split_last() {
        Some((b'\r', front)) => front,
        _ => line,
    }
}

// The first line of a text, without its LF and a CR directly before it, and the bytes behind it.
#[tactic(auto, using(rdf_values::proofs::Fronts::rest_of, crate::proofs::FirstLines::first_end, crate::proofs::FirstLines::none_behind))]
fn first_line(text: &[u8]) -> (&[u8], &[u8])
    requires { 0 < length text.now }
    ensures lines { lines_of text.now ≡ result.0.now ∷ lines_of result.1.now }
    ensures line { length result.0.now ≤ length text.now }
    ensures rest { length result.1.now < length text.now }
{
    match find_line_end(text) {
        Some(end) => (without_cr(&text[..end]), &text[end + 1..]),
        None => (text, &[]),
    }
}

// The statement of a line, if it has tokens.
fn read_line(alloc: Global, line: &[u8]) -> Result<Option<Statement>, LineStop>
    requires { length line.now ≤ 65536 }
    ensures ok { IfOk result (λ o. MatchOption o (IsBlankLine line.now) (λ s. IsLine line.now s)) }
    ensures err { IfErr result (λ e. RefusedFor (RefusesLine line.now) e) }
{
    let tokens = tokenize(alloc, line)?;
    if tokens.is_empty() {
        return Ok(None);
    }
    let form = read_form(alloc, tokens.as_slice(), line.len() as u32)?;
    Ok(Some(read_statement(alloc, &form)?))
}

// What the stop of the line with that number is to the text.
fn refusal_at(number: u32, stop: LineStop) -> ScriptRefusal
    ensures memory { (result ≡ ScriptRefusal.Memory) ↔ (stop ≡ LineStop.Memory) }
    ensures refused { (line : List ℕ) (before : ℕ) → RefusedFor (RefusesLine line) stop → RefusesFirstAs number before line result }
{
    match stop {
        LineStop::Syntax(place) => ScriptRefusal::At(ScriptCause::Syntax {
            line: number,
            place,
        }),
        LineStop::Expression(place, cause) => ScriptRefusal::At(ScriptCause::Expression {
            line: number,
            place,
            cause,
        }),
        LineStop::Memory => ScriptRefusal::Memory,
    }
}

// Adds what the line with that number says to the statements before it.
fn add_line(
    alloc: Global,
    number: u32,
    line: &[u8],
    lines: &mut ListOf<Line>,
) -> Result<(), ScriptRefusal>
    requires short { length line.now ≤ 65536 }
    requires few { length lines.old ≤ 256 }
    ensures ok { IfOk result (λ _. AddsLine number line.now lines.old lines.new) }
    ensures err { IfErr result (λ e. RefusesFirstAs number (length lines.old) line.now e) }
{
    let statement = match read_line(alloc, line) {
        Ok(Some(statement)) => statement,
        Ok(None) => return Ok(()),
        Err(stop) => return Err(refusal_at(number, stop)),
    };
    if lines.len() == MOST_STATEMENTS {
        return Err(ScriptRefusal::At(ScriptCause::TooMany { line: number }));
    }
    lines.push(Line { number, statement })?;
    Ok(())
}

/// Reads a script. The text is refused at its first bad line, with the place there: at a byte that begins no token, a token
/// that can't stand where it does, the line's end, or a string that isn't what it must be; or at its 257th statement.
pub fn read_script(alloc: Global, text: &[u8]) -> Result<Script, ScriptRefusal>
    requires { length text.now ≤ 65536 }
    ensures ok { IfOk result (λ s. IsScript text.now s) }
    ensures refused { IfErr result (λ e. RefusesTextAs text.now e) }
    ensures complete { (s : Script) → IsScript text.now s → MatchResult result (λ r. r ≡ s) (λ e. e ≡ ScriptRefusal.Memory) }
    ensures first { (c : ScriptCause) → RefusesScript text.now c → MatchResult result (λ r. ⊥) (λ e. (e ≡ ScriptRefusal.At c) ⊎ (e ≡ ScriptRefusal.Memory)) }
{
    let mut lines = ListOf::new(alloc);
    let mut left = text;
    let mut number = 1;
    while !left.is_empty() {
        let (line, behind) = first_line(left);
        add_line(alloc, number, line, &mut lines)?;
        left = behind;
        number += 1;
    }
    Ok(Script { lines })
}

/// Each text is one script or is refused for one cause, and not both; the function does nothing, and its contract is the law.
pub fn one_answer()
    ensures answered { (text : List ℕ) → ((s : Script) × IsScript text s) ⊎ ((c : ScriptCause) × RefusesScript text c) }
    ensures one_script { (text : List ℕ) (s t : Script) → IsScript text s → IsScript text t → s ≡ t }
    ensures one_cause { (text : List ℕ) (c d : ScriptCause) → RefusesScript text c → RefusesScript text d → c ≡ d }
    ensures not_both { (text : List ℕ) (s : Script) (c : ScriptCause) → IsScript text s → RefusesScript text c → ⊥ }
{}
