// Reads expressions.
ghost use Rattle.std.specs.Prelude.{◌≡◌, ◌≤◌, length, map, true, IfOk, IfErr, MatchResult};
ghost use Rattle.rdf_values.specs.{bare, begin_expr, begin_values, NamedTree, Reads, ReadsText, ReadsValues, ReadsValuesText, tree_of, VaryValues as Values};
ghost use Rattle.expr_read.specs.{are_valid, place_from, placed_of, RefusesTextAs, RefusesTokensAs};

use crate::lexeme::Placed;
use crate::parser::{Fail, Parser};
use crate::tokenizer::{ExprRefusal, tokenize};
use rdf_values::{Expr, ExprCause, ExprNode, VaryValues};
use std::alloc::Global;

// The refusal of the next token, or of what is missing where the text ends.
fn unexpected(left: &[Placed], end: u32) -> ExprRefusal
    ensures { result ≡ ExprRefusal.At ExprCause.Unexpected (place_from (map placed_of left.now) end) }
{
    ExprRefusal::At {
        cause: ExprCause::Unexpected,
        place: left.first().map_or(end, |placed| placed.place),
    }
}

// The expression that all the tokens of a text are, which ends so.
fn parse(alloc: Global, tokens: &[Placed], end: u32) -> Result<ExprNode, ExprRefusal>
    requires { are_valid (bare (map placed_of tokens.now)) ≡ true }
    ensures ok { IfOk result (λ e. Reads 0 (bare (map placed_of tokens.now)) (tree_of e)) }
    ensures err { IfErr result (λ e. RefusesTokensAs begin_expr (map placed_of tokens.now) end e) }
{
    let mut parser = Parser {
        alloc,
        left: tokens,
    };
    match parser.expr() {
        Ok(node) if parser.left.is_empty() => Ok(node),
        Err(Fail::Memory) => Err(ExprRefusal::Memory),
        _ => Err(unexpected(parser.left, end)),
    }
}

/// The expression that a text is. A text of no expression is refused at its first fault, with a cause and a place: a byte
/// or a number that makes no token, the 257th token, a token that can't stand where it does, or the end of the text.
#[tactic(auto, using(std::proofs::lemmas::Result::err_from_is_err_and, crate::proofs::Decided::tokens_refused, crate::proofs::WholeReads::whole, crate::proofs::Decided::text_refused, crate::proofs::Decided::memory_alone, crate::proofs::TokenSteps::valid_tokens))]
pub fn read_expr(alloc: Global, text: &[u8]) -> Result<Expr, ExprRefusal>
    requires { length text.now ≤ 65536 }
    ensures ok { IfOk result (λ e. ReadsText text.now e) }
    ensures err { IfErr result (λ e. RefusesTextAs (Reads 0) begin_expr text.now e) }
    ensures complete { (a : NamedTree) → ReadsText text.now a → MatchResult result (λ e. e ≡ a) (λ e. e ≡ ExprRefusal.Memory) }
{
    let tokens = tokenize(alloc, text)?;
    let node = parse(alloc, tokens.as_slice(), text.len() as u32)?;
    Ok(Expr { node })
}

// The values that all the tokens of a text are, which ends so.
fn parse_values(alloc: Global, tokens: &[Placed], end: u32) -> Result<VaryValues, ExprRefusal>
    requires { are_valid (bare (map placed_of tokens.now)) ≡ true }
    ensures ok { IfOk result (λ v. ReadsValues (bare (map placed_of tokens.now)) v) }
    ensures err { IfErr result (λ e. RefusesTokensAs begin_values (map placed_of tokens.now) end e) }
{
    let mut parser = Parser {
        alloc,
        left: tokens,
    };
    match parser.values() {
        Ok(values) if parser.left.is_empty() => Ok(values),
        Err(Fail::Memory) => Err(ExprRefusal::Memory),
        _ => Err(unexpected(parser.left, end)),
    }
}

/// The values of a variation that a text is: one list or several in braces, or one expression for a vector. A text of no
/// values is refused as by `read_expr`.
#[tactic(auto, using(std::proofs::lemmas::Result::err_from_is_err_and, crate::proofs::Decided::tokens_refused, crate::proofs::WholeReads::whole_values, crate::proofs::Decided::text_refused, crate::proofs::TokenSteps::valid_tokens))]
pub fn read_values(alloc: Global, text: &[u8]) -> Result<VaryValues, ExprRefusal>
    requires { length text.now ≤ 65536 }
    ensures ok { IfOk result (λ v. ReadsValuesText text.now v) }
    ensures err { IfErr result (λ e. RefusesTextAs ReadsValues begin_values text.now e) }
    ensures complete { (v : Values) → ReadsValuesText text.now v → MatchResult result (λ x. x ≡ v) (λ e. e ≡ ExprRefusal.Memory) }
{
    let tokens = tokenize(alloc, text)?;
    parse_values(alloc, tokens.as_slice(), text.len() as u32)
}
