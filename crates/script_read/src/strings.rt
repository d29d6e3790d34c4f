// What the strings of a form must be: names, labels, operations, expressions and the values of a Vary.
ghost use Rattle.std.specs.Prelude.{◌≡◌, length, option_map, IfOk, IfErr};
ghost use Rattle.rdf_values.specs.{ALabel, all_strings, AName, AnExpression, AnOperation, AreNames, FirstBad, IsBad, IsMaybeLabel, IsMaybeName, IsName, maybe_wanted, operation_text, ReadsText, ReadsValuesText, SomeValues, wanted_names};
ghost use Rattle.script_read.specs.{quoted_of, RefusedFor, StandsWithin, stop_in, strings_of};

use crate::form::{OneOrMore, Quoted};
use crate::refusal::LineStop;
use expr_read::{ExprRefusal, read_expr, read_values};
use rdf_values::{Expr, Label, ListOf, Name, ReduceOp, VaryValues};
use std::alloc::Global;

/// A name.
pub(crate) fn name(alloc: Global, quoted: &Quoted<'_>) -> Result<Name, LineStop>
    ensures ok { IfOk result (λ n. IsName (quoted_of quoted.now) n) }
    ensures err { IfErr result (λ e. RefusedFor (IsBad (quoted_of quoted.now, AName)) e) }
{
    match Name::read(alloc, quoted.content)? {
        Some(name) => Ok(name),
        None => Err(LineStop::Syntax(quoted.place)),
    }
}

/// A name, if there is a string.
#[tactic(auto, using(crate::proofs::FirstBads::handed_on, crate::proofs::FirstBads::refused_here, rdf_values::specs::scripts::Statements::a_name))]
pub(crate) fn maybe_name(
    alloc: Global,
    quoted: &Option<Quoted<'_>>,
) -> Result<Option<Name>, LineStop>
    ensures ok { IfOk result (λ n. IsMaybeName (option_map quoted_of quoted.now) n) }
    ensures err { IfErr result (λ e. RefusedFor (FirstBad (maybe_wanted (option_map quoted_of quoted.now) AName)) e) }
{
    match quoted {
        Some(quoted) => Ok(Some(name(alloc, quoted)?)),
        None => Ok(None),
    }
}

/// Names, of which there is one at least.
#[tactic(auto, using(crate::proofs::FirstBads::handed_on, crate::proofs::FirstBads::refused_here, crate::proofs::Walked::all_read))]
pub(crate) fn names(
    alloc: Global,
    strings: &OneOrMore<Quoted<'_>>,
) -> Result<ListOf<Name>, LineStop>
    ensures ok { IfOk result (λ ns. AreNames (all_strings (strings_of strings.now)) ns) }
    ensures err { IfErr result (λ e. RefusedFor (FirstBad (wanted_names (all_strings (strings_of strings.now)))) e) }
{
    let mut names = ListOf::new(alloc);
    names.push(name(alloc, &strings.first)?)?;
    for quoted in &strings.rest {
        names.push(name(alloc, quoted)?)?;
    }
    Ok(names)
}

/// A label, if there is a string.
#[tactic(auto, using(crate::proofs::FirstBads::handed_on, crate::proofs::FirstBads::refused_here, rdf_values::specs::scripts::Statements::a_label))]
pub(crate) fn maybe_label(
    alloc: Global,
    quoted: &Option<Quoted<'_>>,
) -> Result<Option<Label>, LineStop>
    ensures ok { IfOk result (λ n. IsMaybeLabel (option_map quoted_of quoted.now) n) }
    ensures err { IfErr result (λ e. RefusedFor (FirstBad (maybe_wanted (option_map quoted_of quoted.now) ALabel)) e) }
{
    let Some(quoted) = quoted else {
        return Ok(None);
    };
    match Label::read(alloc, quoted.content)? {
        Some(label) => Ok(Some(label)),
        None => Err(LineStop::Syntax(quoted.place)),
    }
}

/// The operation of a Reduce.
pub(crate) fn operation(quoted: &Quoted<'_>) -> Result<ReduceOp, LineStop>
    ensures ok { IfOk result (λ o. quoted.now.content.now ≡ operation_text o) }
    ensures err { IfErr result (λ e. RefusedFor (IsBad (quoted_of quoted.now, AnOperation)) e) }
{
    match quoted.content {
        b"min" => Ok(ReduceOp::Min),
        b"max" => Ok(ReduceOp::Max),
        b"and" => Ok(ReduceOp::And),
        b"or" => Ok(ReduceOp::Or),
        b"xor" => Ok(ReduceOp::Xor),
        b"wrapadd" => Ok(ReduceOp::WrapAdd),
        _ => Err(LineStop::Syntax(quoted.place)),
    }
}

// The refusal of what a string holds, as one of the line.
fn in_line(quoted: &Quoted<'_>, refusal: ExprRefusal) -> LineStop
    requires { StandsWithin (length quoted.now.content.now) refusal }
    ensures { result ≡ stop_in (quoted_of quoted.now) refusal }
{
    match refusal {
        ExprRefusal::At { cause, place } => {
            LineStop::Expression(quoted.place + 1 + place, cause)
        }
        ExprRefusal::Memory => LineStop::Memory,
    }
}

/// An expression.
#[tactic(auto, using(crate::proofs::Walked::stands_within, crate::proofs::FirstBads::no_expression))]
pub(crate) fn expression(alloc: Global, quoted: &Quoted<'_>) -> Result<Expr, LineStop>
    ensures ok { IfOk result (λ a. ReadsText quoted.now.content.now a) }
    ensures err { IfErr result (λ e. RefusedFor (IsBad (quoted_of quoted.now, AnExpression)) e) }
{
    match read_expr(alloc, quoted.content) {
        Ok(expr) => Ok(expr),
        Err(refusal) => Err(in_line(quoted, refusal)),
    }
}

/// The values of a Vary.
#[tactic(auto, using(crate::proofs::Walked::stands_within, crate::proofs::FirstBads::no_values))]
pub(crate) fn values(alloc: Global, quoted: &Quoted<'_>) -> Result<VaryValues, LineStop>
    ensures ok { IfOk result (λ v. ReadsValuesText quoted.now.content.now v) }
    ensures err { IfErr result (λ e. RefusedFor (IsBad (quoted_of quoted.now, SomeValues)) e) }
{
    match read_values(alloc, quoted.content) {
        Ok(values) => Ok(values),
        Err(refusal) => Err(in_line(quoted, refusal)),
    }
}
