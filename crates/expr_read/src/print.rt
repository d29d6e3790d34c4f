// Prints expressions.
ghost use Rattle.std.specs.Prelude.{◌≡◌, ◌++◌, nat_le, OnOk, IfOk, List, ℕ};
ghost use Rattle.std.specs.Fmt.{signed_decimal};
ghost use Rattle.rdf_values.specs.{args_text, in_parens, more_text, op_text, ReadsText, text_of, tree_level, tree_of, trees_of};

use crate::parser::level_of;
use rdf_values::{Args, BinOp, Expr, ExprNode, Memory, Text};
use std::alloc::Global;

// The tightest level at which an expression stands without parentheses.
fn tree_level(node: &ExprNode) -> u8
    ensures { result ≡ tree_level (tree_of node.now) }
{
    match node {
        ExprNode::Cond(_, _, _) => 0,
        ExprNode::Bin(op, _, _) => level_of(*op),
        ExprNode::Neg(_) | ExprNode::Not(_) => 7,
        ExprNode::Pick(_, _) => 8,
        _ => 9,
    }
}

fn op_text(op: BinOp) -> &'static [u8]
    ensures { result.now ≡ op_text op }
{
    match op {
        BinOp::Mul => b" * ".as_slice(),
        BinOp::Div => b" / ".as_slice(),
        BinOp::Rem => b" % ".as_slice(),
        BinOp::Add => b" + ".as_slice(),
        BinOp::Sub => b" - ".as_slice(),
        BinOp::Lt => b" < ".as_slice(),
        BinOp::Le => b" <= ".as_slice(),
        BinOp::Gt => b" > ".as_slice(),
        BinOp::Ge => b" >= ".as_slice(),
        BinOp::Eq => b" == ".as_slice(),
        BinOp::Ne => b" != ".as_slice(),
        BinOp::And => b" && ".as_slice(),
        BinOp::Or => b" || ".as_slice(),
    }
}

#[cycle(print)]
fn write_enclosed(out: &mut Text, alloc: Global, node: &ExprNode, level: u8) -> Result<(), Memory>
    ensures { OnOk result (out.new ≡ out.old ++ in_parens (nat_le level (tree_level (tree_of node.now))) (text_of (tree_of node.now))) }
{
    if level <= tree_level(node) {
        return write_node(out, alloc, node);
    }
    out.extend(b"(".as_slice())?;
    write_node(out, alloc, node)?;
    out.extend(b")".as_slice())
}

fn write_number(out: &mut Text, alloc: Global, n: i64) -> Result<(), Memory>
    ensures { OnOk result (out.new ≡ out.old ++ signed_decimal n) }
{
    let text = format!(in alloc; "{n}")?;
    out.extend(text.as_str().as_bytes())
}

#[cycle(print)]
fn write_node(out: &mut Text, alloc: Global, node: &ExprNode) -> Result<(), Memory>
    ensures { OnOk result (out.new ≡ out.old ++ text_of (tree_of node.now)) }
{
    match node {
        ExprNode::Lit(n) => write_number(out, alloc, *n),
        ExprNode::Truth(true) => out.extend(b"true".as_slice()),
        ExprNode::Truth(false) => out.extend(b"false".as_slice()),
        ExprNode::Col(name) => out.extend(name.bytes()),
        ExprNode::Neg(a) => {
            out.extend(b"-".as_slice())?;
            write_enclosed(out, alloc, a, 7)
        }
        ExprNode::Not(a) => {
            out.extend(b"!".as_slice())?;
            write_enclosed(out, alloc, a, 7)
        }
        ExprNode::Bin(op, a, b) => {
            let level = level_of(*op);
            write_enclosed(out, alloc, a, level)?;
            out.extend(op_text(*op))?;
            write_enclosed(out, alloc, b, level + 1)
        }
        ExprNode::Cond(test, a, b) => {
            write_enclosed(out, alloc, test, 1)?;
            out.extend(b" ? ".as_slice())?;
            write_node(out, alloc, a)?;
            out.extend(b" : ".as_slice())?;
            write_node(out, alloc, b)
        }
        ExprNode::Pick(vector, index) => {
            write_enclosed(out, alloc, vector, 8)?;
            out.extend(b"[".as_slice())?;
            write_node(out, alloc, index)?;
            out.extend(b"]".as_slice())
        }
        ExprNode::Call(name, args) => {
            out.extend(name.bytes())?;
            out.extend(b"(".as_slice())?;
            write_args(out, alloc, args)?;
            out.extend(b")".as_slice())
        }
    }
}

#[cycle(print)]
fn write_args(out: &mut Text, alloc: Global, args: &Args) -> Result<(), Memory>
    ensures { OnOk result (out.new ≡ out.old ++ args_text (trees_of args.now)) }
{
    match args {
        Args::End => Ok(()),
        Args::More(first, rest) => {
            write_node(out, alloc, first)?;
            write_more(out, alloc, rest)
        }
    }
}

// The arguments after the first.
#[cycle(print)]
fn write_more(out: &mut Text, alloc: Global, args: &Args) -> Result<(), Memory>
    ensures { OnOk result (out.new ≡ out.old ++ more_text (trees_of args.now)) }
{
    match args {
        Args::End => Ok(()),
        Args::More(next, rest) => {
            out.extend(b", ".as_slice())?;
            write_node(out, alloc, next)?;
            write_more(out, alloc, rest)
        }
    }
}

/// The canonical text of an expression, with the fewest parentheses. For an expression that was read from a text it reads
/// as this expression again.
#[tactic(auto, using(std::proofs::lemmas::Grind::common_steps, crate::proofs::Decided::reads_back))]
pub fn print_expr(alloc: Global, expr: &Expr) -> Result<Text, Memory>
    ensures text { IfOk result (λ out. out ≡ text_of expr.now) }
    ensures back { IfOk result (λ out. (text : List ℕ) → ReadsText text expr.now → ReadsText out expr.now) }
{
    let mut out = Text::new(alloc);
    write_node(&mut out, alloc, &expr.node)?;
    Ok(out)
}
