// Reads tokens as an expression, from the left with one token in hand.
ghost use Rattle.std.specs.Prelude.{◌≡◌, ◌≤◌, ◌<◌, Err, List, length, drop, OnOk, IfOk, IfErr, IfSome, map, true};
ghost use Rattle.rdf_values.specs.{bare, begin_values, is_name, level_of, Op, Placed as At, Punct, scan, tree_of, trees_of};
ghost use Rattle.rdf_values.specs.expressions.Tokens.{Word};
ghost use Rattle.expr_read.specs.declared.parser.Fail.TheVariants.{Memory as OutOfMemory};
ghost use Rattle.expr_read.specs.Views.{are_valid, placed_of};

use crate::lexeme::{Placed, Token};
use rdf_values::{Args, BinOp, Expr, ExprNode, ListOf, Mark, Memory, Name, VaryValues};
use std::alloc::Global;

// The level of `-` and `!`, tighter than all operators of two sides.
const UNARY: u8 = 7;

/// The next token can't stand there, or no memory could be had.
#[derive(Clone, Copy, Debug, PartialEq, Eq)]
pub(crate) enum Fail {
    Unexpected,
    Memory,
}

impl From<Memory> for Fail {
    ghost from_gives = { λ _ fail. fail ≡ OutOfMemory };

    fn from(_: Memory) -> Fail {
        Fail::Memory
    }
}

/// The level of an operator, from 1 for `||` to 6 for `*`.
pub(crate) fn level_of(op: BinOp) -> u8
    ensures { result ≡ level_of op }
{
    match op {
        BinOp::Or => 1,
        BinOp::And => 2,
        BinOp::Eq | BinOp::Ne => 3,
        BinOp::Lt | BinOp::Le | BinOp::Gt | BinOp::Ge => 4,
        BinOp::Add | BinOp::Sub => 5,
        BinOp::Mul | BinOp::Div | BinOp::Rem => 6,
    }
}

fn boxed<T: Drop>(alloc: Global, value: T) -> Result<Box<T>, Memory>
    ensures ok { IfOk result (λ held. held.value ≡ value) }
{
    Ok(Box::new(alloc, value)?)
}

// The name that a word is.
fn name(alloc: Global, word: &[u8]) -> Result<Name, Fail>
    requires { is_name word.now ≡ true }
    ensures ok { IfOk result (λ name. name ≡ word.now) }
    ensures err { IfErr result (λ e. e ≡ Fail.Memory) }
{
    match Name::read(alloc, word)? {
        Some(name) => Ok(name),
        None => unreachable!(),
    }
}

/// The tokens that are left.
#[derive(Drop)]
pub(crate) struct Parser<'a> {
    pub(crate) alloc: Global,
    pub(crate) left: &'a [Placed<'a>],
    /// Each word is a name.
    pub ghost valid: { are_valid (bare (map placed_of left.now)) ≡ true },
}

impl<'a> Parser<'a> {
    ghost use Rattle.expr_read.specs.{after_name, at_expr, at_item, at_more, Ate, Begins, BeginsNot, HasNoSign, in_list, is_valid, IsOpOf, IsStuckFrom, left_of, Sees, Stops, stuck_at, token_of, Took, TookArgs, TookList, TookLists, TookValues};

    // The next token.
    fn peek(&self) -> Option<Token<'a>>
        ensures sees { Sees (left_of self.now) result }
        ensures valid { IfSome result (λ t. is_valid (token_of t) ≡ true) }
    {
        match self.left.first() {
            Some(placed) => Some(placed.token),
            None => None,
        }
    }

    // Passes over the next token.
    fn advance(&mut self)
        requires { 0 < length self.old.left.now }
        ensures { left_of self.new ≡ drop 1 (left_of self.old) }
    {
        self.left = &self.left[1..];
    }

    // Passes over the mark if it comes next.
    fn eat(&mut self, mark: Mark) -> bool
        ensures { Ate (Punct mark) result (left_of self.old) (left_of self.new) }
    {
        match self.peek() {
            Some(Token::Punct(next)) if next == mark => {
                self.advance();
                true
            }
            _ => false,
        }
    }

    // Passes over a `-` if it comes next.
    fn eat_minus(&mut self) -> bool
        ensures { Ate (Op BinOp.Sub) result (left_of self.old) (left_of self.new) }
    {
        match self.peek() {
            Some(Token::Op(BinOp::Sub)) => {
                self.advance();
                true
            }
            _ => false,
        }
    }

    // Passes over an operator of the level.
    fn operator(&mut self, level: u8) -> Option<BinOp>
        ensures { IsOpOf level result (left_of self.old) (left_of self.new) }
    {
        match self.peek() {
            Some(Token::Op(op)) if level_of(op) == level => {
                self.advance();
                Some(op)
            }
            _ => None,
        }
    }

    // Passes over the mark, which must come next.
    fn expect(&mut self, mark: Mark) -> Result<(), Fail>
        ensures ok { OnOk result (Begins (Punct mark) (left_of self.old) (left_of self.new)) }
        ensures err { IfErr result (λ e. (e ≡ Fail.Unexpected) × (left_of self.new ≡ left_of self.old) × BeginsNot (Punct mark) (left_of self.old)) }
    {
        if self.eat(mark) {
            Ok(())
        } else {
            Err(Fail::Unexpected)
        }
    }

    /// An expression.
    #[cycle(parse)]
    pub(crate) fn expr(&mut self) -> Result<ExprNode, Fail>
        ensures took { IfOk result (λ e. Took 0 (tree_of e) (left_of self.old) (left_of self.new)) }
        ensures stops { OnOk result (Stops 0 (left_of self.new)) }
        ensures stuck { result ≡ Err Fail.Unexpected → IsStuckFrom at_expr (left_of self.old) (left_of self.new) }
    {
        let test = self.binary(1)?;
        if !self.eat(Mark::Question) {
            return Ok(test);
        }
        let a = self.expr()?;
        self.expect(Mark::Colon)?;
        let b = self.expr()?;
        let alloc = self.alloc;
        Ok(ExprNode::Cond(boxed(alloc, test)?, boxed(alloc, a)?, boxed(alloc, b)?))
    }

    // Operands that are tighter than the level, with its operators between.
    #[cycle(parse)]
    fn binary(&mut self, level: u8) -> Result<ExprNode, Fail>
        requires { (1 ≤ level) × (level ≤ 7) }
        ensures took { IfOk result (λ e. Took level (tree_of e) (left_of self.old) (left_of self.new)) }
        ensures stops { OnOk result (Stops level (left_of self.new)) }
        ensures stuck { result ≡ Err Fail.Unexpected → IsStuckFrom at_expr (left_of self.old) (left_of self.new) }
    {
        if level == UNARY {
            return self.unary();
        }
        let mut left = self.binary(level + 1)?;
        while let Some(op) = self.operator(level) {
            let right = self.binary(level + 1)?;
            left = ExprNode::Bin(op, boxed(self.alloc, left)?, boxed(self.alloc, right)?);
        }
        Ok(left)
    }

    #[cycle(parse)]
    fn unary(&mut self) -> Result<ExprNode, Fail>
        ensures took { IfOk result (λ e. Took 7 (tree_of e) (left_of self.old) (left_of self.new)) }
        ensures stops { OnOk result (Stops 7 (left_of self.new)) }
        ensures stuck { result ≡ Err Fail.Unexpected → IsStuckFrom at_expr (left_of self.old) (left_of self.new) }
    {
        if self.eat_minus() {
            let operand = self.unary()?;
            return Ok(ExprNode::Neg(boxed(self.alloc, operand)?));
        }
        if self.eat(Mark::Bang) {
            let operand = self.unary()?;
            return Ok(ExprNode::Not(boxed(self.alloc, operand)?));
        }
        self.postfix()
    }

    // A primary and the indexes after it.
    #[cycle(parse)]
    fn postfix(&mut self) -> Result<ExprNode, Fail>
        requires { HasNoSign (left_of self.old) }
        ensures took { IfOk result (λ e. Took 8 (tree_of e) (left_of self.old) (left_of self.new)) }
        ensures stops { OnOk result (Stops 8 (left_of self.new)) }
        ensures stuck { result ≡ Err Fail.Unexpected → IsStuckFrom at_expr (left_of self.old) (left_of self.new) }
    {
        let mut vector = self.primary()?;
        while self.eat(Mark::OpenBracket) {
            let index = self.expr()?;
            self.expect(Mark::CloseBracket)?;
            vector = ExprNode::Pick(boxed(self.alloc, vector)?, boxed(self.alloc, index)?);
        }
        Ok(vector)
    }

    #[cycle(parse)]
    fn primary(&mut self) -> Result<ExprNode, Fail>
        requires { HasNoSign (left_of self.old) }
        ensures took { IfOk result (λ e. Took 9 (tree_of e) (left_of self.old) (left_of self.new)) }
        ensures stuck { result ≡ Err Fail.Unexpected → IsStuckFrom at_expr (left_of self.old) (left_of self.new) }
    {
        match self.peek() {
            Some(Token::Number(n)) => {
                self.advance();
                Ok(ExprNode::Lit(n))
            }
            Some(Token::Truth(b)) => {
                self.advance();
                Ok(ExprNode::Truth(b))
            }
            Some(Token::Word(word)) => {
                self.advance();
                self.name_or_call(word)
            }
            Some(Token::Punct(Mark::Open)) => {
                self.advance();
                let inner = self.expr()?;
                self.expect(Mark::Close)?;
                Ok(inner)
            }
            _ => Err(Fail::Unexpected),
        }
    }

    // What a name is, which was passed over: a column, or the function of a call.
    #[cycle(parse)]
    fn name_or_call(&mut self, word: &[u8]) -> Result<ExprNode, Fail>
        requires { is_name word.now ≡ true }
        ensures took { IfOk result (λ e. (old : List At) → Begins (Word word.now) old (left_of self.old) → Took 9 (tree_of e) old (left_of self.new)) }
        ensures stuck { result ≡ Err Fail.Unexpected → IsStuckFrom after_name (left_of self.old) (left_of self.new) }
    {
        let name = name(self.alloc, word)?;
        if !self.eat(Mark::Open) {
            return Ok(ExprNode::Col(name));
        }
        if self.eat(Mark::Close) {
            return Ok(ExprNode::Call(name, Args::End));
        }
        let args = self.args()?;
        Ok(ExprNode::Call(name, args))
    }

    // The arguments of a call, of which there is one at least, and the `)` after them.
    #[cycle(parse)]
    fn args(&mut self) -> Result<Args, Fail>
        ensures took { IfOk result (λ e. TookArgs (trees_of e) (left_of self.old) (left_of self.new)) }
        ensures stuck { result ≡ Err Fail.Unexpected → IsStuckFrom at_more (left_of self.old) (left_of self.new) }
    {
        let first = self.expr()?;
        if self.eat(Mark::Comma) {
            let rest = self.args()?;
            return Ok(Args::More(boxed(self.alloc, first)?, boxed(self.alloc, rest)?));
        }
        self.expect(Mark::Close)?;
        Ok(Args::More(boxed(self.alloc, first)?, boxed(self.alloc, Args::End)?))
    }

    // The items of a list and its `}`, after its `{`.
    fn list(&mut self) -> Result<ListOf<Expr>, Fail>
        ensures took { IfOk result (λ items. TookList items (left_of self.old) (left_of self.new)) }
        ensures stuck { result ≡ Err Fail.Unexpected → IsStuckFrom at_item (left_of self.old) (left_of self.new) }
    {
        let mut items = ListOf::new(self.alloc);
        loop {
            let node = self.expr()?;
            items.push(Expr { node })?;
            if !self.eat(Mark::Comma) {
                self.expect(Mark::CloseBrace)?;
                return Ok(items);
            }
        }
    }

    // Lists and the outer `}`, after the `{` of the first list.
    fn lists(&mut self) -> Result<ListOf<ListOf<Expr>>, Fail>
        ensures took { IfOk result (λ lists. TookLists lists (left_of self.old) (left_of self.new)) }
        ensures stuck { result ≡ Err Fail.Unexpected → scan in_list (left_of self.old) ≡ stuck_at (left_of self.new) }
    {
        let mut lists = ListOf::new(self.alloc);
        loop {
            let list = self.list()?;
            lists.push(list)?;
            if !self.eat(Mark::Comma) {
                self.expect(Mark::CloseBrace)?;
                return Ok(lists);
            }
            self.expect(Mark::OpenBrace)?;
        }
    }

    /// The values of a variation.
    pub(crate) fn values(&mut self) -> Result<VaryValues, Fail>
        ensures took { IfOk result (λ values. TookValues values (left_of self.old) (left_of self.new)) }
        ensures stuck { result ≡ Err Fail.Unexpected → scan begin_values (left_of self.old) ≡ stuck_at (left_of self.new) }
    {
        if !self.eat(Mark::OpenBrace) {
            let node = self.expr()?;
            return Ok(VaryValues::Vector(Expr { node }));
        }
        if self.eat(Mark::OpenBrace) {
            let lists = self.lists()?;
            return Ok(VaryValues::Lists(lists));
        }
        let list = self.list()?;
        let mut lists = ListOf::new(self.alloc);
        lists.push(list)?;
        Ok(VaryValues::Lists(lists))
    }
}
