// Reads the tokens of a line as a form, from the left with one token in hand.
ghost use Rattle.std.specs.Prelude.{◌≡◌, ◌<◌, ℕ, List, [], ◌∷◌, ◌++◌, Ok, Err, map, drop, true, false, length, OnOk, IfOk, IfErr, MatchOption, option_map};
ghost use Rattle.rdf_values.specs.{arguments, bare_tokens, Close as AsClose, Comma as AsComma, edges_tokens, is_free as is_free_word, IsForm, line_tokens, maybe_string, method_word, Open as AsOpen, Quoted as AsQuoted, RefusesLine, strings_tokens};
ghost use Rattle.rdf_values.specs.scripts.LineForms.{call};
ghost use Rattle.rdf_values.specs.scripts.LineTokens.{Word as AsWord, Number as AsNumber};
ghost use Rattle.script_read.specs.declared.walk.MethodName.{MethodName as AnyMethod};
ghost use Rattle.script_read.specs.declared.walk.WalkFail.TheVariants.{Memory as OutOfMemory};
ghost use Rattle.script_read.specs.{action_of, ALine, AMark, AMethod, ANumber, arguments_wants, asked_form, asking_wants, AString, Ate, AWord, Begins, booking_wants, edges_of, edges_wants, form_of, IsStuck, mark_token, MaybeString, method_of, name_word, one_string_wants, place_from, placed_of, quoted_of, RefusedFor, SeesMethod, strings_of, strings_wants, token_of, Took, TookArguments, TookBooking, TookForm, two_string_wants, variation_wants, Want as AnyWant};

use crate::form::{
    Action, Form, FormMark, FormToken, Method, OneOrMore, Pair, Quoted, TokenAt, Word,
};
use crate::refusal::LineStop;
use std::alloc::{AllocFailed, Global};

/// The next token can't stand there, or no memory could be had.
#[derive(Clone, Copy, Debug, PartialEq, Eq)]
enum WalkFail {
    Unexpected,
    Memory,
}

impl<T: Drop> From<AllocFailed<T>> for WalkFail {
    ghost from_gives = { λ _ fail. fail ≡ OutOfMemory };

    fn from(_: AllocFailed<T>) -> WalkFail {
        WalkFail::Memory
    }
}

/// What an action is called.
#[derive(Clone, Copy, Debug, PartialEq, Eq)]
enum ActionName {
    Count,
    Sum,
    Min,
    Max,
    Take,
    Reduce,
    Histo1D,
    Histo2D,
}

/// What a method is called.
#[derive(Clone, Copy, Debug, PartialEq, Eq)]
enum MethodName {
    Define,
    Redefine,
    Alias,
    Filter,
    Vary,
    Report,
    Action(ActionName),
}

// The method that the word names.
fn method_name(word: &[u8]) -> Option<MethodName>
    ensures { MatchOption result ((n : AnyMethod) → word.now ≡ name_word n → ⊥) (λ n. word.now ≡ name_word n) }
{
    match word {
        b"Define" => Some(MethodName::Define),
        b"Redefine" => Some(MethodName::Redefine),
        b"Alias" => Some(MethodName::Alias),
        b"Filter" => Some(MethodName::Filter),
        b"Vary" => Some(MethodName::Vary),
        b"Report" => Some(MethodName::Report),
        b"Count" => Some(MethodName::Action(ActionName::Count)),
        b"Sum" => Some(MethodName::Action(ActionName::Sum)),
        b"Min" => Some(MethodName::Action(ActionName::Min)),
        b"Max" => Some(MethodName::Action(ActionName::Max)),
        b"Take" => Some(MethodName::Action(ActionName::Take)),
        b"Reduce" => Some(MethodName::Action(ActionName::Reduce)),
        b"Histo1D" => Some(MethodName::Action(ActionName::Histo1D)),
        b"Histo2D" => Some(MethodName::Action(ActionName::Histo2D)),
        _ => None,
    }
}

// Whether a name in a line may be this word.
fn is_free(word: &[u8]) -> bool
    ensures { result ≡ is_free_word word.now }
{
    !(word == b"Print".as_slice()
        || word == b"VariationsFor".as_slice()
        || word == b"Watch".as_slice())
}

// The line that asks for a result by that word.
fn asked<'a>(word: &[u8], name: Word<'a>) -> Form<'a>
    requires { is_free_word word.now ≡ false }
    ensures { form_of result ≡ asked_form word.now name.entry.bytes.now }
{
    if word == b"Print".as_slice() {
        Form::Print(name)
    } else if word == b"VariationsFor".as_slice() {
        Form::VariationsFor(name)
    } else {
        Form::Watch(name)
    }
}

/// The tokens that are left.
#[derive(Drop)]
struct Walk<'t, 'a> {
    alloc: Global,
    left: &'t [TokenAt<'a>],
}

impl<'t, 'a> Walk<'t, 'a> {
    ghost use Rattle.script_read.specs.{left_of};

    // The next token.
    #[tactic(auto, using(std::proofs::lemmas::Grind::common_steps, crate::proofs::Walked::stuck_empty))]
    fn peek(&self) -> Result<FormToken<'a>, WalkFail>
        ensures sees { IfOk result (λ t. Begins (token_of t) (left_of self.now) (drop 1 (left_of self.now))) }
        ensures ends { IfErr result (λ e. left_of self.now ≡ []) }
        ensures stuck { IfErr result (λ e. (w : AnyWant) → IsStuck (w ∷ []) (left_of self.now) (left_of self.now)) }
    {
        match self.left.first() {
            Some(placed) => Ok(placed.token),
            None => Err(WalkFail::Unexpected),
        }
    }

    // Passes over the next token.
    fn advance(&mut self)
        requires { 0 < length self.old.left.now }
        ensures { left_of self.new ≡ drop 1 (left_of self.old) }
    {
        self.left = &self.left[1..];
    }

    // Passes over the mark if it comes next.
    fn eat(&mut self, mark: FormMark) -> bool
        ensures { Ate mark result (left_of self.old) (left_of self.new) }
    {
        match self.peek() {
            Ok(FormToken::Mark(next)) if next == mark => {
                self.advance();
                true
            }
            _ => false,
        }
    }

    #[tactic(auto, using(crate::proofs::Walked::took_mark, crate::proofs::Walked::stuck_mark))]
    fn expect(&mut self, mark: FormMark) -> Result<(), WalkFail>
        ensures took { OnOk result (Took (AMark mark ∷ []) (mark_token mark ∷ []) (left_of self.old) (left_of self.new)) }
        ensures stuck { result ≡ Err WalkFail.Unexpected → IsStuck (AMark mark ∷ []) (left_of self.old) (left_of self.new) }
    {
        if self.eat(mark) {
            Ok(())
        } else {
            Err(WalkFail::Unexpected)
        }
    }

    fn string(&mut self) -> Result<Quoted<'a>, WalkFail>
        ensures took { IfOk result (λ q. Took (AString ∷ []) (AsQuoted (quoted_of q) ∷ []) (left_of self.old) (left_of self.new)) }
        ensures stuck { result ≡ Err WalkFail.Unexpected → IsStuck (AString ∷ []) (left_of self.old) (left_of self.new) }
    {
        let FormToken::Quoted(text) = self.peek()? else {
            return Err(WalkFail::Unexpected);
        };
        self.advance();
        Ok(text)
    }

    fn number(&mut self) -> Result<i64, WalkFail>
        ensures took { IfOk result (λ z. Took (ANumber ∷ []) (AsNumber z ∷ []) (left_of self.old) (left_of self.new)) }
        ensures stuck { result ≡ Err WalkFail.Unexpected → IsStuck (ANumber ∷ []) (left_of self.old) (left_of self.new) }
    {
        let FormToken::Number(n) = self.peek()? else {
            return Err(WalkFail::Unexpected);
        };
        self.advance();
        Ok(n)
    }

    // The name of a node or a result.
    #[tactic(auto, using(crate::proofs::Walked::stuck_token, crate::proofs::Walked::not_free, crate::proofs::Walked::no_word))]
    fn name(&mut self) -> Result<Word<'a>, WalkFail>
        ensures took { IfOk result (λ w. Took (AWord ∷ []) (AsWord w.bytes.now ∷ []) (left_of self.old) (left_of self.new)) }
        ensures free { IfOk result (λ w. is_free_word w.bytes.now ≡ true) }
        ensures stuck { result ≡ Err WalkFail.Unexpected → IsStuck (AWord ∷ []) (left_of self.old) (left_of self.new) }
    {
        match self.peek()? {
            FormToken::Word(word) if is_free(word.bytes) => {
                self.advance();
                Ok(word)
            }
            _ => Err(WalkFail::Unexpected),
        }
    }

    // A string and the `)` of the call.
    fn last_string(&mut self) -> Result<Quoted<'a>, WalkFail>
        ensures took { IfOk result (λ q. Took one_string_wants (AsQuoted (quoted_of q) ∷ AsClose ∷ []) (left_of self.old) (left_of self.new)) }
        ensures stuck { result ≡ Err WalkFail.Unexpected → IsStuck one_string_wants (left_of self.old) (left_of self.new) }
    {
        let text = self.string()?;
        self.expect(FormMark::Close)?;
        Ok(text)
    }

    // Two strings and the `)` of the call.
    fn two_strings(&mut self) -> Result<Pair<'a>, WalkFail>
        ensures took { IfOk result (λ p. Took two_string_wants (AsQuoted (quoted_of p.0) ∷ AsComma ∷ AsQuoted (quoted_of p.1) ∷ AsClose ∷ []) (left_of self.old) (left_of self.new)) }
        ensures stuck { result ≡ Err WalkFail.Unexpected → IsStuck two_string_wants (left_of self.old) (left_of self.new) }
    {
        let first = self.string()?;
        self.expect(FormMark::Comma)?;
        let second = self.last_string()?;
        Ok((first, second))
    }

    // A further string or none, and the `)` of the call.
    #[tactic(auto, using(crate::proofs::Walked::none_wanted, std::proofs::lemmas::Grind::common_steps, crate::proofs::Walked::took_none))]
    fn maybe_string(&mut self) -> Result<Option<Quoted<'a>>, WalkFail>
        ensures took { IfOk result (λ o. Took (MaybeString ∷ []) (maybe_string (option_map quoted_of o) ++ AsClose ∷ []) (left_of self.old) (left_of self.new)) }
        ensures stuck { result ≡ Err WalkFail.Unexpected → IsStuck (MaybeString ∷ []) (left_of self.old) (left_of self.new) }
    {
        if self.eat(FormMark::Comma) {
            let text = self.last_string()?;
            return Ok(Some(text));
        }
        self.expect(FormMark::Close)?;
        Ok(None)
    }

    // A list of strings.
    fn strings(&mut self) -> Result<OneOrMore<Quoted<'a>>, WalkFail>
        ensures took { IfOk result (λ s. Took strings_wants (strings_tokens (strings_of s)) (left_of self.old) (left_of self.new)) }
        ensures stuck { result ≡ Err WalkFail.Unexpected → IsStuck strings_wants (left_of self.old) (left_of self.new) }
    {
        self.expect(FormMark::OpenBracket)?;
        let first = self.string()?;
        let mut rest = Vec::new(self.alloc);
        while self.eat(FormMark::Comma) {
            let text = self.string()?;
            rest.push(text)?;
        }
        self.expect(FormMark::CloseBracket)?;
        Ok(OneOrMore { first, rest })
    }

    // A list of edges.
    fn edges(&mut self) -> Result<OneOrMore<i64>, WalkFail>
        ensures took { IfOk result (λ s. Took edges_wants (edges_tokens (edges_of s)) (left_of self.old) (left_of self.new)) }
        ensures stuck { result ≡ Err WalkFail.Unexpected → IsStuck edges_wants (left_of self.old) (left_of self.new) }
    {
        self.expect(FormMark::OpenBracket)?;
        let first = self.number()?;
        let mut rest = Vec::new(self.alloc);
        while self.eat(FormMark::Comma) {
            let edge = self.number()?;
            rest.push(edge)?;
        }
        self.expect(FormMark::CloseBracket)?;
        Ok(OneOrMore { first, rest })
    }

    // The name of the method that comes next.
    fn peek_method(&self) -> Result<MethodName, WalkFail>
        ensures sees { IfOk result (λ n. SeesMethod n (left_of self.now)) }
        ensures stuck { result ≡ Err WalkFail.Unexpected → IsStuck (AMethod ∷ []) (left_of self.now) (left_of self.now) }
    {
        let FormToken::Word(word) = self.peek()? else {
            return Err(WalkFail::Unexpected);
        };
        match method_name(word.bytes) {
            Some(name) => Ok(name),
            None => Err(WalkFail::Unexpected),
        }
    }

    // The values and the tags of a variation, behind its columns.
    fn variation(&mut self) -> Result<(Quoted<'a>, OneOrMore<Quoted<'a>>), WalkFail>
        ensures took { IfOk result (λ p. Took variation_wants (AsComma ∷ AsQuoted (quoted_of p.0) ∷ AsComma ∷ strings_tokens (strings_of p.1)) (left_of self.old) (left_of self.new)) }
        ensures stuck { result ≡ Err WalkFail.Unexpected → IsStuck variation_wants (left_of self.old) (left_of self.new) }
    {
        self.expect(FormMark::Comma)?;
        let values = self.string()?;
        self.expect(FormMark::Comma)?;
        let tags = self.strings()?;
        Ok((values, tags))
    }

    fn vary(&mut self) -> Result<Method<'a>, WalkFail>
        ensures took { IfOk result (λ m. TookArguments MethodName.Vary (method_of m) (left_of self.old) (left_of self.new)) }
        ensures stuck { result ≡ Err WalkFail.Unexpected → IsStuck (arguments_wants MethodName.Vary) (left_of self.old) (left_of self.new) }
    {
        match self.peek()? {
            FormToken::Quoted(column) => {
                self.advance();
                let (values, tags) = self.variation()?;
                let name = self.maybe_string()?;
                Ok(Method::VaryOne(column, values, tags, name))
            }
            _ => {
                let columns = self.strings()?;
                let (values, tags) = self.variation()?;
                self.expect(FormMark::Comma)?;
                let name = self.last_string()?;
                Ok(Method::VaryAll(columns, values, tags, name))
            }
        }
    }

    fn histo1d(&mut self) -> Result<Action<'a>, WalkFail>
        ensures took { IfOk result (λ a. TookArguments (MethodName.Action ActionName.Histo1D) (action_of a) (left_of self.old) (left_of self.new)) }
        ensures stuck { result ≡ Err WalkFail.Unexpected → IsStuck (arguments_wants (MethodName.Action ActionName.Histo1D)) (left_of self.old) (left_of self.new) }
    {
        let x_edges = self.edges()?;
        self.expect(FormMark::Comma)?;
        let x = self.string()?;
        let weight = self.maybe_string()?;
        Ok(Action::Histo1D(x_edges, x, weight))
    }

    fn histo2d(&mut self) -> Result<Action<'a>, WalkFail>
        ensures took { IfOk result (λ a. TookArguments (MethodName.Action ActionName.Histo2D) (action_of a) (left_of self.old) (left_of self.new)) }
        ensures stuck { result ≡ Err WalkFail.Unexpected → IsStuck (arguments_wants (MethodName.Action ActionName.Histo2D)) (left_of self.old) (left_of self.new) }
    {
        let x_edges = self.edges()?;
        self.expect(FormMark::Comma)?;
        let y_edges = self.edges()?;
        self.expect(FormMark::Comma)?;
        let x = self.string()?;
        self.expect(FormMark::Comma)?;
        let y = self.string()?;
        let weight = self.maybe_string()?;
        Ok(Action::Histo2D(x_edges, y_edges, x, y, weight))
    }

    fn action_arguments(&mut self, name: ActionName) -> Result<Action<'a>, WalkFail>
        ensures took { IfOk result (λ a. TookArguments (MethodName.Action name) (action_of a) (left_of self.old) (left_of self.new)) }
        ensures stuck { result ≡ Err WalkFail.Unexpected → IsStuck (arguments_wants (MethodName.Action name)) (left_of self.old) (left_of self.new) }
    {
        match name {
            ActionName::Count => {
                self.expect(FormMark::Close)?;
                Ok(Action::Count)
            }
            ActionName::Sum => Ok(Action::Sum(self.last_string()?)),
            ActionName::Min => Ok(Action::Min(self.last_string()?)),
            ActionName::Max => Ok(Action::Max(self.last_string()?)),
            ActionName::Take => Ok(Action::Take(self.last_string()?)),
            ActionName::Reduce => Ok(Action::Reduce(self.two_strings()?)),
            ActionName::Histo1D => self.histo1d(),
            ActionName::Histo2D => self.histo2d(),
        }
    }

    // What stands in the parentheses of a method, and the `)`.
    fn arguments(&mut self, name: MethodName) -> Result<Method<'a>, WalkFail>
        ensures took { IfOk result (λ m. TookArguments name (method_of m) (left_of self.old) (left_of self.new)) }
        ensures stuck { result ≡ Err WalkFail.Unexpected → IsStuck (arguments_wants name) (left_of self.old) (left_of self.new) }
    {
        match name {
            MethodName::Define => Ok(Method::Define(self.two_strings()?)),
            MethodName::Redefine => Ok(Method::Redefine(self.two_strings()?)),
            MethodName::Alias => Ok(Method::Alias(self.two_strings()?)),
            MethodName::Filter => {
                let expr = self.string()?;
                let label = self.maybe_string()?;
                Ok(Method::Filter(expr, label))
            }
            MethodName::Vary => self.vary(),
            MethodName::Report => {
                self.expect(FormMark::Close)?;
                Ok(Method::Report)
            }
            MethodName::Action(action) => Ok(Method::Action(self.action_arguments(action)?)),
        }
    }

    // A method, from its name to its `)`.
    fn method(&mut self) -> Result<Method<'a>, WalkFail>
        ensures took { IfOk result (λ m. Took (AMethod ∷ []) (call (method_word (method_of m)) (arguments (method_of m))) (left_of self.old) (left_of self.new)) }
        ensures stuck { result ≡ Err WalkFail.Unexpected → IsStuck (AMethod ∷ []) (left_of self.old) (left_of self.new) }
    {
        let name = self.peek_method()?;
        self.advance();
        self.expect(FormMark::Open)?;
        self.arguments(name)
    }

    // What books the name, behind it.
    #[tactic(auto, using(crate::proofs::Walked::took_booking))]
    fn booking(&mut self, name: Word<'a>) -> Result<Form<'a>, WalkFail>
        requires { is_free_word name.bytes.now ≡ true }
        ensures took { IfOk result (λ f. TookBooking name.entry.bytes.now (form_of f) (left_of self.old) (left_of self.new)) }
        ensures stuck { result ≡ Err WalkFail.Unexpected → IsStuck booking_wants (left_of self.old) (left_of self.new) }
    {
        self.expect(FormMark::Equals)?;
        let parent = self.name()?;
        self.expect(FormMark::Dot)?;
        let method = self.method()?;
        Ok(Form::Books {
            name,
            parent,
            method,
        })
    }

    // The result that is asked for, in parentheses.
    fn asking(&mut self) -> Result<Word<'a>, WalkFail>
        ensures took { IfOk result (λ w. (is_free_word w.bytes.now ≡ true) × Took asking_wants (AsOpen ∷ AsWord w.bytes.now ∷ AsClose ∷ []) (left_of self.old) (left_of self.new)) }
        ensures stuck { result ≡ Err WalkFail.Unexpected → IsStuck asking_wants (left_of self.old) (left_of self.new) }
    {
        self.expect(FormMark::Open)?;
        let name = self.name()?;
        self.expect(FormMark::Close)?;
        Ok(name)
    }

    #[tactic(auto, using(crate::proofs::Walked::stuck_token, crate::proofs::Walked::no_word, crate::proofs::Walked::took_line))]
    fn line(&mut self) -> Result<Form<'a>, WalkFail>
        ensures took { IfOk result (λ f. TookForm (form_of f) (left_of self.old) (left_of self.new)) }
        ensures stuck { result ≡ Err WalkFail.Unexpected → IsStuck (ALine ∷ []) (left_of self.old) (left_of self.new) }
    {
        let FormToken::Word(first) = self.peek()? else {
            return Err(WalkFail::Unexpected);
        };
        self.advance();
        if is_free(first.bytes) {
            self.booking(first)
        } else {
            let name = self.asking()?;
            Ok(asked(first.bytes, name))
        }
    }
}

// The refusal of the next token, or of what is missing where the line ends.
fn stuck(left: &[TokenAt], end: u32) -> LineStop
    ensures { result ≡ LineStop.Syntax (place_from (map placed_of left.now) end) }
{
    LineStop::Syntax(left.first().map_or(end, |placed| placed.place))
}

/// The form that the tokens of a line are; the line has so many bytes.
pub(crate) fn read_form<'a>(
    alloc: Global,
    tokens: &[TokenAt<'a>],
    end: u32,
) -> Result<Form<'a>, LineStop>
    requires { 0 < length tokens.now }
    ensures ok { IfOk result (λ f. IsForm (bare_tokens (map placed_of tokens.now)) (form_of f)) }
    ensures err { IfErr result (λ e. (line : List ℕ) → line_tokens line ≡ Ok (map placed_of tokens.now) → length line ≡ end → RefusedFor (RefusesLine line) e) }
{
    let mut walk = Walk {
        alloc,
        left: tokens,
    };
    match walk.line() {
        Ok(form) if walk.left.is_empty() => Ok(form),
        Ok(_) => Err(stuck(walk.left, end)),
        Err(WalkFail::Unexpected) => Err(stuck(walk.left, end)),
        Err(WalkFail::Memory) => Err(LineStop::Memory),
    }
}
