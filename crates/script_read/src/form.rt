// The tokens of a line, and the forms that they make: what a line books or asks for, with its strings as they stand.
ghost use Rattle.std.specs.Prelude.{◌≡◌, ◌+◌, ◌<◌, true, length};
ghost use Rattle.rdf_values.specs.{is_name};

/// A word, which is a name.
#[derive(Clone, Copy)]
pub(crate) struct Word<'a> {
    pub(crate) bytes: &'a [u8],
    pub ghost named: { is_name bytes.now ≡ true },
}

/// A string: the place of its first quote in the line, and what stands between its quotes.
#[derive(Clone, Copy)]
pub(crate) struct Quoted<'a> {
    pub(crate) place: u32,
    pub(crate) content: &'a [u8],
    pub ghost within: { place + length content.now < 65536 },
}

/// A token that is the same wherever it stands.
#[derive(Clone, Copy, Debug, PartialEq, Eq)]
pub(crate) enum FormMark {
    Equals,
    Dot,
    Open,
    Close,
    OpenBracket,
    CloseBracket,
    Comma,
}

/// A word, a canonical integer, a string, or a mark.
#[derive(Clone, Copy)]
pub(crate) enum FormToken<'a> {
    Word(Word<'a>),
    Number(i64),
    Quoted(Quoted<'a>),
    Mark(FormMark),
}

/// A token and its place in the line.
#[derive(Clone, Copy)]
pub(crate) struct TokenAt<'a> {
    pub(crate) token: FormToken<'a>,
    pub(crate) place: u32,
}

/// Two strings in their order.
pub(crate) type Pair<'a> = (Quoted<'a>, Quoted<'a>);

/// Items of which there is one at least.
#[derive(Drop)]
pub(crate) struct OneOrMore<T> {
    pub(crate) first: T,
    pub(crate) rest: Vec<T>,
}

/// What is computed over the entries of a node. A Reduce names its operation before its column; a histogram its edges, its
/// columns and its weight.
#[derive(Drop)]
pub(crate) enum Action<'a> {
    Count,
    Sum(Quoted<'a>),
    Min(Quoted<'a>),
    Max(Quoted<'a>),
    Take(Quoted<'a>),
    Reduce(Pair<'a>),
    Histo1D(OneOrMore<i64>, Quoted<'a>, Option<Quoted<'a>>),
    Histo2D(OneOrMore<i64>, OneOrMore<i64>, Quoted<'a>, Quoted<'a>, Option<Quoted<'a>>),
}

/// What is called on a node, with its strings in the order of the line: a column before its expression or its target, and the
/// columns, the values, the tags and the name of a Vary.
#[derive(Drop)]
pub(crate) enum Method<'a> {
    Define(Pair<'a>),
    Redefine(Pair<'a>),
    Alias(Pair<'a>),
    Filter(Quoted<'a>, Option<Quoted<'a>>),
    VaryOne(Quoted<'a>, Quoted<'a>, OneOrMore<Quoted<'a>>, Option<Quoted<'a>>),
    VaryAll(OneOrMore<Quoted<'a>>, Quoted<'a>, OneOrMore<Quoted<'a>>, Quoted<'a>),
    Report,
    Action(Action<'a>),
}

/// A line that has tokens.
#[derive(Drop)]
pub(crate) enum Form<'a> {
    Books {
        name: Word<'a>,
        parent: Word<'a>,
        method: Method<'a>,
    },
    Print(Word<'a>),
    VariationsFor(Word<'a>),
    Watch(Word<'a>),
}
