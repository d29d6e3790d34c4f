// The words of a line, one after the other.
ghost use Rattle.std.specs.Prelude.{◌≡◌, ◌≢◌, ◌≤◌, ◌∷◌, ◌<◌, [], MatchOption, length};
ghost use Rattle.shard_lines.specs.{words_behind, words_in};

/// The first word of a line's text, and what is behind it: nothing, or a space and more words.
pub fn first_word(text: &[u8]) -> (&[u8], &[u8])
    ensures words { words_in text.now ≡ result.0.now ∷ words_behind result.1.now }
    ensures rest { length result.1.now ≤ length text.now }
{
    for (end, byte) in text.iter().enumerate() {
        if *byte == b' ' {
            return (&text[..end], &text[end..]);
        }
    }
    (text, &[])
}

/// The next word behind one, if there is one, and what is behind it.
pub fn next_word(rest: &[u8]) -> Option<(&[u8], &[u8])>
    ensures words { MatchOption result (words_behind rest.now ≡ []) (λ p. words_behind rest.now ≡ p.0.now ∷ words_behind p.1.now) }
    ensures shorter { MatchOption result (rest.now ≡ []) (λ p. length p.1.now < length rest.now) }
{
    let (_, text) = rest.split_first()?;
    Some(first_word(text))
}

/// The word behind one, if it is the last one.
pub fn lone_word(rest: &[u8]) -> Option<&[u8]>
    ensures { MatchOption result (length (words_behind rest.now) ≢ 1) (λ w. words_behind rest.now ≡ w.now ∷ []) }
{
    let (word, more) = next_word(rest)?;
    match next_word(more) {
        None => Some(word),
        Some(_) => None,
    }
}
