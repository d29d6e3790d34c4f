// The lines of a text.
ghost use Rattle.std.specs.Prelude.{◌≡◌, ◌∷◌, ◌++◌, ◌<◌, ◌+◌, MatchOption, length};
ghost use Rattle.shard_files.specs.Endless.{Endless};

/// The first line of a text, without its LF, and the bytes behind that; none where there is no LF.
pub fn first_line(text: &[u8]) -> Option<(&[u8], &[u8])>
    ensures cases { MatchOption result (Endless text.now) (λ p. (text.now ≡ p.0.now ++ 10 ∷ p.1.now) × Endless p.0.now) }
    ensures shorter { MatchOption result (Endless text.now) (λ p. length p.1.now < length text.now) }
{
    for (end, byte) in text.iter().enumerate() {
        if *byte == b'\n' {
            return Some((&text[..end], &text[end + 1..]));
        }
    }
    None
}
