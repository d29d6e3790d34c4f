// Cuts a text into tokens.
ghost use Rattle.std.specs.Prelude.{◌≡◌, ◌≤◌, ℕ, Ok, map, length, MatchResult};
ghost use Rattle.rdf_values.specs.{is_blank, tokens};
ghost use Rattle.rdf_values.specs.expressions.Tokens.{too_many};
ghost use Rattle.expr_read.specs.{first_of, IsRefusalOf, placed_of};

use crate::lexeme::{First, Placed, first_token};
use rdf_values::ExprCause;
use std::alloc::Global;

const MOST_TOKENS: usize = 256;

/// A text is refused for a cause at a place, or no memory could be had.
#[derive(Clone, Copy, Debug, PartialEq, Eq)]
pub enum ExprRefusal {
    /// The place counts bytes from the beginning of the text, from 0.
    At { cause: ExprCause, place: u32 },
    Memory,
}

fn is_blank(byte: u8) -> bool
    ensures { result ≡ is_blank byte }
{
    byte == b' ' || byte == b'\t'
}

// Why no token may begin where this one does, which is one too many.
fn cause_at_limit(first: &First<'_>) -> ExprCause
    ensures { (place : ℕ) → too_many place (first_of first.now) ≡ record { cause = result; place = place } }
{
    match first {
        Err(misread) if misread.1 == 0 => misread.0,
        _ => ExprCause::TooLong,
    }
}

/// The tokens of a text.
pub(crate) fn tokenize(alloc: Global, text: &[u8]) -> Result<Vec<Placed<'_>>, ExprRefusal>
    requires { length text.now ≤ 65536 }
    ensures { MatchResult result (λ v. tokens text.now ≡ Ok (map placed_of v.items)) (λ e. IsRefusalOf (tokens text.now) e) }
{
    let mut found = Vec::new(alloc);
    let mut place = 0;
    while place < text.len() {
        if is_blank(text[place]) {
            place += 1;
            continue;
        }
        let first = first_token(&text[place..]);
        if found.len() == MOST_TOKENS {
            return Err(ExprRefusal::At {
                cause: cause_at_limit(&first),
                place: place as u32,
            });
        }
        let (token, size) = match first {
            Ok(lexeme) => lexeme,
            Err(misread) => {
                return Err(ExprRefusal::At {
                    cause: misread.0,
                    place: (place + misread.1) as u32,
                });
            }
        };
        let placed = Placed {
            token,
            place: place as u32,
        };
        if found.push(placed).is_err() {
            return Err(ExprRefusal::Memory);
        }
        place += size;
    }
    Ok(found)
}
