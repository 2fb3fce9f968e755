//! The lexer.

ghost use Rattle.std.specs.Prelude.{◌<◌, ◌≤◌, ◌^◌, length, map, vec_len, IfOk, IfErr};
ghost use Rattle.fk_lex.specs.Reading.{Tokens};
ghost use Rattle.fk_lex.specs.View.{spelled, IsFault};

use crate::bytes::is_blank;
use crate::position::Position;
use crate::step::step_at;
use crate::token::{LexFault, Token};
use std::alloc::{AllocError, Global};

/// The number of source bytes per token that the first allocation assumes.
const BYTES_A_TOKEN: usize = 4;

/// The tokens of a whole source text, or its fault at the least place.
///
/// Blanks, comments and include lines may lie between tokens. Each token is the longest one at its
/// beginning. The tokens borrow the source. The time is linear in the source. It fails too if there
/// isn't enough memory.
pub fn lex<'a>(alloc: Global, source: &'a [u8]) -> Result<Vec<Token<'a>>, LexFault>
    requires { length source.now < 2 ^ 32 }
    ensures tokens { IfOk result (λ tokens. Tokens source.now (map spelled tokens.items)) }
    // A token has at least one byte.
    ensures few { IfOk result (λ tokens. vec_len tokens ≤ length source.now) }
    ensures fault { IfErr result (λ fault. IsFault source.now fault) }
{
    let Ok(mut tokens) = Vec::with_capacity(alloc, source.len() / BYTES_A_TOKEN) else {
        return Err(LexFault::Memory(AllocError));
    };
    let mut at = Position::start();
    while at.offset < source.len() {
        let (_, rest) = source.split_at(at.offset);
        if is_blank(rest[0]) {
            at = at.next(rest[0]);
            continue;
        }
        let step = step_at(source, at, rest);
        let (bytes, _) = rest.split_at(step.size());
        let behind = at.past(step, bytes);
        if let Some(kind) = step.token(behind)? {
            let place = at.place();
            let token = Token { kind, bytes, place };
            tokens
                .push(token)
                .map_err(|_| LexFault::Memory(AllocError))?;
        }
        at = behind;
    }
    Ok(tokens)
}
