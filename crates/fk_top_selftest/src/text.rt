//! The generator of the text.

ghost use Rattle.std.specs.Prelude.{◌≡◌, string_bytes, IfOk};
ghost use Rattle.fk_top_selftest.specs.Generated.{generated, statement};

use std::alloc::{AllocError, Global};

/// The lines before the statements.
const HEAD: &[u8] = b"sh int c[8];
sync void turn(sh int j, int m) { int i; for (i = 0; i < $ % m; i++) mpadd(&c[j], 1); }
void main(void) { start {
";

/// The line behind the statements.
const TAIL: &[u8] = b"} }\n";

/// The text with this many statements, a line each. Fails if there isn't enough memory.
pub fn generate(alloc: Global, statements: u32) -> Result<Vec<u8>, AllocError>
    ensures { IfOk result (λ text. text.items ≡ generated statements) }
{
    let mut text = Vec::new(alloc);
    text.extend_from_slice(HEAD)?;
    for index in 0..statements {
        text.extend_from_slice(statement(alloc, index + 1)?.as_bytes())?;
        text.extend_from_slice(b"\n")?;
    }
    text.extend_from_slice(TAIL)?;
    Ok(text)
}

// The statement of this number. Fails if there isn't enough memory.
fn statement(alloc: Global, number: u32) -> Result<String, AllocError>
    ensures { IfOk result (λ text. string_bytes text ≡ statement number) }
{
    let word = number % 8;
    let amount = number % 9 + 1;
    let bound = number % 7 + 1;
    let parts = number % 5 + 1;
    match number % 6 {
        0 => format!(in alloc; "mpadd(&c[{word}], {amount});"),
        1 => {
            format!(in alloc; "if ($ % 2 == 0) mpadd(&c[{word}], 1); else mpadd(&c[{word}], 2);")
        }
        2 => format!(in alloc; "turn({word}, {bound});"),
        3 => {
            format!(in alloc;
                "fork ({parts}; @=$%{parts}; $=$/{parts}) mpadd(&c[{word}], groupsize());"
            )
        }
        4 => format!(in alloc; "farm mpadd(&c[{word}], {amount});"),
        _ => format!(in alloc; "seq c[{word}] = c[{word}] + {amount};"),
    }
}
