//! Answers questions about a table of texts. Each line of the input has a question, a tab, the
//! place of a piece of text, a tab and the piece.
//!
//! For `rules` the program prints the first rule that the text breaks. For a text that breaks none
//! it prints: for `facts` its kinds and the notes of its tokens; for `sites` its operations and the
//! frames of its functions; for `layout` where its variables and group frames lie.
#![tactic(auto)]

mod laid;
mod row;
mod rules;
mod told;

use row::Row;
use rules::answer_for;
use std::io;

fn main(rt: HostRuntime) -> io::Result<()> {
    for line in rt.lines(rt.alloc()) {
        let line = line?;
        let row = Row::of(line.as_str());
        let text = row.text(rt.alloc())?;
        let answer = answer_for(rt.alloc(), row.question, text.as_str().as_bytes())?;
        print!(rt; "{answer}")?;
    }
    Ok(())
}
