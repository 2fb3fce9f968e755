//! The lines of the table.

use std::alloc::{AllocError, Global};

const FIRST_STRUCT: &str = "struct In { int x; };";

const VARIABLES: &str =
    "sh struct S st; sh struct S so[2]; sh int x0, ar[4]; sh unsigned x1; int f0;";

/// A question about a text.
#[derive(Clone, Copy, PartialEq, Eq, Debug)]
pub enum Question {
    /// Which rule does it break first?
    Rules,
    /// What are the facts of its types and tokens?
    Facts,
    /// What are its operations, and the frames of its functions?
    Sites,
    /// Where do its variables and group frames lie?
    Layout,
}

// The text around a piece: the structs besides the first one, and the text directly before and
// after the piece.
#[derive(Clone, Copy)]
struct Around {
    structs: &'static str,
    before: &'static str,
    behind: &'static str,
}

/// A line of the table.
#[derive(Clone, Copy)]
pub struct Row<'a> {
    pub question: Question,
    place: &'a str,
    piece: &'a str,
}

impl Question {
    // The question of a word.
    fn of(word: &str) -> Question {
        match word {
            "facts" => Question::Facts,
            "sites" => Question::Sites,
            "layout" => Question::Layout,
            _ => Question::Rules,
        }
    }
}

// The text around a piece in a question about rules or facts.
fn around_checked(place: &str) -> Around {
    let (before, behind) = match place {
        "item" => ("void main(void) { start { x0 = $; } }\n", ""),
        "asynchronous" => ("void main(void) {\n", "start { x0 = $; } }"),
        _ => ("void main(void) { start {\n", "} }"),
    };
    Around {
        structs: "struct S { int a; struct In in; int v[3]; };\nstruct T { int t; };",
        before,
        behind,
    }
}

// The text around a piece in a question about the layout.
fn around_laid(place: &str) -> Around {
    let (before, behind) = match place {
        "item" => ("", "void main(void) { }"),
        "asynchronous" => ("int af(int a) { return a; }\nvoid main(void) {\n", "}"),
        _ => (
            "sync int sf(sh int a, int b) { return a; }\nvoid main(void) { start {\n",
            "} }",
        ),
    };
    Around {
        structs: "struct S { int a; struct In in; int v[3]; struct S *next; };",
        before,
        behind,
    }
}

impl<'a> Row<'a> {
    /// The row of a line.
    pub fn of(line: &'a str) -> Row<'a> {
        let (question, rest) = line.split_once("\t").unwrap_or(("rules", line));
        let (place, piece) = rest.split_once("\t").unwrap_or(("whole", rest));
        Row {
            question: Question::of(question),
            place,
            piece,
        }
    }

    /// The text of a row. It is the piece by itself; or the piece in a line of its own in a text
    /// that declares structs and variables: among the functions, in the body of `main`, or in the
    /// body of its `start`. It fails only if there isn't enough memory.
    pub fn text(&self, alloc: Global) -> Result<String, AllocError> {
        let piece = self.piece;
        if self.place == "whole" {
            return format!(in alloc; "{piece}\n");
        }
        let around = match self.question {
            Question::Rules | Question::Facts => around_checked(self.place),
            Question::Sites | Question::Layout => around_laid(self.place),
        };
        let (structs, before, behind) = (around.structs, around.before, around.behind);
        format!(in alloc; "{FIRST_STRUCT}\n{structs}\n{VARIABLES}\n{before}{piece}\n{behind}\n")
    }
}
