//! The written form of an answer.

use crate::laid::{SitesAndFrames, Tables};
use crate::rules::{Answer, Checked};
use fk_layout::LayoutFault;
use fk_lex::token::Token;
use fk_syntax::{Kind, Note};
use std::fmt;

// A note without facts.
const NOTHING: Note = Note {
    kind: 0,
    binding: 0,
    sync: false,
    shared: false,
    splits: false,
};

// A kind and its number.
#[derive(Clone, Copy)]
struct NumberedKind<'k>(usize, &'k Kind);

// The kinds of a text, one in each line.
#[derive(Clone, Copy)]
struct Kinds<'k>(&'k [Kind]);

// A token and its note.
#[derive(Clone, Copy)]
struct NotedToken<'t, 'a>(&'t Token<'a>, &'t Note);

// The tokens of a text and their notes: one line for each note that has facts.
#[derive(Clone, Copy)]
struct NotedTokens<'t, 'a>(&'t [Token<'a>], &'t [Note]);

// Why a program has no layout.
#[derive(Clone, Copy)]
struct TooLarge(LayoutFault);

/// A word if it applies, else no word.
pub(crate) fn word_if(is_so: bool, word: &'static str) -> &'static str {
    if is_so { word } else { "" }
}

impl<'k> fmt::Display for NumberedKind<'k> {
    fn fmt<W: fmt::Write>(&self, f: &mut fmt::Formatter<W>) -> fmt::Result {
        let kind = self.1;
        let unsigned = word_if(kind.unsigned, ", unsigned");
        let array = word_if(kind.array, ", array");
        write!(
            f,
            "kind {}: words {}, step {}",
            self.0, kind.words, kind.step
        )?;
        write!(f, "{unsigned}{array}")
    }
}

impl<'t, 'a> fmt::Display for NotedToken<'t, 'a> {
    fn fmt<W: fmt::Write>(&self, f: &mut fmt::Formatter<W>) -> fmt::Result {
        let (token, note) = (self.0, self.1);
        let text = std::str::from_utf8(token.bytes).unwrap_or("?");
        let sync = word_if(note.sync, ", sync");
        let shared = word_if(note.shared, ", shared");
        let splits = word_if(note.splits, ", splits");
        write!(f, "{}:{} {text}: ", token.place.line, token.place.column)?;
        write!(f, "kind {}, binding {}", note.kind, note.binding)?;
        write!(f, "{sync}{shared}{splits}")
    }
}

impl<'k> fmt::Display for Kinds<'k> {
    fn fmt<W: fmt::Write>(&self, f: &mut fmt::Formatter<W>) -> fmt::Result {
        for (number, kind) in self.0.iter().enumerate() {
            writeln!(f, "{}", NumberedKind(number, kind))?;
        }
        Ok(())
    }
}

impl<'t, 'a> fmt::Display for NotedTokens<'t, 'a> {
    fn fmt<W: fmt::Write>(&self, f: &mut fmt::Formatter<W>) -> fmt::Result {
        for (token, note) in self.0.iter().zip(self.1) {
            if *note != NOTHING {
                writeln!(f, "{}", NotedToken(token, note))?;
            }
        }
        Ok(())
    }
}

impl<'a> fmt::Display for Checked<'a> {
    fn fmt<W: fmt::Write>(&self, f: &mut fmt::Formatter<W>) -> fmt::Result {
        let kinds = Kinds(&self.facts.kinds);
        let tokens = NotedTokens(&self.tokens, &self.facts.notes);
        write!(f, "{kinds}{tokens}")
    }
}

impl fmt::Display for TooLarge {
    fn fmt<W: fmt::Write>(&self, f: &mut fmt::Formatter<W>) -> fmt::Result {
        match self.0 {
            LayoutFault::TooManySites(count) => write!(f, "has {count} sites, too many"),
            LayoutFault::FrameTooLarge(place, words) => {
                write!(f, "has a frame of {words} words, too many, ")?;
                write!(f, "at {}:{}", place.line, place.column)
            }
            LayoutFault::GlobalsTooLarge(words) => {
                write!(f, "has {words} words of shared variables, too many")
            }
            LayoutFault::Memory => write!(f, "has no room"),
        }
    }
}

impl<'a> fmt::Display for Answer<'a> {
    fn fmt<W: fmt::Write>(&self, f: &mut fmt::Formatter<W>) -> fmt::Result {
        match self {
            Answer::NoProgram => writeln!(f, "no program"),
            Answer::Broken(place, rule) => {
                writeln!(f, "breaks {rule} at {}:{}", place.line, place.column)
            }
            Answer::Kept => writeln!(f, "keeps them"),
            Answer::Checked(known) => write!(f, "{known}"),
            Answer::Sites(layout) => writeln!(f, "{}", SitesAndFrames(layout)),
            Answer::Tables(layout) => write!(f, "{}", Tables(layout)),
            Answer::TooLarge(fault) => writeln!(f, "{}", TooLarge(*fault)),
        }
    }
}
