//! The written form of a layout.

use crate::told::word_if;
use fk_layout::{Layout, Site};
use fk_layout_globals::GlobalRow;
use fk_meaning_forms::{FrameSize, Home, Region, Slot};
use fk_syntax::Place;
use std::fmt;

// The place of an operation that can't fault.
const NOWHERE: Place = Place { line: 0, column: 0 };

/// The operations of a text, and the frames of its functions.
#[derive(Clone, Copy)]
pub(crate) struct SitesAndFrames<'l, 'a>(pub(crate) &'l Layout<'a>);

/// The other tables of a text: a line for each shared variable of file scope, two lines for the
/// initial values of the shared and the private ones, and a line for each slot and each group
/// frame.
#[derive(Clone, Copy)]
pub(crate) struct Tables<'l, 'a>(pub(crate) &'l Layout<'a>);

// The kinds of operations by their numbers, each with its place, if it has one.
#[derive(Clone, Copy)]
struct Sites<'l>(&'l [Site]);

#[derive(Clone, Copy)]
struct PlacedSite(Site);

// The frames of functions: private words and group words.
#[derive(Clone, Copy)]
struct Frames<'l>(&'l [FrameSize]);

// Shared variables of file scope, one in each line.
#[derive(Clone, Copy)]
struct Rows<'l, 'a>(&'l [GlobalRow<'a>]);

#[derive(Clone, Copy)]
struct NamedRow<'l, 'a>(&'l GlobalRow<'a>);

// Words in one line.
#[derive(Clone, Copy)]
struct Words<'l>(&'l [u32]);

// Slots with their numbers, one in each line.
#[derive(Clone, Copy)]
struct Slots<'l>(&'l [Slot]);

#[derive(Clone, Copy)]
struct NumberedSlot(usize, Slot);

// Group frames with their numbers, one in each line.
#[derive(Clone, Copy)]
struct Regions<'l>(&'l [Region]);

#[derive(Clone, Copy)]
struct NumberedRegion(usize, Region);

impl fmt::Display for PlacedSite {
    fn fmt<W: fmt::Write>(&self, f: &mut fmt::Formatter<W>) -> fmt::Result {
        let (kind, place) = (self.0.kind, self.0.place);
        if place == NOWHERE {
            return write!(f, "{kind}");
        }
        write!(f, "{kind}@{}:{}", place.line, place.column)
    }
}

impl<'l> fmt::Display for Sites<'l> {
    fn fmt<W: fmt::Write>(&self, f: &mut fmt::Formatter<W>) -> fmt::Result {
        for site in self.0.iter() {
            write!(f, " {}", PlacedSite(*site))?;
        }
        Ok(())
    }
}

impl<'l> fmt::Display for Frames<'l> {
    fn fmt<W: fmt::Write>(&self, f: &mut fmt::Formatter<W>) -> fmt::Result {
        for frame in self.0.iter() {
            write!(f, " {}+{}", frame.private, frame.shared)?;
        }
        Ok(())
    }
}

impl<'l, 'a> fmt::Display for SitesAndFrames<'l, 'a> {
    fn fmt<W: fmt::Write>(&self, f: &mut fmt::Formatter<W>) -> fmt::Result {
        let sites = Sites(&self.0.sites);
        let frames = Frames(&self.0.frames);
        write!(f, "sites{sites} frames{frames}")
    }
}

impl<'l, 'a> fmt::Display for NamedRow<'l, 'a> {
    fn fmt<W: fmt::Write>(&self, f: &mut fmt::Formatter<W>) -> fmt::Result {
        let row = self.0;
        let name = std::str::from_utf8(row.name).unwrap_or("?");
        let signed = word_if(row.signed, ", signed");
        write!(f, "row {name}: first {}, words {}", row.first, row.words)?;
        write!(f, "{signed}")
    }
}

impl<'l, 'a> fmt::Display for Rows<'l, 'a> {
    fn fmt<W: fmt::Write>(&self, f: &mut fmt::Formatter<W>) -> fmt::Result {
        for row in self.0.iter() {
            writeln!(f, "{}", NamedRow(row))?;
        }
        Ok(())
    }
}

impl<'l> fmt::Display for Words<'l> {
    fn fmt<W: fmt::Write>(&self, f: &mut fmt::Formatter<W>) -> fmt::Result {
        for word in self.0.iter() {
            write!(f, " {word}")?;
        }
        Ok(())
    }
}

impl fmt::Display for NumberedSlot {
    fn fmt<W: fmt::Write>(&self, f: &mut fmt::Formatter<W>) -> fmt::Result {
        let (number, slot) = (self.0, self.1);
        let index = slot.index;
        match slot.home {
            Home::Global => write!(f, "slot {number}: global {index}"),
            Home::FilePrivate => write!(f, "slot {number}: file private {index}"),
            Home::Private => write!(f, "slot {number}: private {index}"),
            Home::Group(region) => write!(f, "slot {number}: region {region}, word {index}"),
            Home::NoWord => write!(f, "slot {number}: no word"),
        }
    }
}

impl<'l> fmt::Display for Slots<'l> {
    fn fmt<W: fmt::Write>(&self, f: &mut fmt::Formatter<W>) -> fmt::Result {
        for (number, slot) in self.0.iter().enumerate() {
            writeln!(f, "{}", NumberedSlot(number, *slot))?;
        }
        Ok(())
    }
}

impl fmt::Display for NumberedRegion {
    fn fmt<W: fmt::Write>(&self, f: &mut fmt::Formatter<W>) -> fmt::Result {
        let region = self.1;
        let (at, part) = (region.at, region.part);
        write!(f, "region {}: token {at}, part {part}, ", self.0)?;
        write!(f, "level {}, words {}", region.level, region.words)
    }
}

impl<'l> fmt::Display for Regions<'l> {
    fn fmt<W: fmt::Write>(&self, f: &mut fmt::Formatter<W>) -> fmt::Result {
        for (number, region) in self.0.iter().enumerate() {
            writeln!(f, "{}", NumberedRegion(number, *region))?;
        }
        Ok(())
    }
}

impl<'l, 'a> fmt::Display for Tables<'l, 'a> {
    fn fmt<W: fmt::Write>(&self, f: &mut fmt::Formatter<W>) -> fmt::Result {
        let layout = self.0;
        let (words, firsts) = (Words(&layout.words), Words(&layout.firsts));
        write!(f, "{}words{words}\nfirsts{firsts}\n", Rows(&layout.rows))?;
        let places = &layout.places;
        let (slots, regions) = (Slots(&places.slots), Regions(&places.regions));
        write!(f, "{slots}{regions}")
    }
}
