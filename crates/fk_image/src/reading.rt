//! Reading an image.

ghost use Rattle.std.specs.Prelude.{◌≡◌, ℕ, ◌+◌, ◌*◌, ◌%◌, ◌<◌, ◌≤◌, ◌↔◌, All, flat_map, length};
ghost use Rattle.std.specs.Prelude.{IfOk, IfErr, IsTrue, OnOk};
ghost use Rattle.fk_num.specs.Limits.{most_code_words};
ghost use Rattle.fk_image.specs.Limits.{IsCommit, IsSite, Rise};
ghost use Rattle.fk_image.specs.Refusals.{HasLength, HasVersion, IsFault, IsHeaderWord};
ghost use Rattle.fk_image.specs.Refusals.{IsRefusedImage, greatest, least, site_at, word_at};
ghost use Rattle.fk_image.specs.Spelling.{IsImageOf, Spells, commit_words, site_words};
ghost use Rattle.fk_image.specs.Tables.{IsAboveLast, IsCommitFault, IsHeaderOf, IsSiteFault};
ghost use Rattle.fk_image.specs.Tables.{code_table, commit_table, global_table, site_table};

use crate::Image;
use crate::fault::ImageFault;
use byteorder::{ByteOrder, LittleEndian};
use fk_num::{MOST_CODE_WORDS, MOST_DATA_WORDS};
use std::alloc::{AllocError, Global};

/// The number of bytes of the header.
const HEADER_SIZE: usize = 24;

/// The number of entries of each table of an image.
#[derive(Clone, Copy)]
struct Header {
    code: u32,
    globals: u32,
    sites: u32,
    commits: u32,
}

impl Header {
    /// The number of bytes of an image with this header.
    fn needed(self) -> u64
        ensures { result ≡ 24 + 4 * self.code + 4 * self.globals + 12 * self.sites
            + 8 * self.commits }
    {
        let words = 4 * u64::from(self.code) + 4 * u64::from(self.globals);
        24 + words + 12 * u64::from(self.sites) + 8 * u64::from(self.commits)
    }
}

/// The bytes of each table of an image.
#[derive(Clone, Copy)]
struct Tables<'a> {
    code: &'a [u8],
    globals: &'a [u8],
    sites: &'a [u8],
    commits: &'a [u8],
}

/// The image whose bytes these are, all of them. If they are no image, the fault is the first that
/// applies, in the order of the file: see [`ImageFault`]. It takes time linear in the bytes.
pub fn read_image(alloc: Global, bytes: &[u8]) -> Result<Image, ImageFault>
    ensures image { IfOk result (λ image. IsImageOf bytes.now image) }
    ensures fault { IfErr result (λ fault. IsFault bytes.now fault) }
{
    let header = read_header(bytes)?;
    check_length(bytes, header)?;
    let tables = split_tables(bytes, header);
    Ok(Image {
        code: read_words(alloc, tables.code).map_err(ImageFault::Memory)?,
        globals: read_words(alloc, tables.globals).map_err(ImageFault::Memory)?,
        sites: read_sites(alloc, tables.sites)?,
        commits: read_commits(alloc, header, tables.commits)?,
    })
}

/// The header with which bytes begin.
fn read_header(bytes: &[u8]) -> Result<Header, ImageFault>
    ensures header { IfOk result (λ header. IsHeaderOf bytes.now header) }
    ensures fault { IfErr result (IsRefusedImage bytes.now) }
{
    check_front(bytes)?;
    let code = header_word(bytes, 2, 1, MOST_CODE_WORDS)?;
    let globals = header_word(bytes, 3, 0, MOST_DATA_WORDS)?;
    let sites = header_word(bytes, 4, 0, 16_000)?;
    let commits = header_word(bytes, 5, 0, code)?;
    Ok(Header {
        code,
        globals,
        sites,
        commits,
    })
}

/// Tests that there is a header, of this format and version.
fn check_front(bytes: &[u8]) -> Result<(), ImageFault>
    ensures front { OnOk result (HasVersion bytes.now) }
    ensures fault { IfErr result (IsRefusedImage bytes.now) }
{
    if bytes.len() < HEADER_SIZE {
        return Err(ImageFault::Short(bytes.len() as u64, HEADER_SIZE as u64));
    }
    if !bytes.starts_with(b"FK95") {
        return Err(ImageFault::Magic);
    }
    let version = read_word(bytes, 1);
    if version != 1 {
        return Err(ImageFault::Version(version));
    }
    Ok(())
}

/// A word of the header, which has these limits.
fn header_word(bytes: &[u8], index: u32, low: u32, high: u32) -> Result<u32, ImageFault>
    requires front { HasVersion bytes.now }
    requires index { index ≤ 5 }
    requires behind { 2 ≤ index }
    requires low { low ≡ least index }
    requires high { high ≡ greatest bytes.now index }
    requires before { (k : ℕ) → 2 ≤ k → k < index → IsHeaderWord bytes.now k }
    ensures word { IfOk result (λ word. word ≡ word_at bytes.now index) }
    ensures within { OnOk result (IsHeaderWord bytes.now index) }
    ensures fault { IfErr result (IsRefusedImage bytes.now) }
{
    let word = read_word(bytes, index as usize);
    if !(low..=high).contains(&word) {
        return Err(ImageFault::BadWord(index));
    }
    Ok(word)
}

/// Tests that there are as many bytes as the header asks for.
fn check_length(bytes: &[u8], header: Header) -> Result<(), ImageFault>
    requires { IsHeaderOf bytes.now header }
    ensures length { OnOk result (HasLength bytes.now) }
    ensures fault { IfErr result (IsRefusedImage bytes.now) }
{
    let length = bytes.len() as u64;
    let needed = header.needed();
    if length < needed {
        return Err(ImageFault::Short(length, needed));
    }
    if length > needed {
        return Err(ImageFault::LongTail(needed));
    }
    Ok(())
}

/// The tables after the header.
fn split_tables(bytes: &[u8], header: Header) -> Tables<'_>
    requires header { IsHeaderOf bytes.now header }
    requires length { HasLength bytes.now }
    ensures code { result.code.now ≡ code_table bytes.now }
    ensures globals { result.globals.now ≡ global_table bytes.now }
    ensures sites { result.sites.now ≡ site_table bytes.now }
    ensures commits { result.commits.now ≡ commit_table bytes.now }
{
    let (_, rest) = bytes.split_at(HEADER_SIZE);
    let (code, rest) = rest.split_at(4 * header.code as usize);
    let (globals, rest) = rest.split_at(4 * header.globals as usize);
    let (sites, commits) = rest.split_at(12 * header.sites as usize);
    Tables {
        code,
        globals,
        sites,
        commits,
    }
}

/// The words of a table.
fn read_words(alloc: Global, table: &[u8]) -> Result<Vec<u32>, AllocError>
    requires { length table.now % 4 ≡ 0 }
    ensures { IfOk result (λ words. Spells words.items table.now) }
{
    let count = table.len() / 4;
    let mut words = Vec::with_capacity(alloc, count)?;
    for i in 0..count {
        words.push(read_word(table, i))?;
    }
    Ok(words)
}

/// The sites of a table.
fn read_sites(alloc: Global, table: &[u8]) -> Result<Vec<(u32, u32, u32)>, ImageFault>
    requires whole { length table.now % 12 ≡ 0 }
    requires few { length table.now ≤ 12 * 16000 }
    ensures spelling { IfOk result (λ sites. Spells (flat_map site_words sites.items) table.now) }
    ensures sites { IfOk result (λ sites. All IsSite sites.items) }
    ensures entries { OnOk result ((k : ℕ) → 12 * k < length table.now
        → IsSite (site_at table.now (3 * k))) }
    ensures fault { IfErr result (λ fault. IsSiteFault table.now fault) }
{
    let count = table.len() / 12;
    let mut sites = Vec::with_capacity(alloc, count).map_err(ImageFault::Memory)?;
    for i in 0..count {
        let kind = read_word(table, 3 * i);
        if !(1..=34).contains(&kind) {
            return Err(ImageFault::BadTable(i as u32));
        }
        let line = read_word(table, 3 * i + 1);
        let column = read_word(table, 3 * i + 2);
        sites
            .push((kind, line, column))
            .map_err(|_| ImageFault::Memory(AllocError))?;
    }
    Ok(sites)
}

/// The commits of a table. They are counted on from the sites.
fn read_commits(alloc: Global, header: Header, table: &[u8]) -> Result<Vec<(u32, u32)>, ImageFault>
    requires whole { length table.now % 8 ≡ 0 }
    requires few { length table.now ≤ 8 * most_code_words }
    requires sites { header.sites ≤ 16000 }
    ensures spelling { IfOk result
        (λ commits. Spells (flat_map commit_words commits.items) table.now) }
    ensures commits { IfOk result (λ commits. All (IsCommit header.code) commits.items) }
    ensures rise { IfOk result (λ commits. Rise commits.items) }
    ensures fault { IfErr result (λ fault. IsCommitFault header table.now fault) }
{
    let count = table.len() / 8;
    let mut commits = Vec::with_capacity(alloc, count).map_err(ImageFault::Memory)?;
    for i in 0..count {
        let address = read_word(table, 2 * i);
        let word = read_word(table, 2 * i + 1);
        if !may_follow(&commits, header.code, (address, word)) {
            return Err(ImageFault::BadTable(header.sites + i as u32));
        }
        commits
            .push((address, word))
            .map_err(|_| ImageFault::Memory(AllocError))?;
    }
    Ok(commits)
}

/// Whether a commit may follow these, in code of this many words.
fn may_follow(commits: &[(u32, u32)], code_words: u32, commit: (u32, u32)) -> bool
    ensures { IsTrue result ↔ (IsCommit code_words commit × IsAboveLast commits.now commit.0) }
{
    is_commit(code_words, commit) && rises(commits, commit.0)
}

/// Whether this is a commit in code of this many words.
fn is_commit(code_words: u32, commit: (u32, u32)) -> bool
    ensures { IsTrue result ↔ IsCommit code_words commit }
{
    let address = commit.0;
    let count = commit.1 % 256;
    let event = commit.1 / 256;
    address % 4 == 0 && address / 4 < code_words && count >= 1 && event <= 6
}

/// Whether this address is above that of the last of these commits.
fn rises(commits: &[(u32, u32)], address: u32) -> bool
    ensures { IsTrue result ↔ IsAboveLast commits.now address }
{
    match commits.last() {
        None => true,
        Some(before) => before.0 < address,
    }
}

/// The word at a place, counted in words.
fn read_word(bytes: &[u8], place: usize) -> u32
    requires { 4 * place + 4 ≤ length bytes.now }
    ensures { result ≡ word_at bytes.now place }
{
    LittleEndian::read_u32(&bytes[4 * place..])
}
