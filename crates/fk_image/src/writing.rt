//! Writing an image.

ghost use Rattle.std.specs.Prelude.{◌≡◌, ◌++◌, All, flat_map, IfOk, OnOk};
ghost use Rattle.fk_image.specs.Limits.{IsWithinLimits};
ghost use Rattle.fk_image.specs.Spelling.{IsImageOf, IsWord, commit_words, site_words, word_bytes};

use crate::Image;
use byteorder::{ByteOrder, LittleEndian};
use std::alloc::{AllocError, Global};

/// The bytes of an image, which `read_image` reads back. It takes time linear in the image, and
/// fails only if there isn't enough memory.
pub fn write_image(alloc: Global, image: &Image) -> Result<Vec<u8>, AllocError>
    requires { IsWithinLimits image.now }
    ensures { IfOk result (λ bytes. IsImageOf bytes.items image.now) }
{
    let code = image.code.len();
    let globals = image.globals.len();
    let sites = image.sites.len();
    let commits = image.commits.len();
    let size = 24 + 4 * code + 4 * globals + 12 * sites + 8 * commits;
    let counts = [1, code as u32, globals as u32, sites as u32, commits as u32];
    let mut bytes = Vec::with_capacity(alloc, size)?;
    bytes.extend_from_slice(b"FK95")?;
    push_words(&mut bytes, &counts)?;
    push_words(&mut bytes, &image.code)?;
    push_words(&mut bytes, &image.globals)?;
    push_sites(&mut bytes, &image.sites)?;
    push_commits(&mut bytes, &image.commits)?;
    Ok(bytes)
}

/// Adds sites at the end.
fn push_sites(bytes: &mut Vec<u8>, sites: &[(u32, u32, u32)]) -> Result<(), AllocError>
    ensures bytes { OnOk result
        (bytes.new.items ≡ bytes.old.items ++ flat_map word_bytes (flat_map site_words sites.now)) }
    ensures words { OnOk result (All IsWord (flat_map site_words sites.now)) }
{
    for site in sites {
        push_words(bytes, &[site.0, site.1, site.2])?;
    }
    Ok(())
}

/// Adds commits at the end.
fn push_commits(bytes: &mut Vec<u8>, commits: &[(u32, u32)]) -> Result<(), AllocError>
    ensures bytes { OnOk result (bytes.new.items ≡ bytes.old.items
        ++ flat_map word_bytes (flat_map commit_words commits.now)) }
    ensures words { OnOk result (All IsWord (flat_map commit_words commits.now)) }
{
    for commit in commits {
        push_words(bytes, &[commit.0, commit.1])?;
    }
    Ok(())
}

/// Adds words at the end.
fn push_words(bytes: &mut Vec<u8>, words: &[u32]) -> Result<(), AllocError>
    ensures bytes { OnOk result
        (bytes.new.items ≡ bytes.old.items ++ flat_map word_bytes words.now) }
    ensures words { OnOk result (All IsWord words.now) }
{
    for word in words {
        push_word(bytes, *word)?;
    }
    Ok(())
}

/// Adds a word at the end.
fn push_word(bytes: &mut Vec<u8>, word: u32) -> Result<(), AllocError>
    ensures { OnOk result (bytes.new.items ≡ bytes.old.items ++ word_bytes word) }
{
    let mut four = [0; 4];
    LittleEndian::write_u32(&mut four, word);
    bytes.extend_from_slice(&four)
}
