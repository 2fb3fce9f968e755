//! A group's range of words.

ghost use Rattle.std.specs.Prelude.{◌≡◌, ℕ, ◌+◌, ◌^◌, ◌≤◌, ◌<◌, IsSome, IfSome};
ghost use Rattle.fk_space.specs.Space.{IsSpace, whole, free, share, child, frame, block};

use std::marker::Model;

/// The number of words of a header.
const HEADER: u32 = 8;

/// The number of words that a split keeps back for each part.
const KEPT: u32 = 4;

/// The smallest number of words of a part.
const SMALLEST: u32 = 16;

/// A group's range of the 2^20 shared words, with `low + 8 <= frames <= blocks <= high <= 2^20`.
/// All four are indices of words.
#[derive(Clone, Copy, PartialEq, Eq, Debug)]
pub struct Space {
    /// The first word, which is that of the header.
    pub low: u32,
    /// The end of its words.
    pub high: u32,
    /// The end of the frames, which is the first free word.
    pub frames: u32,
    /// The first word of the blocks, which is the end of the free words.
    pub blocks: u32,
}

impl Model for Space {
    ghost use Rattle.fk_space.specs.Space.{Space as Words, IsSpace};

    ghost Value = { Words };

    ghost view = { λ s.
        record { low = s.low; high = s.high; frames = s.frames; blocks = s.blocks } };

    ghost invariant = { λ s.
        IsSpace (record { low = s.low; high = s.high; frames = s.frames; blocks = s.blocks }) };

    ghost inverse = { λ s.
        record { low = s.low; high = s.high; frames = s.frames; blocks = s.blocks } };
}

impl Space {
    /// The space of `words` words from `low` on, with nothing taken.
    pub fn whole(low: u32, words: u32) -> Space
        requires header { 8 ≤ words }
        requires shared { low + words ≤ 2 ^ 20 }
        ensures { result ≡ whole low words }
    {
        Space {
            low,
            high: low + words,
            frames: low + HEADER,
            blocks: low + words,
        }
    }

    /// The number of free words, which are those between the frames and the blocks.
    pub fn free(&self) -> u32
        ensures free { result ≡ free self.now }
        ensures space { IsSpace self.now }
    {
        self.blocks - self.frames
    }

    /// The number of words of each of `k` parts: an even share of the free words, less 4 for each
    /// part, rounded down. `None` if these 4 `k` words aren't free, or if the share is below 16.
    pub fn share(&self, k: u32) -> Option<u32>
        requires { 1 ≤ k }
        ensures { result ≡ share self.now k }
    {
        let free = self.free();
        let kept = k.checked_mul(KEPT)?;
        let words = free.checked_sub(kept)? / k;
        if words < SMALLEST { None } else { Some(words) }
    }

    /// The space of part `i` of `k`. The parts follow each other after the frames and the 4 `k`
    /// words that are kept back. Nothing is taken in it.
    #[tactic(auto, using(crate::proofs::Parts::parts))]
    pub fn child(&self, k: u32, i: u32) -> Space
        requires fits { IsSome (share self.now k) }
        requires part { i < k }
        ensures { result ≡ child self.now k i }
    {
        let free = self.free();
        let kept = k * KEPT;
        let words = (free - kept) / k;
        Space::whole(self.frames + kept + i * words, words)
    }

    /// The space after taking a frame at the end of the frames; `None` if its words aren't free.
    pub fn frame(&self, words: u32) -> Option<Space>
        ensures { result ≡ frame self.now words }
    {
        if words > self.free() {
            return None;
        }
        Some(Space {
            frames: self.frames + words,
            ..*self
        })
    }

    /// The first word of a block at the end of the free words, and the space after taking it;
    /// `None` if its words aren't free.
    pub fn block(&self, words: u32) -> Option<(u32, Space)>
        ensures { result ≡ block self.now words }
    {
        if words > self.free() {
            return None;
        }
        let first = self.blocks - words;
        Some((
            first,
            Space {
                blocks: first,
                ..*self
            },
        ))
    }
}
