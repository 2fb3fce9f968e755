//! The store.

ghost use Rattle.std.specs.Prelude.{◌≡◌, ℕ, ◌+◌, ◌*◌, ◌^◌, ◌≤◌, ◌<◌, ◌++◌, ◌%◌, length, vec_len};
ghost use Rattle.std.specs.Prelude.{vec_capacity, slice_index, IsTrue, IfOk};

use crate::addresses::{
    PRIVATE_WORDS, SHARED_WORDS, address_of, is_shared, private_index, shared_index,
};
use fk_num::signed_text;
use fk_space::heap;
use std::alloc::{AllocError, Global};

/// The greatest number of bytes that printing a number takes: a sign, ten digits and a newline.
const LINE_BYTES: u32 = 12;

/// The state that all processors share: shared data, the private heap of each processor, the top of
/// the global heap, and the output so far.
#[derive(Drop)]
pub struct Store32 {
    words: Vec<u32>,
    /// The private heaps, one after the other.
    heaps: Vec<u32>,
    processors: u32,
    top: u32,
    output: Vec<u8>,
    /// The room that is left for bytes of output.
    spare: u32,
    ghost sized: { vec_len words ≡ 2 ^ 20 },
    ghost owned: { vec_len heaps ≡ processors * 16384 },
    ghost within: { top ≤ 2 ^ 20 },
    ghost room: { vec_len output + spare ≤ vec_capacity output },
}

impl Store32 {
    ghost use Rattle.fk_meaning_store.specs.Store.{opening_store};
    ghost use Rattle.fk_meaning_store.specs.View.{store_of, processors_of, room_of};

    /// The store at the beginning of a run. Shared data has the globals, then the input numbers,
    /// then zeros. Each private heap has zeros.
    pub fn new(
        alloc: Global,
        globals: &[u32],
        input: &[u32],
        processors: u32,
    ) -> Result<Store32, AllocError>
        requires words { length globals.now + length input.now ≤ 2 ^ 20 }
        requires processors { processors ≤ 1024 }
        ensures opening { IfOk result (λ s. store_of s ≡ opening_store globals.now input.now) }
        ensures processors { IfOk result (λ s. processors_of s ≡ processors) }
    {
        let taken = (globals.len() + input.len()) as u32;
        let words = first_words(alloc, globals, input)?;
        let heaps = zeros(alloc, processors as usize * PRIVATE_WORDS as usize)?;
        Ok(Store32 {
            words,
            heaps,
            processors,
            top: taken + (SHARED_WORDS - taken) / 2,
            output: Vec::new(alloc),
            spare: 0,
        })
    }

    /// The bytes printed so far.
    pub fn output(&self) -> &[u8]
        ensures { result.now ≡ (store_of self.now).output }
    {
        &self.output
    }

    /// The number of bytes that can be printed before room has to be reserved.
    pub fn spare(&self) -> u32
        ensures { result ≡ room_of self.now }
    {
        self.spare
    }

    /// Makes room for at least this number of bytes of output.
    pub fn reserve(&mut self, bytes: u32) -> Result<(), AllocError>
        ensures room { IfOk result (λ _. bytes ≤ room_of self.new) }
        ensures kept { room_of self.old ≤ room_of self.new }
        ensures store { store_of self.new ≡ store_of self.old }
        ensures processors { processors_of self.new ≡ processors_of self.old }
    {
        if self.spare < bytes {
            self.output.reserve(bytes as usize)?;
            self.spare = bytes;
        }
        Ok(())
    }

    /// The number of processors, each of which has a private heap.
    pub fn processors(&self) -> u32
        ensures { result ≡ processors_of self.now }
    {
        self.processors
    }
}

impl Store32 {
    ghost use Rattle.std.specs.Prelude.{◌++◌, false, [], ◌∷◌};
    ghost use Rattle.fk_num.specs.Word.{signed_line};
    ghost use Rattle.fk_meaning_store.specs.Serve.{read, write, printed, hired, Served, may_use};
    ghost use Rattle.fk_meaning_store.specs.View.{store_of, processors_of, room_of, KeepsRoom};

    /// The word at an address, in shared data or in the processor's own heap.
    pub(crate) fn read(&self, address: u32, processor: u32) -> u32
        requires address { IsTrue (may_use false address) }
        requires processor { processor < processors_of self.now }
        ensures { result ≡ read (store_of self.now) processor address }
    {
        if is_shared(address) {
            self.words[shared_index(address)]
        } else {
            self.heaps[processor as usize * PRIVATE_WORDS as usize + private_index(address)]
        }
    }

    /// Replaces the word at an address, in shared data or in the processor's own heap.
    pub(crate) fn write(&mut self, address: u32, processor: u32, value: u32)
        requires address { IsTrue (may_use false address) }
        requires processor { processor < processors_of self.old }
        ensures word { store_of self.new ≡ write (store_of self.old) processor address value }
        ensures rest { KeepsRoom self.old self.new }
    {
        if is_shared(address) {
            self.words[shared_index(address)] = value;
        } else {
            self.heaps[processor as usize * PRIVATE_WORDS as usize + private_index(address)] =
                value;
        }
    }

    // Appends bytes to the output. There is room for them, so this takes no memory and can't fail.
    fn print(&mut self, bytes: &[u8])
        requires { length bytes.now ≤ room_of self.old }
        ensures bytes { Served (store_of self.new) 0 ≡ printed bytes.now (store_of self.old) }
        ensures rest { KeepsRoom self.old self.new }
    {
        let spare = self.spare;
        self.output.extend_from_slice(bytes).unwrap();
        self.spare = spare - bytes.len() as u32;
    }

    /// Prints the signed value of a word in decimal, and a newline.
    #[tactic(auto, unfolding(fk_num::specs::Word::signed_line))]
    pub(crate) fn print_number(&mut self, word: u32)
        requires { 12 ≤ room_of self.old }
        ensures line { Served (store_of self.new) 0
            ≡ printed (signed_line word) (store_of self.old) }
        ensures rest { KeepsRoom self.old self.new }
    {
        self.print(signed_text(word).as_slice());
        self.print(b"\n");
    }

    /// Prints the low byte of a word.
    pub(crate) fn print_byte(&mut self, word: u32)
        requires { 1 ≤ room_of self.old }
        ensures byte { Served (store_of self.new) 0
            ≡ printed (word % 256 ∷ []) (store_of self.old) }
        ensures rest { KeepsRoom self.old self.new }
    {
        self.print(&[(word % 256) as u8]);
    }

    /// Takes a block of this number of words from the global heap. Returns its address, or 0 if
    /// there is none.
    pub(crate) fn hire(&mut self, words: u32) -> u32
        ensures block { Served (store_of self.new) result ≡ hired words (store_of self.old) }
        ensures rest { KeepsRoom self.old self.new }
    {
        if words == 0 {
            return 0;
        }
        let (top, block) = heap(self.top, SHARED_WORDS, words);
        self.top = top;
        match block {
            Some(index) => address_of(index),
            None => 0,
        }
    }
}

// A list of zeros. The clauses don't name the list, which would be computed where the number is
// known.
#[tactic(auto, using(crate::proofs::IndexZeros::index_zeros))]
fn zeros(alloc: Global, count: usize) -> Result<Vec<u32>, AllocError>
    ensures len { IfOk result (λ v. vec_len v ≡ count) }
    ensures zero { IfOk result (λ v. (i : ℕ) → slice_index v.items i ≡ 0) }
{
    vec![in alloc; 0; count]
}

// The globals, then the input numbers, then zeros.
fn first_words(alloc: Global, globals: &[u32], input: &[u32]) -> Result<Vec<u32>, AllocError>
    requires { length globals.now + length input.now ≤ 2 ^ 20 }
    ensures len { IfOk result (λ words. vec_len words ≡ 2 ^ 20) }
    ensures words { IfOk result (λ words.
        slice_index words.items ≡ slice_index (globals.now ++ input.now)) }
{
    let mut words = Vec::with_capacity(alloc, SHARED_WORDS as usize)?;
    words.extend_from_slice(globals)?;
    words.extend_from_slice(input)?;
    words.resize(SHARED_WORDS as usize, 0)?;
    Ok(words)
}
