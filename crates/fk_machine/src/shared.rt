//! What all harts share.

ghost use Rattle.std.specs.Prelude.{◌≡◌, ℕ, ◌+◌, ◌≤◌, ◌<◌, ◌^◌, ◌++◌, None, false, length, map};
ghost use Rattle.std.specs.Prelude.{slice_index, slice_index_or, vec_len, IfOk};
ghost use Rattle.fk_num.specs.Limits.{most_data_words};
ghost use Rattle.fk_isa.specs.Atomic.{unless};

use crate::place::{CONTROL_WORDS, SHARED_WORDS};
use crate::zeros::zeros;
use fk_isa::unless;
use fk_num::signed_text;
use std::alloc::{AllocError, Global};

/// The most bytes that an instruction prints: a sign, ten digits and a newline.
pub const LINE_BYTES: usize = 12;

/// The most bytes that a cycle prints: a line for each of 1,024 harts.
pub const OUTPUT_BYTES: usize = 12_288;

/// Shared data, shared control, the bytes printed in this cycle, and reservations.
#[derive(Drop)]
pub struct SharedState {
    pub words: Vec<u32>,
    pub control: Vec<u32>,
    pub output: Vec<u8>,
    /// The address of the word that each hart has reserved, in the order of their numbers.
    pub reserved: Vec<Option<u32>>,
    /// Whether some hart may have reserved a word. It stays true where a reservation is lost, until
    /// a store to what is shared finds none left.
    pub has_reserved: bool,
    ghost sized: { vec_len words ≡ 2 ^ 20 },
    ghost control_sized: { vec_len control ≡ 2 ^ 20 + 64 },
    ghost unreserved: { has_reserved ≡ false → (number : ℕ)
        → slice_index_or reserved.items number None ≡ None },
}

impl SharedState {
    ghost use Rattle.std.specs.Prelude.{◌*◌, ◌%◌, [], ◌∷◌};
    ghost use Rattle.fk_num.specs.Word.{signed_line};
    ghost use Rattle.fk_machine.specs.Reach.{cleared, reserves};
    ghost use Rattle.fk_machine.specs.View.{shared_of};
    ghost use Rattle.fk_machine.specs.Does.{room_of, PrintsUpTo};

    /// Shared data with the globals and then the input numbers, control of zeros, and room for what
    /// is printed in a cycle. Fails if there isn't enough memory.
    pub fn new(
        alloc: Global,
        globals: &[u32],
        input: &[u32],
        harts: u32,
    ) -> Result<SharedState, AllocError>
        requires { length globals.now + length input.now ≤ most_data_words }
        ensures words { IfOk result (λ s.
            slice_index s.words.items ≡ slice_index (globals.now ++ input.now)) }
        ensures control { IfOk result (λ s. slice_index s.control.items ≡ λ i. 0) }
        ensures output { IfOk result (λ s. s.output.items ≡ []) }
        ensures room { IfOk result (λ s. OUTPUT_BYTES ≤ room_of s) }
        ensures harts { IfOk result (λ s. vec_len s.reserved ≡ harts) }
        ensures reserved { IfOk result (λ s. (shared_of s).reserved ≡ λ number. None) }
    {
        let words = first_words(alloc, globals, input)?;
        let control = zeros(alloc, CONTROL_WORDS as usize)?;
        let output = Vec::with_capacity(alloc, OUTPUT_BYTES)?;
        let reserved = vec![in alloc; None; harts as usize]?;
        Ok(SharedState {
            words,
            control,
            output,
            reserved,
            has_reserved: false,
        })
    }

    // Prints bytes. There is room for them, so no memory is taken and nothing can fail.
    fn print(&mut self, bytes: &[u8])
        requires { length bytes.now ≤ room_of self.old }
        ensures bytes { shared_of self.new
            ≡ record (shared_of self.old) { output = (shared_of self.old).output ++ bytes.now } }
        ensures room { PrintsUpTo (length bytes.now) self.old self.new }
    {
        self.output.extend_from_slice(bytes).unwrap();
    }

    /// Prints the signed value of a word in decimal, and a newline. Turns print seldom, so this
    /// isn't inlined into their code.
    #[cold]
    #[inline(never)]
    #[tactic(auto, unfolding(fk_num::specs::Word::signed_line))]
    pub fn print_number(&mut self, word: u32)
        requires { LINE_BYTES ≤ room_of self.old }
        ensures line { shared_of self.new ≡ record (shared_of self.old)
            { output = (shared_of self.old).output ++ signed_line word } }
        ensures room { PrintsUpTo LINE_BYTES self.old self.new }
    {
        self.print(signed_text(word).as_slice());
        self.print(b"\n");
    }

    /// Prints the low byte of a word.
    #[cold]
    #[inline(never)]
    pub fn print_byte(&mut self, word: u32)
        requires { LINE_BYTES ≤ room_of self.old }
        ensures byte { shared_of self.new ≡ record (shared_of self.old)
            { output = (shared_of self.old).output ++ word % 256 ∷ [] } }
        ensures room { PrintsUpTo LINE_BYTES self.old self.new }
    {
        self.print(&[(word % 256) as u8]);
    }

    /// Sets or clears the reservation of the hart with this number.
    pub fn reserve(&mut self, number: u32, word: Option<u32>)
        requires { number < vec_len self.old.reserved }
        ensures reserved { shared_of self.new ≡ record (shared_of self.old)
            { reserved = reserves (shared_of self.old).reserved number word } }
        ensures rest { PrintsUpTo 0 self.old self.new }
    {
        self.has_reserved |= word.is_some();
        self.reserved[number as usize] = word;
    }

    /// Clears the reservation of the hart with this number, if it is of this word.
    #[inline(always)]
    pub fn clear_own(&mut self, number: u32, word: u32)
        requires { number < vec_len self.old.reserved }
        ensures reserved { shared_of self.new ≡ record (shared_of self.old) {
          reserved = reserves (shared_of self.old).reserved number
              (unless word ((shared_of self.old).reserved number));
        } }
        ensures rest { PrintsUpTo 0 self.old self.new }
    {
        if self.has_reserved {
            self.reserved[number as usize] = unless(word, self.reserved[number as usize]);
        }
    }

    /// Clears all reservations of a word.
    #[inline(always)]
    pub fn clear(&mut self, word: u32)
        ensures reserved { shared_of self.new ≡ record (shared_of self.old)
            { reserved = cleared (shared_of self.old).reserved word } }
        ensures rest { PrintsUpTo 0 self.old self.new }
    {
        if self.has_reserved {
            self.has_reserved = clear_all(&mut self.reserved, word);
        }
    }
}

// Clears the reservations of a word, and gives whether any other is left.
#[inline(never)]
fn clear_all(reserved: &mut [Option<u32>], word: u32) -> bool
    ensures reserved { reserved.new ≡ map (unless word) reserved.old }
    ensures left { result ≡ false → (number : ℕ) → slice_index_or reserved.new number None ≡ None }
{
    let mut left = false;
    for reservation in reserved.iter_mut() {
        *reservation = unless(word, *reservation);
        left |= reservation.is_some();
    }
    left
}

// The globals, then the input numbers, then zeros.
fn first_words(alloc: Global, globals: &[u32], input: &[u32]) -> Result<Vec<u32>, AllocError>
    requires { length globals.now + length input.now ≤ most_data_words }
    ensures len { IfOk result (λ words. vec_len words ≡ 2 ^ 20) }
    ensures words { IfOk result (λ words.
        slice_index words.items ≡ slice_index (globals.now ++ input.now)) }
{
    let mut words = Vec::with_capacity(alloc, SHARED_WORDS as usize)?;
    words.extend_from_slice(globals)?;
    words.extend_from_slice(input)?;
    words.resize(SHARED_WORDS as usize, 0)?;
    Ok(words)
}
