//! Addresses of shared data and of private heaps.

ghost use Rattle.std.specs.Prelude.{◌≡◌, ◌<◌, ◌^◌, IsTrue};
ghost use Rattle.fk_meaning_store.specs.Serve.{is_shared as is_shared_at};
ghost use Rattle.fk_meaning_store.specs.Serve.{is_private as is_private_at, may_use as may_be_used};
ghost use Rattle.fk_meaning_store.specs.Serve.{shared_index as index_at};
ghost use Rattle.fk_meaning_store.specs.Serve.{private_index as private_index_at};
ghost use Rattle.fk_meaning_store.specs.Store.{address_of as address_at};

/// The number of words of shared data.
pub(crate) const SHARED_WORDS: u32 = 1 << 20;

/// The number of words of a private heap.
pub(crate) const PRIVATE_WORDS: u32 = 16_384;

/// The address of the first word of shared data.
const SHARED: u32 = 0x1000_0000;

/// The address of the first word of every private heap.
const PRIVATE: u32 = 0x2001_0000;

/// The number of bytes of a word.
const WORD_BYTES: u32 = 4;

pub(crate) fn is_shared(address: u32) -> bool
    ensures { result ≡ is_shared_at address }
{
    SHARED <= address && address < SHARED + WORD_BYTES * SHARED_WORDS
}

fn is_private(address: u32) -> bool
    ensures { result ≡ is_private_at address }
{
    PRIVATE <= address && address < PRIVATE + WORD_BYTES * PRIVATE_WORDS
}

/// Whether an address may be used. With `shared_alone` it must be one of shared data, as for a
/// multiprefix.
pub(crate) fn may_use(shared_alone: bool, address: u32) -> bool
    ensures { result ≡ may_be_used shared_alone address }
{
    address % WORD_BYTES == 0 && (is_shared(address) || !shared_alone && is_private(address))
}

/// The index of the word of shared data at an address.
pub(crate) fn shared_index(address: u32) -> usize
    requires { IsTrue (is_shared_at address) }
    ensures index { result ≡ index_at address }
    ensures within { result < 2 ^ 20 }
{
    ((address - SHARED) / WORD_BYTES) as usize
}

/// The index of the word of a private heap at an address.
pub(crate) fn private_index(address: u32) -> usize
    requires { IsTrue (is_private_at address) }
    ensures index { result ≡ private_index_at address }
    ensures within { result < 16384 }
{
    ((address - PRIVATE) / WORD_BYTES) as usize
}

/// The address of a word of shared data.
pub(crate) fn address_of(index: u32) -> u32
    requires { index < 2 ^ 20 }
    ensures { result ≡ address_at index }
{
    SHARED + WORD_BYTES * index
}
