//! Laws of the blocks of accesses.

ghost use Rattle.fk_gen_access.specs.HeapLaw.{HeapCodeHires};
ghost use Rattle.fk_gen_access.specs.Law.{AccessBlocksDo, AccessBlocksKeep};

/// The block of an access, in place, does the access as the law of blocks requires. A hart that
/// enters it for its processor commits once. Then the access is done, or the check is refused,
/// which is a fault of its site.
pub fn access_blocks_do()
    ensures { AccessBlocksDo }
{}

/// The block of an access takes equally many cycles before its commit, and equally many after it,
/// for each processor, also where it faults. It keeps `a0` to `a3` and all words of frames except
/// values.
pub fn access_blocks_keep()
    ensures { AccessBlocksKeep }
{}

/// The code that all blocks of `shmalloc` share, in place: a hart that comes to it with a size
/// commits once, by an addition to the count of words asked for. Then it goes on with the address
/// of the block that comes behind those counted before, or 0. Equally many cycles come before the
/// commit, and equally many after it, for each size and count.
pub fn heap_code_hires()
    ensures { HeapCodeHires }
{}
