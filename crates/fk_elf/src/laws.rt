//! Laws of the files and of the refusals.

ghost use Rattle.std.specs.Prelude.{◌≡◌, ℕ, List};
ghost use Rattle.fk_image.specs.declared.Image.{Image};
ghost use Rattle.fk_image.specs.Spelling.{AreAlike};
ghost use Rattle.fk_elf.specs.declared.fault.ElfFault.{ElfFault};
ghost use Rattle.fk_elf.specs.Files.{IsElfOf};
ghost use Rattle.fk_elf.specs.Refusals.{IsRefusedElf};

/// Two images with the same file are alike.
pub fn one_image()
    ensures { (bytes : List ℕ) (image other : Image) → IsElfOf bytes image → IsElfOf bytes other
        → AreAlike image other }
{}

/// Images that are alike have the same file.
pub fn one_file()
    ensures { (bytes others : List ℕ) (image other : Image) → IsElfOf bytes image
        → IsElfOf others other → AreAlike image other → bytes ≡ others }
{}

/// The file of an image is not refused, so what is written is read back.
pub fn no_refusal()
    ensures { (bytes : List ℕ) (image : Image) (fault : ElfFault) → IsElfOf bytes image
        → IsRefusedElf bytes fault → ⊥ }
{}

/// Bytes have one refusal at most.
pub fn one_refusal()
    ensures { (bytes : List ℕ) (fault other : ElfFault) → IsRefusedElf bytes fault
        → IsRefusedElf bytes other → fault ≡ other }
{}
