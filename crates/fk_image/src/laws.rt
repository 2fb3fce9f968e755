//! Laws of the spelling and of the refusals.

ghost use Rattle.std.specs.Prelude.{◌≡◌, ℕ, List};
ghost use Rattle.fk_image.specs.declared.Image.{Image};
ghost use Rattle.fk_image.specs.declared.fault.ImageFault.{ImageFault};
ghost use Rattle.fk_image.specs.Refusals.{IsRefusedImage};
ghost use Rattle.fk_image.specs.Spelling.{IsImageOf, AreAlike};

/// Two images with the same bytes are alike.
pub fn one_image()
    ensures { (bytes : List ℕ) (image other : Image) → IsImageOf bytes image → IsImageOf bytes other
        → AreAlike image other }
{}

/// The bytes of an image are not refused, so what is written is read back.
pub fn no_refusal()
    ensures { (bytes : List ℕ) (image : Image) (fault : ImageFault) → IsImageOf bytes image
        → IsRefusedImage bytes fault → ⊥ }
{}

/// Bytes have one refusal at most.
pub fn one_refusal()
    ensures { (bytes : List ℕ) (fault other : ImageFault) → IsRefusedImage bytes fault
        → IsRefusedImage bytes other → fault ≡ other }
{}
