//! What is taken before a declaration.

ghost use Rattle.std.specs.Prelude.{◌≡◌};
ghost use Rattle.fk_layout_slots.specs.Told.{more};
ghost use Rattle.fk_layout_slots.specs.Places.{none_taken, behind_frame, within as within_of};
ghost use Rattle.fk_layout_slots.specs.Places.{outside as outside_of};
ghost use Rattle.fk_layout_slots.specs.Places.{behind_private as behind_private_of};

/// How much is taken before a point of the text. The counts stay at 2^32 - 1 when they get there.
#[derive(Clone, Copy)]
pub(crate) struct Taken {
    /// Private places of the function around the point, or of the file.
    pub(crate) privates: u32,
    /// Words of the group frame around the point, or of the globals.
    pub(crate) words: u32,
    /// Group frames that have words.
    pub(crate) frames: u32,
}

impl Taken {
    pub(crate) fn none() -> Taken
        ensures { result ≡ none_taken }
    {
        Taken {
            privates: 0,
            words: 0,
            frames: 0,
        }
    }

    /// What is taken after `words` more words.
    pub(crate) fn behind_words(self, words: u32) -> Taken
        ensures { result ≡ record self { words = more self.words words } }
    {
        Taken {
            words: self.words.saturating_add(words),
            ..self
        }
    }

    /// What is taken after one more private place.
    #[tactic(auto, unfolding(crate::specs::Places::behind_private))]
    pub(crate) fn behind_private(self) -> Taken
        ensures { result ≡ behind_private_of self }
    {
        Taken {
            privates: self.privates.saturating_add(1),
            ..self
        }
    }

    /// What is taken after a frame with this number of words. A frame without words isn't counted.
    #[tactic(auto, unfolding(crate::specs::Places::behind_frame))]
    pub(crate) fn behind_frame(self, words: u32) -> Taken
        ensures { result ≡ behind_frame self words }
    {
        if words == 0 {
            return self;
        }
        Taken {
            frames: self.frames.saturating_add(1),
            ..self
        }
    }

    /// What is taken at the beginning of a frame, which has no words yet.
    #[tactic(auto, unfolding(crate::specs::Places::within))]
    pub(crate) fn within(self) -> Taken
        ensures { result ≡ within_of self }
    {
        Taken { words: 0, ..self }
    }

    /// What is taken after the end of a frame, where `before` was taken before it.
    #[tactic(auto, unfolding(crate::specs::Places::outside))]
    pub(crate) fn outside(self, before: Taken) -> Taken
        ensures { result ≡ outside_of before self }
    {
        Taken {
            words: before.words,
            ..self
        }
    }
}
