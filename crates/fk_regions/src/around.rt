//! The surroundings of a token.

ghost use Rattle.std.specs.Prelude.{◌≡◌};
ghost use Rattle.fk_regions.specs.Around.{region_by};
ghost use Rattle.fk_regions.specs.Collected.{within, outside, function_around, body_around};

use fk_syntax::Mode;

/// What directly contains a part of a program.
#[derive(Clone, Copy)]
pub enum Holder {
    /// The outermost block of `main`.
    Main(Mode),
    /// The outermost block of another function.
    Function(Mode),
    /// An inner block.
    Block,
    /// A part of an `if`.
    Branch,
    /// The body of a loop.
    Loop,
    /// The body of `start`.
    Start,
    /// The body of `fork`.
    Fork,
    /// The body of `farm`.
    Farm,
    /// The body of `seq`.
    Seq,
}

/// How the processors run the code at a place.
#[derive(Clone, Copy)]
pub enum Region {
    /// In lockstep.
    Synchronous,
    /// Each by itself.
    Asynchronous,
    /// As the callers do; or the code isn't run at all.
    Neither,
}

/// Where the innermost loop around a place is.
#[derive(Clone, Copy)]
pub enum Loops {
    /// There is no loop.
    Outside,
    /// The loop contains the place, with no `start`, `fork`, `farm` or `seq` in between.
    Inside,
    /// The loop contains the place, with a `start`, `fork`, `farm` or `seq` in between.
    Beyond,
}

/// What the rules need to know about the surroundings of a token.
#[derive(Clone, Copy)]
pub struct Around {
    pub region: Region,
    pub loops: Loops,
    /// Whether the function is `straight`.
    pub straight: bool,
    /// Whether the innermost holder is the outermost block of `main`.
    pub in_main: bool,
    /// Whether it is inside a `start`, `fork`, `farm` or `seq`.
    pub in_body: bool,
}

/// The region of the body of a function, by its mode.
pub fn region_of(mode: Mode) -> Region
    ensures { result ≡ region_by mode }
{
    match mode {
        Mode::Sync => Region::Synchronous,
        Mode::Async => Region::Asynchronous,
        Mode::Straight => Region::Neither,
    }
}

impl Around {
    /// The surroundings at file scope, where there is no holder.
    pub(crate) fn outside() -> Around
        ensures { result ≡ outside }
    {
        Around {
            region: Region::Neither,
            loops: Loops::Outside,
            straight: false,
            in_main: false,
            in_body: false,
        }
    }

    /// The surroundings of the parts of a holder, whose own surroundings are `self`.
    pub(crate) fn within(self, holder: Holder) -> Around
        ensures { result ≡ within holder self }
    {
        match holder {
            Holder::Main(mode) => Around::function(mode, true),
            Holder::Function(mode) => Around::function(mode, false),
            Holder::Block | Holder::Branch => Around {
                in_main: false,
                ..self
            },
            Holder::Loop => Around {
                in_main: false,
                loops: Loops::Inside,
                ..self
            },
            Holder::Start | Holder::Fork => self.body(Region::Synchronous),
            Holder::Farm | Holder::Seq => self.body(Region::Asynchronous),
        }
    }

    fn function(mode: Mode, in_main: bool) -> Around
        ensures { result ≡ function_around mode in_main }
    {
        Around {
            region: region_of(mode),
            loops: Loops::Outside,
            straight: matches!(mode, Mode::Straight),
            in_main,
            in_body: false,
        }
    }

    fn body(self, region: Region) -> Around
        ensures { result ≡ body_around region self }
    {
        let loops = match self.loops {
            Loops::Outside => Loops::Outside,
            Loops::Inside | Loops::Beyond => Loops::Beyond,
        };
        Around {
            region,
            loops,
            in_main: false,
            in_body: true,
            ..self
        }
    }
}
