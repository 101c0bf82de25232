//! Commands, as each is read on its own.
use crate::kind::GerberKind;
use crate::settings::{Curve, Quadrants};
use gerber_words::WordFault;
use lengths::decimal::Unit;

/// An operation: `D01`, `D02` or `D03`.
#[derive(Clone, Copy)]
pub enum Code {
    Draw,
    Move,
    Flash,
}

/// How many digits of a number stand before and after the point that is not written.
#[derive(Clone, Copy)]
pub struct Format {
    pub integers: u8,
    pub decimals: u8,
}

/// What an operation says of an arc besides: the curve that its word sets, the numbers of `I` and `J`, and whether further offsets stand
/// behind them (4.8.2).
#[derive(Clone, Copy)]
pub struct Bending<'a> {
    pub curve: Option<Curve>,
    pub i: Option<&'a [u8]>,
    pub j: Option<&'a [u8]>,
    pub more: bool,
}

impl<'a> Bending<'a> {
    ghost use Rattle.std.specs.Prelude.{◌≡◌};
    ghost use Rattle.gerber_reading.specs.Command.{bending_of, no_bending};

    /// Nothing of an arc.
    pub fn none() -> Bending<'a>
        ensures { bending_of result ≡ no_bending }
    {
        Bending {
            curve: None,
            i: None,
            j: None,
            more: false,
        }
    }
}

/// What a command says, apart from all others. The end of a file, proper or not, is its last command.
#[derive(Clone, Copy)]
pub enum Command<'a> {
    Nothing,
    Refused(GerberKind),
    Unit(Unit),
    Format(Format),
    Define(&'a [u8]),
    /// The name of a macro.
    Macro(&'a [u8]),
    /// A word of a macro's body.
    Body(&'a [u8]),
    Select(u32),
    /// `G01`, `G02` or `G03` alone.
    Curve(Curve),
    /// `G74` or `G75`.
    Quadrants(Quadrants),
    Operate(Option<&'a [u8]>, Option<&'a [u8]>, Option<Code>, Bending<'a>),
    OpenRegion,
    CloseRegion,
    /// A step and repeat word.
    Repeat(&'a [u8]),
    End,
    Broken(WordFault),
    Finish,
    /// The function of the file, by its first two fields.
    Function(Option<&'a [u8]>, Option<&'a [u8]>),
}
