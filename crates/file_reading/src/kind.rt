//! Kinds of refusal, as a report tells them.
ghost use Rattle.std.specs.Prelude.{◌≡◌};
ghost use Rattle.file_reading.specs.Kinds.{Row};

/// A kind of refusal, which has a row in its reader's table.
pub trait RefusalKind: Copy {
    // how a report numbers it, and names it
    ghost row: { Self → Row };

    /// Its name, as its row has it.
    fn name(self) -> &'static str
        ensures name { result.now ≡ (row self).name };

    /// Its number, as its row has it.
    fn number(self) -> u32
        ensures number { result ≡ (row self).number };
}

/// The name of a kind of refusal: its variant's, or that of the kind that the variant in parentheses holds.
#[macro_export]
macro_rules! name_of {
    ($kind:expr, $of:ident$(($held:ident))?: $($name:ident)*) => {
        match $kind {
            $($of::$held(kind) => kind.name(),)?
            $($of::$name => stringify!($name),)*
        }
    };
}
