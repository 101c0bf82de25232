//! The lines of a text, one at a time.
ghost use Rattle.std.specs.Prelude.{◌≡◌, ◌∷◌, ◌++◌, ◌+◌, ◌%◌, List, ℕ, OnOk, codes, decimal};
ghost use Rattle.std.specs.Fmt.{signed_decimal};
ghost use Rattle.macro_flatten.specs.FlatText as spec;

use planar::Spot;
use std::alloc::AllocError;
use texts::{put, put_last_digits, put_number, put_signed};

// Appends a length in millimetres.
fn push_millimetres(out: &mut Vec<u8>, n: u64) -> Result<(), AllocError>
    ensures { OnOk result (out.new.items ≡ out.old.items ++ spec.millimetres n) }
{
    put_number(out, n / 10_000_000)?;
    put(out, b".")?;
    put_last_digits(out, 7, n)
}

/// Appends the line of a word.
pub fn push_word(out: &mut Vec<u8>, text: &[u8]) -> Result<(), AllocError>
    ensures { OnOk result (out.new.items ≡ out.old.items ++ spec.spelled (spec.word text.now)) }
{
    put(out, text)?;
    put(out, b"*\n")
}

/// Appends the line of an extended word.
pub fn push_extended(out: &mut Vec<u8>, text: &[u8]) -> Result<(), AllocError>
    ensures { OnOk result (out.new.items ≡ out.old.items ++ spec.spelled (spec.extended text.now)) }
{
    put(out, b"%")?;
    put(out, text)?;
    put(out, b"*%\n")
}

/// Appends the definition of a circle of this diameter.
pub fn push_circle(out: &mut Vec<u8>, number: u64, diameter: u64) -> Result<(), AllocError>
    ensures { OnOk result (out.new.items ≡ out.old.items ++ spec.spelled (spec.circle number diameter)) }
{
    put(out, b"%ADD")?;
    put_number(out, number)?;
    put(out, b"C,")?;
    push_millimetres(out, diameter)?;
    put(out, b"*%\n")
}

/// Appends the selection of an aperture.
pub fn push_selection(out: &mut Vec<u8>, number: u64) -> Result<(), AllocError>
    ensures { OnOk result (out.new.items ≡ out.old.items ++ spec.spelled (spec.word (68 ∷ decimal number))) }
{
    put(out, b"D")?;
    put_number(out, number)?;
    put(out, b"*\n")
}

// Appends a coordinate behind its letter.
fn push_coordinate(out: &mut Vec<u8>, letter: &[u8], z: i64) -> Result<(), AllocError>
    ensures { OnOk result (out.new.items ≡ out.old.items ++ (letter.now ++ signed_decimal z)) }
{
    put(out, letter)?;
    put_signed(out, z)
}

// Appends an operation at a spot.
fn push_operation(out: &mut Vec<u8>, to: Spot, code: &[u8]) -> Result<(), AllocError>
    ensures { OnOk result (out.new.items ≡ out.old.items ++ spec.spelled (spec.operation to code.now)) }
{
    push_coordinate(out, b"X", to.x)?;
    push_coordinate(out, b"Y", to.y)?;
    put(out, code)?;
    put(out, b"*\n")
}

/// Appends a move to a spot.
pub fn push_move(out: &mut Vec<u8>, to: Spot) -> Result<(), AllocError>
    ensures { OnOk result (out.new.items ≡ out.old.items ++ spec.spelled (spec.move to)) }
{
    push_operation(out, to, b"D02")
}

/// Appends a draw to a spot.
pub fn push_draw(out: &mut Vec<u8>, to: Spot) -> Result<(), AllocError>
    ensures { OnOk result (out.new.items ≡ out.old.items ++ spec.spelled (spec.draw to)) }
{
    push_operation(out, to, b"D01")
}
