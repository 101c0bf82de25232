//! The cells of a made board.
ghost use Rattle.board_maker.specs.declared.TheConstants.{MOST_CELLS};
ghost use Rattle.std.specs.Prelude.{◌≡◌, ◌<◌};
ghost use Rattle.board_maker.specs.MadeBoard as spec;

/// The column of cell `i`, from 0 to 99.
pub fn column(i: u32) -> u32
    ensures value { result ≡ spec.column i }
    ensures small { result < 100 }
{
    i % 100
}

/// The row of cell `i`, from 0 to 99, for cells below 10,000.
pub fn row(i: u32) -> u32
    requires { i < MOST_CELLS }
    ensures value { result ≡ spec.row i }
    ensures small { result < 100 }
{
    i / 100
}

// The number that says what is amiss in cell `i`.
fn number(seed: u64, i: u32) -> u64
    requires { i < MOST_CELLS }
    ensures { result ≡ spec.cell_number seed i }
{
    let factor = 12_917 + seed % 10_000;
    factor * (u64::from(i) + 1) / 1_000 % 8
}

/// Whether the track of cell `i` is missing.
pub fn is_broken(seed: u64, i: u32) -> bool
    requires { i < MOST_CELLS }
    ensures { result ≡ spec.is_broken seed i }
{
    number(seed, i) == 0
}

/// Whether a track joins cell `i` to the next of its row.
pub fn is_bridged(seed: u64, size: u32, i: u32) -> bool
    requires { i < MOST_CELLS }
    ensures { result ≡ spec.is_bridged seed size i }
{
    number(seed, i) == 1 && column(i) != 99 && i + 1 < size
}
