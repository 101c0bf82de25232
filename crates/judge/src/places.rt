//! The place of each piece in its net.
ghost use Rattle.std.specs.Prelude.{◌≢◌, ℕ, ◌<◌, length, AllPairs};
ghost use Rattle.verdict.specs.Forest.{pieces_of};
ghost use Rattle.verdict.specs.Places.{HasPlaces, twig_at};

use verdict::Twig;

/// Writes the place of each piece of a net.
pub fn place_net(net: &[Twig], places: &mut [usize])
    requires inside { (k : ℕ) → k < length net.now → (twig_at net.now k).piece < length places.old }
    requires once { AllPairs (λ p q. p ≢ q) (pieces_of net.now) }
    ensures { HasPlaces net.now places.new }
{
    for k in 0..net.len() {
        places[net[k].piece as usize] = k;
    }
}
