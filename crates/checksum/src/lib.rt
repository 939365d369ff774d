// A checksum of an area, so that a test program can print what a call left in every entry of it.
#![tactic(auto)]

ghost use Rattle.std.specs.Prelude.{◌≡◌};
ghost use Rattle.checksum.specs.Total.{mixed, total_by};

use areas::Entry;

const MODULUS: u64 = 65521;

// The checksum s with the entry x joined to it.
#[tactic(auto, unfolding(crate::specs::Total::mixed))]
fn join(s: u64, x: u64) -> u64
    ensures { result ≡ mixed s x }
{
    let a = (s % MODULUS * 31 + x % MODULUS) % MODULUS;
    let b = (a * 31 + x / MODULUS % MODULUS) % MODULUS;
    (b * 31 + x / MODULUS / MODULUS) % MODULUS
}

pub fn total<E: Entry>(area: &[E]) -> u64
    ensures { result ≡ total_by E.number area.now }
{
    area.iter().fold(0, |s, x| join(s, x.number()))
}
