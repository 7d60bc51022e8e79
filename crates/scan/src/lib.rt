// A scan over places that ends at its first hit: how many places it reads, for any test.
#![tactic(auto)]

ghost use Rattle.std.specs.Prelude.{◌≡◌, eqb};
ghost use Rattle.scan.specs.Read.{read_until, ReadLaws};

// How many of `all` places a scan has read whose first hit is at place `hit`, counted from 0; all where that is none of them.
pub fn places_read(hit: usize, all: usize) -> usize
    ensures { result ≡ read_until all (eqb hit) }
{
    if hit < all {
        return hit + 1;
    }
    all
}

// Does nothing: holds the laws to their statement.
fn read_laws()
    ensures { ReadLaws }
{}
