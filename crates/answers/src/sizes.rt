// The size of a list, for a caller that holds no table of the sets (01, "Parameters").
ghost use Rattle.std.specs.Prelude.{◌≡◌};
ghost use Rattle.sets.specs.Numbers.{kappa_of};
ghost use Rattle.answers.specs.Sizes.{kappa_asked};

use sets::Set;

// The places of a list of the set that a number asks for; 0 where there is no such set.
pub fn kappa(set: u32) -> u32
    ensures { result ≡ kappa_asked set }
{
    Set::asked(set).map_or(0, kappa_of)
}

fn kappa_of(s: Set) -> u32
    ensures { result ≡ kappa_of s }
{
    s.kappa() as u32
}
