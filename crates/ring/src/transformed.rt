// A key and its spectrum.
ghost use Rattle.std.specs.Prelude.{◌≡◌};
ghost use Rattle.ring.specs.Transform.{spectrum_of};

use sets::Polynomial;

#[derive(Clone, Copy)]
pub struct Transformed<'a> {
    pub key: &'a Polynomial<u16>,
    pub spectrum: &'a Polynomial<u16>,

    ghost of_key: { spectrum.now ≡ spectrum_of key.now },
}
