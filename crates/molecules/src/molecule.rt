ghost use Rattle.pictures.specs.Pictures.{shape};
ghost use Rattle.molecules.specs.Atoms.{Unwalled};

use pictures::Picture;

mod drawing;

/// A wanted molecule: a picture without walls, in which a free cell is indifferent.
#[derive(Clone, Copy, Debug)]
pub struct Molecule {
    picture: Picture,
    ghost unwalled: { Unwalled (shape picture) },
}
