ghost use Rattle.std.specs.Prelude.{◌≡◌, ◌+◌, ◌<◌, true, [], ◌∷◌, ◌++◌};
ghost use Rattle.pictures.specs.Pictures.{shape};
ghost use Rattle.molecules.specs.Molecules.{molecule_shape};
ghost use Rattle.molecules.specs.Atoms.{is_edged};
ghost use Rattle.molecules.specs.GoalPlaces.{list_of, goal_places, ListsExactly, ListsOnBoard, ListsEverywhere};

use super::GoalPlaces;
use crate::molecule::Molecule;
use crate::overlay::Overlay;
use pictures::Picture;

impl GoalPlaces {
    /// The goal places of a molecule on a board. With an atom on each edge it may lie nowhere else, not even with its
    /// first cell above the board or beside it.
    pub fn find(board: &Picture, molecule: &Molecule) -> GoalPlaces
        ensures finds { list_of result ≡ goal_places (shape board.now) (molecule_shape molecule.now) }
        ensures exactly { ListsExactly (shape board.now) (molecule_shape molecule.now) }
        ensures on_board { ListsOnBoard (shape board.now) (molecule_shape molecule.now) (list_of result) }
        ensures everywhere { is_edged (molecule_shape molecule.now) ≡ true
            → ListsEverywhere (shape board.now) (molecule_shape molecule.now) (list_of result) }
    {
        let mut goal_places = GoalPlaces {
            cells: [0; Picture::MOST_CELLS],
            count: 0,
        };
        for cell in 0..board.cells().len() {
            let goal_place = cell as u8;
            let overlay = Overlay {
                board,
                molecule: molecule.picture(),
                goal_place,
            };
            if overlay.fits() {
                goal_places.push(goal_place);
            }
        }
        goal_places
    }

    // Puts a goal place behind the others.
    fn push(&mut self, goal_place: u8)
        requires { self.old.count < 256 }
        ensures pushed { list_of self.new ≡ list_of self.old ++ goal_place ∷ [] }
        ensures counted { self.new.count ≡ self.old.count + 1 }
    {
        self.cells[self.count] = goal_place;
        self.count += 1;
    }

    /// The goal places in their order.
    pub fn as_slice(&self) -> &[u8]
        ensures { result.now ≡ list_of self.now }
    {
        &self.cells[..self.count]
    }
}
