ghost use Rattle.atoms.specs.Level.{atoms};
ghost use Rattle.pattern_databases.specs.Books.{Passes};

use crate::layout::Layout;

mod making;

/// A book of a level that passes the test. It is made by filling and by testing alone.
#[derive(Clone, Copy)]
pub struct Book<'a> {
    pub(crate) layout: Layout<'a>,
    pub(crate) bytes: &'a [u8],
    ghost passes: { Passes (atoms layout.level.now) bytes.now },
}
