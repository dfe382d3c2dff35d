// What a reading works on: a text, and the program and the grade list that it fills.
ghost use Rattle.std.specs.Prelude.{◌≡◌, length};

use crate::tables::Program;

#[derive(Drop)]
pub(crate) struct Reader<'t, 's, G> {
    pub(crate) text: &'t [u8],
    pub(crate) program: &'s mut Program,
    pub(crate) grades: &'s mut [G],
    // the list has 256 places
    ghost list: { length grades.now ≡ 256 },
}
