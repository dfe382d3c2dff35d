// The types that a judging meets.
ghost use Rattle.std.specs.Prelude.{◌≤◌, vec_capacity};
ghost use Rattle.language.specs.Tables.{TypesSound};

use language::SimpleType;

// The types of a program, and behind them the results of functions. Each type refers to older ones, by index, since a
// session takes no memory once it is made.
#[derive(Drop)]
pub struct TypeTable {
    pub(crate) types: Vec<SimpleType>,
    // room for the types of the largest rule, and for as many functions
    ghost room: { 1024 ≤ vec_capacity types },
    ghost sound: { TypesSound 256 types.items },
}
