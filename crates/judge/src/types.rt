// How the table of types is made, filled and read.
ghost use Rattle.std.specs.Prelude.{◌≡◌, ◌<◌, true, [], ◌∷◌, ◌++◌, length, IfOk, slice_index_or};
ghost use Rattle.language.specs.declared.program.SimpleType.TheVariants.{Num};
ghost use Rattle.language.specs.Tables.{type_sound};

use crate::table::TypeTable;
use language::{Program, SimpleType, push_entry};
use std::alloc::{AllocError, Global};

// Room for the types of the largest rule, and for as many functions.
const MOST_TYPES: usize = 1024;

impl TypeTable {
    // An empty table. All the room that it will ever need is taken here.
    pub fn new(heap: Global) -> Result<TypeTable, AllocError>
        ensures { IfOk result (λ t. t.types.items ≡ []) }
    {
        let types = Vec::with_capacity(heap, MOST_TYPES)?;
        Ok(TypeTable { types })
    }

    // The types of the program, in place of all others.
    pub(crate) fn fill(&mut self, program: &Program)
        ensures { self.new.types.items ≡ program.now.types.items }
    {
        self.types.clear();
        for simple in &program.types {
            self.add(*simple);
        }
    }

    // One type more, which refers to those of the table.
    pub(crate) fn add(&mut self, simple: SimpleType) -> usize
        requires room { length self.old.types.items < 1024 }
        requires sound { type_sound 256 (length self.old.types.items) simple ≡ true }
        ensures index { result ≡ length self.old.types.items }
        ensures after { self.new.types.items ≡ self.old.types.items ++ simple ∷ [] }
    {
        push_entry(&mut self.types, simple)
    }

    pub(crate) fn get(&self, i: usize) -> SimpleType
        requires { i < length self.now.types.items }
        ensures { result ≡ slice_index_or self.now.types.items i Num }
    {
        self.types[i]
    }
}
