// What is known of the open binders: their names, or their types.
ghost use Rattle.std.specs.Prelude.{◌≡◌, ◌^◌, ◌<◌, length, IfSome};
ghost use Rattle.std.specs.List.{slice_get};
ghost use Rattle.language.specs.Scopes.{scope_items, open_names, find};

// A scope: nothing is open, or one more binder is open inside another scope.
// Clone and Copy alone: the check states no derived equality of a type that leads back to itself through a borrow, and has
// no proof of a derived Debug.
#[derive(Clone, Copy)]
pub enum Scope<'a, T> {
    Empty,
    Inside(T, &'a Scope<'a, T>),
}

impl<T: Copy> Scope<'_, T> {
    // How many binders are open. A type that leads back to itself has no ghost field, so the bound stands at the calls.
    pub fn len(&self) -> usize
        requires { length (scope_items self.now) < 2 ^ 64 }
        ensures { result ≡ length (scope_items self.now) }
    {
        match self {
            Scope::Empty => 0,
            Scope::Inside(_, outer) => outer.len() + 1,
        }
    }

    // What is known of the binder that is found `k` binders outwards.
    pub fn get(&self, k: usize) -> Option<T>
        ensures { result ≡ slice_get (scope_items self.now) k }
    {
        let mut scope = self;
        let mut left = k;
        while let Scope::Inside(known, outer) = scope {
            if left == 0 {
                return Some(*known);
            }
            left -= 1;
            scope = outer;
        }
        None
    }
}

impl Scope<'_, &[u8]> {
    // How many open binders are passed, from the innermost outwards, to the first of that name.
    pub(crate) fn index_of(&self, name: &[u8]) -> Option<usize>
        requires { length (scope_items self.now) < 2 ^ 64 }
        ensures index { result ≡ find name.now (open_names self.now) }
        ensures within { IfSome result (λ k. k < length (scope_items self.now)) }
    {
        let mut scope = self;
        let mut passed = 0;
        while let Scope::Inside(innermost, outer) = scope {
            if *innermost == name {
                return Some(passed);
            }
            passed += 1;
            scope = outer;
        }
        None
    }
}
