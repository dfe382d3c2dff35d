// The algebra of levels: who may see a reading.
ghost use Rattle.std.specs.Prelude.{◌≡◌};
ghost use Rattle.grades.specs.Levels.{lower, higher, level_covers, level_taking, begins, level_reading, level_writing};
ghost use Rattle.grades.specs.declared.level.Level.TheVariants.{Public, Crew, Secret};
ghost use Rattle.std.proofs.Common.{rules};
ghost use Rattle.grades.specs.Words.{level_text};

use crate::algebra::{Algebra, Written};
use text::put_bytes;

// All levels, in their order.
const LEVELS: [Level; 3] = [Level::Public, Level::Crew, Level::Secret];

// `Public` is one, `Secret` is zero, and they rise in this order.
#[derive(Clone, Copy, Debug, PartialEq, Eq, PartialOrd, Ord)]
pub enum Level {
    Public,
    Crew,
    Secret,
}

impl Level {
    // The text of the level.
    fn text(self) -> &'static [u8]
        ensures { result.now ≡ level_writing self }
    {
        match self {
            Level::Public => b"public",
            Level::Crew => b"crew",
            Level::Secret => b"secret",
        }
    }

    // Whether the bytes begin with the text of the level.
    fn begins(self, bytes: &[u8]) -> bool
        ensures { result ≡ begins self bytes.now }
    {
        bytes.starts_with(self.text())
    }
}

impl Algebra for Level {
    ghost nil = { Secret };

    ghost unit = { Public };

    ghost plus = { lower };

    ghost times = { higher };

    ghost lub = { lower };

    ghost permits = { level_covers };

    ghost taking = { level_taking };

    ghost kept = { Prim.search rules };

    fn zero() -> Level {
        Level::Secret
    }

    fn one() -> Level {
        Level::Public
    }

    // The lower of the two. The ends of the order answer alone, since `self.min(other)` is slower over all pairs.
    fn sum(self, other: Level) -> Level {
        match self {
            Level::Public => Level::Public,
            Level::Crew => other.min(Level::Crew),
            Level::Secret => other,
        }
    }

    // The higher of the two, written out for the same reason.
    fn product(self, other: Level) -> Level {
        match self {
            Level::Public => other,
            Level::Crew => other.max(Level::Crew),
            Level::Secret => Level::Secret,
        }
    }

    fn join(self, other: Level) -> Level {
        self.sum(other)
    }

    fn same(self, other: Level) -> bool {
        self == other
    }

    fn covers(self, other: Level) -> bool {
        self <= other
    }

    fn take(self) -> Option<Level> {
        (self == Level::Public).then_some(self)
    }
}

impl Written for Level {
    ghost reading = { level_reading };

    ghost writing = { level_writing };

    ghost text = { level_text };

    fn read(bytes: &[u8]) -> Option<(Level, usize)> {
        let level = LEVELS.iter().find(|level| level.begins(bytes))?;
        Some((*level, level.text().len()))
    }

    fn room_after(self, room: usize) -> Option<usize> {
        text::room_after(self.text().len(), room)
    }

    fn write(self, out: &mut [u8], at: usize) -> Option<usize> {
        put_bytes(self.text(), out, at)
    }
}
