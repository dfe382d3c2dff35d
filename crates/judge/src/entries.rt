// What the entries of a program say, and when two types are the same.
ghost use Rattle.std.specs.Prelude.{◌≡◌, ◌<◌, true, length, slice_index_or};
ghost use Rattle.language.specs.Tables.{type_sound};
ghost use Rattle.grammar.specs.Storing.{place_of};
ghost use Rattle.typing.specs.Judging.{same_type};
ghost use Rattle.judge.specs.Meaning.{type_in, node_at};

use crate::graded::GradedRule;
use crate::table::TypeTable;
use grades::Algebra;
use language::SimpleType;

impl<G: Algebra> GradedRule<'_, G> {
    // The grade at the index.
    pub(crate) fn grade(&self, index: usize) -> G
        requires { index < 256 }
        ensures { result ≡ slice_index_or self.now.grades.now index G.Algebra.nil }
    {
        self.grades[index]
    }

    // Where the term number `node` stands in the text.
    pub(crate) fn place(&self, node: usize) -> usize
        requires { node < length self.now.rule.now.program.nodes.items }
        ensures { result ≡ place_of (node_at G.Algebra.nil self.now node) }
    {
        self.rule.program.nodes[node].place
    }

    // Whether the two types of the table are the same, by the grades of the list.
    pub(crate) fn same_type(&self, types: &TypeTable, left: SimpleType, right: SimpleType) -> bool
        requires left { type_sound 256 (length types.now.types.items) left ≡ true }
        requires right { type_sound 256 (length types.now.types.items) right ≡ true }
        ensures { result ≡ same_type G.Algebra (type_in G.Algebra.nil self.now.grades.now types.now.types.items left) (type_in G.Algebra.nil self.now.grades.now types.now.types.items right) }
    {
        match (left, right) {
            (SimpleType::Num, SimpleType::Num) => true,
            (
                SimpleType::To { grade, from, to },
                SimpleType::To {
                    grade: other,
                    from: domain,
                    to: result,
                },
            ) => {
                self.grade(grade).same(self.grade(other))
                    && self.same_type(types, types.get(from), types.get(domain))
                    && self.same_type(types, types.get(to), types.get(result))
            }
            _ => false,
        }
    }
}
