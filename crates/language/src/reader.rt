// The reader: from a rule's text to the tables of a program and the rule's grades.
ghost use Rattle.std.specs.Prelude.{◌≡◌, ◌+◌, ◌^◌, ◌<◌, ◌≤◌, length, replicate, IfOk};
ghost use Rattle.tokens.specs.Tokens.{lexeme, seen, token_at};
ghost use Rattle.language.specs.Reading.{told, tables_of, state_of, graded, name_of, type_head, term_head, rule_head, grade_of, ended, binder, named, binder_grade, bound_of, simple_type, term, term_parts, rule, no_tables, text_read, program_read};
ghost use Rattle.language.specs.Scopes.{scope_items, open_names};
ghost use Rattle.language.specs.Growth.{Grown, TermFits};
ghost use Rattle.language.specs.Readers.{tables_in, state_in, GoesOn, StoresGrade};

use crate::heads::{Binary, Parsed, RuleHead, TermHead, TypeHead};
use crate::program::{Binder, Node, SimpleType, Term};
use crate::reading::Reader;
use crate::scope::Scope;
use crate::tables::{GRADES, Program};
use grades::{Algebra, Written};
use tokens::{Fault, Keyword, Placed, Refusal, Token, keyword_of, token_at};

// The longest text, the most inputs, and the depth of the deepest term or type.
const LONGEST_TEXT: usize = 16_384;

const MOST_INPUTS: usize = 8;

const MOST_DEPTH: usize = 24;

// A binder's name: any word but those of the language.
fn name_of<'a, G: Written>(placed: &Placed<'a, G>) -> Result<&'a [u8], Fault>
    ensures { named result ≡ name_of (lexeme placed.now.token) placed.now.place }
{
    match placed.token {
        Token::Word(word) if keyword_of(word).is_none() => Ok(word),
        _ => Err(Refusal::Unexpected.at(placed.place)),
    }
}

// What begins a type. It has the shape of `rule_head`, with words and a definition of its own: one function over a closure
// from the word to the head would be longer than both, since a clause would have to tie the closure to the definitions.
fn type_head<G: Written>(placed: &Placed<'_, G>) -> Result<TypeHead, Fault>
    ensures { result ≡ type_head (lexeme placed.now.token) placed.now.place }
{
    match placed.token {
        Token::Word(word) => match keyword_of(word) {
            Some(Keyword::Num) => Ok(TypeHead::Num),
            Some(Keyword::To) => Ok(TypeHead::To),
            _ => Err(Refusal::Unexpected.at(placed.place)),
        },
        _ => Err(Refusal::Unexpected.at(placed.place)),
    }
}

// What begins a term, where the names of `scope` are open.
fn term_head<G: Written>(
    placed: &Placed<'_, G>,
    scope: &Scope<'_, &[u8]>,
) -> Result<TermHead, Fault>
    requires { length (scope_items scope.now) < 2 ^ 64 }
    ensures { result ≡ term_head (open_names scope.now) (lexeme placed.now.token) placed.now.place }
{
    match placed.token {
        Token::Word(word) => match keyword_of(word) {
            Some(Keyword::Fn) => Ok(TermHead::Fn),
            Some(Keyword::Call) => Ok(TermHead::Binary(Binary::Call)),
            Some(Keyword::Add) => Ok(TermHead::Binary(Binary::Add)),
            Some(Keyword::Sub) => Ok(TermHead::Binary(Binary::Sub)),
            Some(Keyword::Half) => Ok(TermHead::Half),
            Some(Keyword::Less) => Ok(TermHead::Less),
            Some(_) => Err(Refusal::Unexpected.at(placed.place)),
            None => scope
                .index_of(word)
                .map(TermHead::Name)
                .ok_or(Refusal::NotOpen.at(placed.place)),
        },
        Token::Number(_, value) => Ok(TermHead::Number(value)),
        _ => Err(Refusal::Unexpected.at(placed.place)),
    }
}

// What begins an input or the run term, in the shape of `type_head`, and for the same reason apart from it.
fn rule_head<G: Written>(placed: &Placed<'_, G>) -> Result<RuleHead, Fault>
    ensures { result ≡ rule_head (lexeme placed.now.token) placed.now.place }
{
    match placed.token {
        Token::Word(word) => match keyword_of(word) {
            Some(Keyword::Input) => Ok(RuleHead::Input),
            Some(Keyword::Run) => Ok(RuleHead::Run),
            _ => Err(Refusal::Unexpected.at(placed.place)),
        },
        _ => Err(Refusal::Unexpected.at(placed.place)),
    }
}

// A grade that has to be there.
fn grade_of<G: Written>(placed: &Placed<'_, G>) -> Result<G, Fault>
    ensures { result ≡ grade_of (lexeme placed.now.token) placed.now.place }
{
    match placed.token {
        Token::Grade(_, g) => Ok(g),
        _ => Err(Refusal::Unexpected.at(placed.place)),
    }
}

// The end of the text, which has to be there.
fn ended<G: Written>(placed: &Placed<'_, G>) -> Result<(), Fault>
    ensures { result ≡ ended (lexeme placed.now.token) placed.now.place }
{
    match placed.token {
        Token::End => Ok(()),
        _ => Err(Refusal::Unexpected.at(placed.place)),
    }
}

// A binder that was read and is not stored yet, its name, and the place after it in the text. Its two values have names, so
// it is no `Parsed` of a pair.
#[derive(Clone, Copy, PartialEq, Eq, Debug)]
pub struct Bound<'t> {
    pub name: &'t [u8],
    pub binder: Binder,
    pub next: usize,
}

impl<'t, G: Written> Reader<'t, '_, G> {
    // The first token at or after the place `at`.
    fn token(&self, at: usize) -> Result<Placed<'t, G>, Fault>
        ensures { seen result ≡ token_at G.reading self.now.text.now at }
    {
        token_at(self.text, at)
    }

    // The next place in the grade list takes the grade, and is answered.
    fn add_grade(&mut self, g: G, place: usize) -> Result<usize, Fault>
        ensures on { GoesOn self.old self.new }
        ensures reads { told result (state_in self.new) ≡ graded g place (state_in self.old) }
        ensures stores { IfOk result (StoresGrade self.old self.new) }
    {
        let index = self.program.grades;
        if index >= GRADES {
            return Err(Refusal::Limit.at(place));
        }
        self.grades[index] = g;
        self.program.grades = index + 1;
        Ok(index)
    }

    // The grade of the binder whose name ends at `behind`: the token after it, or the grade one where that token is no grade.
    fn read_grade(&mut self, place: usize, behind: usize) -> Result<Parsed<usize>, Fault>
        ensures on { GoesOn self.old self.new }
        ensures reads { told result (state_in self.new) ≡ binder_grade G.reading self.old.text.now G.Algebra.unit place behind (state_in self.old) }
        ensures stores { IfOk result (λ p. StoresGrade self.old self.new p.value) }
    {
        let after = self.token(behind)?;
        let (g, place, next) = match after.token {
            Token::Grade(_, g) => (g, after.place, after.next),
            _ => (G::one(), place, behind),
        };
        let value = self.add_grade(g, place)?;
        Ok(Parsed { value, next })
    }

    // A binder: a name and a grade, which may be left out.
    fn read_binder(&mut self, at: usize) -> Result<Bound<'t>, Fault>
        ensures on { GoesOn self.old self.new }
        ensures reads { told (bound_of result) (state_in self.new) ≡ binder G.reading self.old.text.now G.Algebra.unit at (state_in self.old) }
        ensures stores { IfOk result (λ b. StoresGrade self.old self.new b.binder.grade) }
    {
        let first = self.token(at)?;
        let name = name_of(&first)?;
        let grade = self.read_grade(first.place, first.next)?;
        Ok(Bound {
            name,
            binder: Binder {
                place: first.place,
                len: name.len(),
                grade: grade.value,
            },
            next: grade.next,
        })
    }

    // The type at `at`, with `depth` levels left.
    fn read_type(&mut self, at: usize, depth: usize) -> Result<Parsed<usize>, Fault>
        ensures on { GoesOn self.old self.new }
        ensures reads { told result (state_in self.new) ≡ simple_type G.reading self.old.text.now depth at (state_in self.old) }
        ensures grows { IfOk result (λ p. Grown 0 (tables_in self.old) (tables_in self.new) × (p.value < length (tables_in self.new).types)) }
    {
        let first = self.token(at)?;
        let head = type_head(&first)?;
        let inner = self.program.count_word(depth, first.place)?;
        match head {
            TypeHead::Num => {
                let value = self.program.add_type(SimpleType::Num);
                Ok(Parsed {
                    value,
                    next: first.next,
                })
            }
            TypeHead::To => {
                let second = self.token(first.next)?;
                let g = grade_of(&second)?;
                let grade = self.add_grade(g, second.place)?;
                let from = self.read_type(second.next, inner)?;
                let to = self.read_type(from.next, inner)?;
                let value = self.program.add_type(SimpleType::To {
                    grade,
                    from: from.value,
                    to: to.value,
                });
                Ok(Parsed {
                    value,
                    next: to.next,
                })
            }
        }
    }

    // The term at `at`, with `depth` levels left, where the names of `scope` are open.
    #[cycle(reading)]
    fn read_term(
        &mut self,
        at: usize,
        depth: usize,
        scope: &Scope<'_, &'t [u8]>,
    ) -> Result<Parsed<usize>, Fault>
        requires levels { length (scope_items scope.now) + depth ≤ 32 }
        ensures on { GoesOn self.old self.new }
        ensures reads { told result (state_in self.new) ≡ term G.reading self.old.text.now G.Algebra.unit depth (open_names scope.now) at (state_in self.old) }
        ensures grows { IfOk result (λ p. Grown 0 (tables_in self.old) (tables_in self.new) × (p.value < length (tables_in self.new).nodes)) }
    {
        let first = self.token(at)?;
        let place = first.place;
        let head = term_head(&first, scope)?;
        let inner = self.program.count_word(depth, place)?;
        let parts = self.read_parts(head, first.next, inner, scope)?;
        let value = self.program.add_node(Node {
            term: parts.value,
            place,
        });
        Ok(Parsed {
            value,
            next: parts.next,
        })
    }

    // What follows the first token of a term: its parts, each with `inner` levels left.
    #[cycle(reading)]
    fn read_parts(
        &mut self,
        head: TermHead,
        next: usize,
        inner: usize,
        scope: &Scope<'_, &'t [u8]>,
    ) -> Result<Parsed<Term>, Fault>
        requires levels { length (scope_items scope.now) + inner < 32 }
        requires room { length (tables_in self.old).binders < (tables_in self.old).inputs + (tables_in self.old).words }
        ensures on { GoesOn self.old self.new }
        ensures reads { told result (state_in self.new) ≡ term_parts G.reading self.old.text.now G.Algebra.unit (simple_type G.reading self.old.text.now inner) (term G.reading self.old.text.now G.Algebra.unit inner) (open_names scope.now) head next (state_in self.old) }
        ensures grows { IfOk result (λ f. Grown 0 (tables_in self.old) (tables_in self.new) × TermFits (tables_in self.new) f.value) }
    {
        match head {
            TermHead::Name(index) => Ok(Parsed {
                value: Term::Name(index),
                next,
            }),
            TermHead::Number(value) => Ok(Parsed {
                value: Term::Number(value),
                next,
            }),
            TermHead::Fn => {
                let Bound { name, binder, next } = self.read_binder(next)?;
                let binder = self.program.add_binder(binder);
                let domain = self.read_type(next, inner)?;
                // `&*scope`: a borrowed parameter is laid into a value only when it is lent again
                let within = Scope::Inside(name, &*scope);
                let body = self.read_term(domain.next, inner, &within)?;
                Ok(Parsed {
                    value: Term::Fn {
                        binder,
                        domain: domain.value,
                        body: body.value,
                    },
                    next: body.next,
                })
            }
            TermHead::Binary(binary) => {
                let left = self.read_term(next, inner, scope)?;
                let right = self.read_term(left.next, inner, scope)?;
                Ok(Parsed {
                    value: binary.term(left.value, right.value),
                    next: right.next,
                })
            }
            TermHead::Half => {
                let part = self.read_term(next, inner, scope)?;
                Ok(Parsed {
                    value: Term::Half { part: part.value },
                    next: part.next,
                })
            }
            TermHead::Less => {
                let left = self.read_term(next, inner, scope)?;
                let right = self.read_term(left.next, inner, scope)?;
                let below = self.read_term(right.next, inner, scope)?;
                let otherwise = self.read_term(below.next, inner, scope)?;
                Ok(Parsed {
                    value: Term::Less {
                        left: left.value,
                        right: right.value,
                        below: below.value,
                        otherwise: otherwise.value,
                    },
                    next: otherwise.next,
                })
            }
        }
    }

    // The rest of the rule at `at`, with `left` more inputs allowed, where the names of `scope` are open.
    fn read_rule(
        &mut self,
        at: usize,
        left: usize,
        scope: &Scope<'_, &'t [u8]>,
    ) -> Result<(), Fault>
        requires levels { length (scope_items scope.now) + left ≤ 8 }
        requires inputs { (tables_in self.old).inputs + left ≤ 8 }
        ensures on { GoesOn self.old self.new }
        ensures reads { told result (state_in self.new) ≡ rule G.reading self.old.text.now G.Algebra.unit left (open_names scope.now) at (state_in self.old) }
    {
        let first = self.token(at)?;
        match rule_head(&first)? {
            RuleHead::Run => {
                let run = self.read_term(first.next, MOST_DEPTH, scope)?;
                let last = self.token(run.next)?;
                ended(&last)
            }
            RuleHead::Input => {
                if left == 0 {
                    return Err(Refusal::Limit.at(first.place));
                }
                let Bound { name, binder, next } = self.read_binder(first.next)?;
                self.program.add_input(binder);
                let within = Scope::Inside(name, &*scope);
                self.read_rule(next, left - 1, &within)
            }
        }
    }
}

// Reads the rule that the text is into an empty program, and its grades into the 256 places of the list.
fn read_text<G: Written>(text: &[u8], program: &mut Program, grades: &mut [G]) -> Result<(), Fault>
    requires list { length grades.old ≡ 256 }
    requires empty { tables_of program.old ≡ no_tables }
    ensures { told result (state_of program.new grades.new) ≡ text_read G.reading G.Algebra.unit text.now grades.old }
{
    if text.is_empty() {
        return Err(Refusal::NoText.at(0));
    }
    if text.len() > LONGEST_TEXT {
        return Err(Refusal::LongText.at(0));
    }
    let mut reader = Reader {
        text,
        program,
        grades,
    };
    reader.read_rule(0, MOST_INPUTS, &Scope::Empty)
}

// Every grade becomes zero.
fn clear_grades<G: Algebra>(grades: &mut [G])
    ensures { grades.new ≡ replicate (length grades.old) G.Algebra.nil }
{
    grades.fill_with(|| G::zero());
}

// Reads the rule that the text is into the program, and its grades in the order of the text into the grade list,
// with zeros behind them to the 256th. A list that is too short leaves both as they were;
// any other refusal leaves an empty program and 256 zeros. No place beyond the 256th is written.
pub fn read_program<G: Written>(
    text: &[u8],
    program: &mut Program,
    grades: &mut [G],
) -> Result<(), Fault>
    ensures { (result, tables_of program.new, grades.new) ≡ program_read G.reading G.Algebra.unit G.Algebra.nil text.now (tables_of program.old) grades.old }
{
    if grades.len() < GRADES {
        return Err(Refusal::ShortList.at(0));
    }
    let list = &mut grades[0..GRADES];
    program.clear();
    match read_text(text, program, list) {
        Ok(()) => {
            clear_grades(&mut list[program.grades..]);
            Ok(())
        }
        Err(fault) => {
            program.clear();
            clear_grades(list);
            Err(fault)
        }
    }
}
