// The words of the language. Every other word is a name.
ghost use Rattle.std.specs.Prelude.{◌≡◌};
ghost use Rattle.tokens.specs.Keywords.{keyword_of};

#[derive(Clone, Copy, PartialEq, Eq, Debug)]
pub enum Keyword {
    Input,
    Run,
    Fn,
    Call,
    Add,
    Sub,
    Half,
    Less,
    Num,
    To,
}

// The word of the language that `word` is, or nothing where it is a name. A name is no error, so this is no `TryFrom`.
pub fn keyword_of(word: &[u8]) -> Option<Keyword>
    ensures { result ≡ keyword_of word.now }
{
    match word {
        b"input" => Some(Keyword::Input),
        b"run" => Some(Keyword::Run),
        b"fn" => Some(Keyword::Fn),
        b"call" => Some(Keyword::Call),
        b"add" => Some(Keyword::Add),
        b"sub" => Some(Keyword::Sub),
        b"half" => Some(Keyword::Half),
        b"less" => Some(Keyword::Less),
        b"num" => Some(Keyword::Num),
        b"to" => Some(Keyword::To),
        _ => None,
    }
}
