//! The tokens of expressions.

ghost use Rattle.std.specs.Prelude.{◌≡◌};
ghost use Rattle.expr_syntax.specs.Tokens.{mark_text};

use fixed_num::Num;
use text_kit::Text;

/// A word, a number, a text or a mark of an expression.
#[derive(Debug, Drop)]
pub(crate) enum Token {
    /// A name.
    Name(Text),
    /// A number without a sign, in millionths.
    Number(Num),
    /// A text, without its quotes and escapes.
    Quoted(Text),
    /// A mark.
    Mark(Mark),
}

/// A mark of one to three bytes.
#[derive(Clone, Copy, Debug, PartialEq, Eq)]
pub(crate) enum Mark {
    /// `||`
    Or,
    /// `&&`
    And,
    /// `==`
    Like,
    /// `!=`
    NotLike,
    /// `===`
    Same,
    /// `!==`
    NotSame,
    /// `<`
    Less,
    /// `<=`
    LessSame,
    /// `>`
    More,
    /// `>=`
    MoreSame,
    /// `+`
    Plus,
    /// `-`
    Minus,
    /// `*`
    Times,
    /// `/`
    Over,
    /// `%`
    Percent,
    /// `!`
    Not,
    /// `?`
    Question,
    /// `:`
    Colon,
    /// `,`
    Comma,
    /// `.`
    Point,
    /// `(`
    Open,
    /// `)`
    Close,
    /// `[`
    OpenSquare,
    /// `]`
    CloseSquare,
}

impl Mark {
    /// How the mark is written.
    pub(crate) fn text(self) -> &'static str
        ensures { result.now ≡ mark_text self }
    {
        match self {
            Mark::Or => "||",
            Mark::And => "&&",
            Mark::Like => "==",
            Mark::NotLike => "!=",
            Mark::Same => "===",
            Mark::NotSame => "!==",
            Mark::Less => "<",
            Mark::LessSame => "<=",
            Mark::More => ">",
            Mark::MoreSame => ">=",
            Mark::Plus => "+",
            Mark::Minus => "-",
            Mark::Times => "*",
            Mark::Over => "/",
            Mark::Percent => "%",
            Mark::Not => "!",
            Mark::Question => "?",
            Mark::Colon => ":",
            Mark::Comma => ",",
            Mark::Point => ".",
            Mark::Open => "(",
            Mark::Close => ")",
            Mark::OpenSquare => "[",
            Mark::CloseSquare => "]",
        }
    }
}
