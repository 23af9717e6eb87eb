ghost use Rattle.std.specs.Prelude.{◌≡◌, IfOk};

use fixed_num::Num;
use std::alloc::Global;
use text_kit::{Boxed, OutOfMemory, Seq, Text};

/// An expression.
#[cycle(expr)]
#[derive(Debug, Drop)]
pub enum Expr {
    /// `null`
    Null,
    /// `true` or `false`
    Flag(bool),
    /// A number, in millionths.
    Number(Num),
    /// A text, without its quotes and escapes.
    Text(Text),
    /// `datum.name` or `datum['name']`: a field of the row.
    Field(Text),
    /// A parameter.
    Param(Text),
    /// `parameter.name`
    Member(Text, Text),
    /// `!e`
    Not(Boxed<Expr>),
    /// `-e`
    Minus(Boxed<Expr>),
    /// `+e`
    Plus(Boxed<Expr>),
    /// An operator between two operands.
    Binary(BinOp, Boxed<Expr>, Boxed<Expr>),
    /// `e ? e : e`
    Choose(Boxed<Expr>, Boxed<Expr>, Boxed<Expr>),
    /// `[e, e]`
    Pair(Boxed<Expr>, Boxed<Expr>),
    /// A call of a builtin, by its code in `case_table::BUILTINS`, and its arguments.
    Call(u16, Seq<Expr>),
    /// `vlSelectionTest('p_store', datum)`: whether the selection `p` holds the row.
    Selected(Text),
    /// `length(data('p_store'))`: how many tuples the store of the selection `p` has.
    Stored(Text),
    /// `domain('s').length`: how many cells the domain of the scale `s` has.
    DomainLength(Text),
}

/// An operator between two operands.
#[derive(Clone, Copy, Debug, PartialEq, Eq)]
pub enum BinOp {
    /// `||`
    Or,
    /// `&&`
    And,
    /// `==`
    Like,
    /// `!=`
    NotLike,
    /// `===`
    Same,
    /// `!==`
    NotSame,
    /// `<`
    Less,
    /// `<=`
    LessSame,
    /// `>`
    More,
    /// `>=`
    MoreSame,
    /// `+`
    Add,
    /// `-`
    Sub,
    /// `*`
    Mul,
    /// `/`
    Div,
    /// `%`
    Rem,
}

impl Expr {
    /// A tree that equals this one.
    #[cycle(expr)]
    pub fn copy(&self, alloc: Global) -> Result<Expr, OutOfMemory>
        ensures { IfOk result (λ e. e ≡ self.now) }
    {
        match self {
            Expr::Null => Ok(Expr::Null),
            Expr::Flag(flag) => Ok(Expr::Flag(*flag)),
            Expr::Number(number) => Ok(Expr::Number(*number)),
            Expr::Text(text) => Ok(Expr::Text(text.copy()?)),
            Expr::Field(name) => Ok(Expr::Field(name.copy()?)),
            Expr::Param(name) => Ok(Expr::Param(name.copy()?)),
            Expr::Member(name, field) => Ok(Expr::Member(name.copy()?, field.copy()?)),
            Expr::Not(e) => Ok(Expr::Not(boxed_copy(alloc, e)?)),
            Expr::Minus(e) => Ok(Expr::Minus(boxed_copy(alloc, e)?)),
            Expr::Plus(e) => Ok(Expr::Plus(boxed_copy(alloc, e)?)),
            Expr::Binary(op, left, right) => {
                let left = boxed_copy(alloc, left)?;
                Ok(Expr::Binary(*op, left, boxed_copy(alloc, right)?))
            }
            Expr::Choose(test, yes, no) => {
                let test = boxed_copy(alloc, test)?;
                let yes = boxed_copy(alloc, yes)?;
                Ok(Expr::Choose(test, yes, boxed_copy(alloc, no)?))
            }
            Expr::Pair(first, second) => {
                let first = boxed_copy(alloc, first)?;
                Ok(Expr::Pair(first, boxed_copy(alloc, second)?))
            }
            Expr::Call(code, arguments) => {
                let mut out = Seq::new(alloc);
                for argument in arguments.as_slice() {
                    out.push(argument.copy(alloc)?)?;
                }
                Ok(Expr::Call(*code, out))
            }
            Expr::Selected(name) => Ok(Expr::Selected(name.copy()?)),
            Expr::Stored(name) => Ok(Expr::Stored(name.copy()?)),
            Expr::DomainLength(name) => Ok(Expr::DomainLength(name.copy()?)),
        }
    }
}

/// A boxed tree that equals the one in `e`.
#[cycle(expr)]
fn boxed_copy(alloc: Global, e: &Boxed<Expr>) -> Result<Boxed<Expr>, OutOfMemory>
    ensures { IfOk result (λ copy. copy ≡ e.now) }
{
    Boxed::new(alloc, e.get().copy(alloc)?)
}
