//! The operators of scripts.

/// An operator: the twenty binary ones, and then the eleven assignments.
/// rhai: `Token`, of which these are the operators of values.
#[derive(Clone, Copy, Debug, PartialEq, Eq)]
pub enum Token {
    /// `+`
    Plus,
    /// `-`
    Minus,
    /// `*`
    Multiply,
    /// `/`
    Divide,
    /// `%`
    Modulo,
    /// `**`
    PowerOf,
    /// `>>`
    RightShift,
    /// `<<`
    LeftShift,
    /// `&`
    Ampersand,
    /// `|`
    Pipe,
    /// `^`
    XOr,
    /// `==`
    EqualsTo,
    /// `!=`
    NotEqualsTo,
    /// `>`
    GreaterThan,
    /// `>=`
    GreaterThanEqualsTo,
    /// `<`
    LessThan,
    /// `<=`
    LessThanEqualsTo,
    /// `..`
    ExclusiveRange,
    /// `..=`
    InclusiveRange,
    /// `=`
    Equals,
    /// `+=`
    PlusAssign,
    /// `-=`
    MinusAssign,
    /// `*=`
    MultiplyAssign,
    /// `/=`
    DivideAssign,
    /// `%=`
    ModuloAssign,
    /// `**=`
    PowerOfAssign,
    /// `>>=`
    RightShiftAssign,
    /// `<<=`
    LeftShiftAssign,
    /// `&=`
    AndAssign,
    /// `|=`
    OrAssign,
    /// `^=`
    XOrAssign,
}
