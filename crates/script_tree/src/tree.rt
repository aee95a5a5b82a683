//! Scripts as trees.

use crate::INT;
use rhai_text::{ImmutableString, Position, Token};

/// A whole script.
///
/// No tree in it has more than `MOST_LEVELS` levels.
#[derive(Drop)]
pub struct Program {
    /// The functions of the script, in their order, and the bodies of its anonymous functions.
    pub functions: Vec<Function>,
    /// The names that the script calls as functions or methods, each name with its number of
    /// arguments once.
    pub callees: Vec<Callee>,
    /// The most own variables of the body that live at the same time.
    pub slots: usize,
    /// The statements outside functions.
    pub body: Block,
    /// The variables that live at the end of the body, by their slots: first those from before it,
    /// then its own.
    pub variables: Vec<String>,
    /// How many of them are from before it.
    pub outer: usize,
}

/// A function of the script, or an anonymous one.
///
/// Its frame begins with the captured values, then come its parameters, then its variables. When a
/// block ends, later variables reuse the slots of its variables.
#[derive(Drop)]
pub struct Function {
    /// The name. That of an anonymous function is `anon$`, sixteen digits that identify its script,
    /// `$` and its number: no script can spell it.
    pub name: ImmutableString,
    /// How many captured values an anonymous function gets before its arguments.
    pub captured: usize,
    /// How many parameters the function has; these are its first own variables, from slot 0 on.
    pub parameters: usize,
    /// The most own variables that live at the same time, parameters included.
    pub slots: usize,
    pub body: Block,
    /// Whether it uses `this`.
    pub uses_this: bool,
    /// The type of its receiver, if it is a method of one type.
    pub this_type: Option<ImmutableString>,
    /// The names of the parameters, then those of the captured variables.
    pub names: Vec<ImmutableString>,
}

/// A name and a number of arguments in calls; the receiver of a method counts as one.
#[derive(Drop)]
pub struct Callee {
    pub name: ImmutableString,
    pub arguments: usize,
    /// The function of the script with the name and number of parameters that isn't a method of one
    /// type.
    pub function: Option<usize>,
}

/// The place of a variable in a function's frame.
#[derive(Clone, Copy, Debug, PartialEq, Eq)]
pub enum Slot {
    /// A parameter or a variable of the function itself, by its number.
    Own(usize),
    /// A captured variable, by its number among those of the anonymous function.
    Captured(usize),
    /// `this`: the receiver of the function.
    This,
}

/// Which variable a name means where it is used.
#[derive(Drop)]
pub enum Variable {
    /// A variable of the frame.
    Known(Slot),
    /// No variable has the name.
    Unknown(ImmutableString),
}

/// An unknown name in an anonymous function, and its position.
#[derive(Drop)]
pub struct Missing {
    pub name: ImmutableString,
    pub position: Position,
}

/// Statements in braces, or those of the whole script. The value is that of the last one.
#[cycle(tree)]
#[derive(Drop)]
pub struct Block {
    pub statements: Vec<Expr>,
    /// Where each of them begins.
    pub positions: Vec<Position>,
    /// The variables that the block itself declares have the slots from here ..
    pub first_slot: usize,
    /// .. to before here.
    pub end_slot: usize,
}

/// An expression or a statement.
#[cycle(tree)]
#[derive(Drop)]
pub enum Expr {
    /// `()`
    Unit,
    /// `true` or `false`
    Bool(bool),
    /// An int.
    Int(INT),
    /// A character.
    Char(char),
    /// A text.
    Text(ImmutableString),
    /// `[a, b]`
    Array(Vec<Expr>),
    /// `#{a: b}`; no key occurs twice.
    Object(Vec<Field>),
    /// `x`
    Variable {
        variable: Variable,
        position: Position,
    },
    /// `-a`
    Unary {
        operator: UnaryOperator,
        operand: Box<Expr>,
        position: Position,
    },
    /// `a + b - c`: operators of one precedence, from left to right.
    Run {
        first: Box<Expr>,
        rest: Vec<Term>,
    },
    /// `a in b`: the operands are `b` and `a`, evaluated in this order; `callee` is `contains`, and
    /// not a function of the script.
    Contains {
        callee: usize,
        operands: Vec<Expr>,
        position: Position,
    },
    /// `a[i].k.f(x)`: the indices and arguments are evaluated from left to right, and then the
    /// root.
    Chain {
        root: Box<Expr>,
        steps: Vec<Step>,
    },
    /// `f(x)`: `callee` is an index into the program's callees.
    Call {
        callee: usize,
        arguments: Vec<Expr>,
        position: Position,
    },
    /// `|x| a`: makes a function value of one of the program's functions, and shares these
    /// variables with it. If it uses an unknown name, that is a fault and it isn't made.
    Closure {
        function: usize,
        captured: Vec<Slot>,
        missing: Option<Missing>,
        position: Position,
    },
    /// `{ a; b }`
    Block(Block),
    /// `if a { } else if b { } else { }`: the arms in order.
    If {
        arms: Vec<Arm>,
        otherwise: Option<Block>,
    },
    /// `switch a { 1 | 2 if b => c, 3..5 => d, _ => e }`
    Switch(Box<Switch>),
    /// `while a { }`
    While(Box<Arm>),
    /// `do { } while a`, or `do { } until a`: the body runs first, and again as long as the
    /// condition has this value.
    Do(Box<Arm>, bool),
    /// `loop { }`
    Loop(Block),
    /// `for x in a { }`, or `for (x, i) in a { }`. The position is that of `a`.
    For {
        item: usize,
        index: Option<usize>,
        source: Box<Expr>,
        position: Position,
        body: Block,
        /// The name of the item.
        item_name: ImmutableString,
        /// The name of the index.
        index_name: Option<ImmutableString>,
    },
    /// `let x = a`, or `const X = a`; without a value it is `()`.
    Let {
        slot: usize,
        is_constant: bool,
        value: Option<Box<Expr>>,
        name: ImmutableString,
    },
    /// `a[i].k = b`, or `a[i].k += b`: each step is an index or a property, and none is optional.
    /// The position is that of the operator.
    Assign {
        variable: Variable,
        variable_position: Position,
        steps: Vec<Step>,
        operator: Option<Assignment>,
        value: Box<Expr>,
        position: Position,
    },
    /// `break`, or `break a`
    Break(Option<Box<Expr>>),
    /// `continue`
    Continue,
    /// `return`, or `return a`
    Return(Option<Box<Expr>>),
    /// `throw a`: the position is that of the keyword.
    Throw(Option<Box<Expr>>, Position),
    /// `try { } catch (e) { }`: the variable of the slot has what was caught while the handler
    /// runs.
    Try {
        body: Block,
        error: Option<usize>,
        handler: Block,
        /// The name for what was caught.
        error_name: Option<ImmutableString>,
    },
}

/// An operator and its right operand.
#[cycle(tree)]
#[derive(Drop)]
pub struct Term {
    pub operator: Operator,
    /// The position of the operator.
    pub position: Position,
    pub operand: Expr,
}

/// A step of a chain.
#[cycle(tree)]
#[derive(Drop)]
pub enum Step {
    /// `[i]`: the position is that of the index.
    Index {
        index: Expr,
        position: Position,
    },
    /// `.k`
    Property {
        key: ImmutableString,
        position: Position,
    },
    /// `?` before one of these: if the value so far is `()`, the chain ends with it.
    Optional {
        position: Position,
    },
    /// `.f(x)`: `callee` is an index into the program's callees; its number of arguments includes
    /// the receiver.
    Method {
        callee: usize,
        arguments: Vec<Expr>,
        position: Position,
    },
}

/// The field of an object map.
#[cycle(tree)]
#[derive(Drop)]
pub struct Field {
    pub key: ImmutableString,
    pub value: Expr,
}

/// A condition and what runs if it holds.
#[cycle(tree)]
#[derive(Drop)]
pub struct Arm {
    pub condition: Expr,
    /// The position of the condition.
    pub position: Position,
    pub body: Block,
}

/// A value and the cases of which one runs: the first with a literal equal to the value; if no case
/// has such a literal, the first with a range that contains it; in both, only cases whose guard is
/// true.
#[cycle(tree)]
#[derive(Drop)]
pub struct Switch {
    pub value: Expr,
    /// The position of the value.
    pub position: Position,
    pub cases: Vec<Case>,
    /// What runs if no case does.
    pub otherwise: Option<Block>,
    /// The index of the callee `type_of`.
    pub type_of: usize,
}

/// A case of a `switch`.
#[cycle(tree)]
#[derive(Drop)]
pub struct Case {
    pub patterns: Vec<Pattern>,
    pub guard: Option<Expr>,
    /// The position of the guard.
    pub guard_position: Position,
    pub body: Block,
}

/// What a case matches.
#[cycle(tree)]
#[derive(Drop)]
pub enum Pattern {
    /// This value, of this type.
    Literal(Expr),
    /// The ints from the first up to the last, which is excluded or included.
    Range {
        first: INT,
        last: INT,
        is_inclusive: bool,
    },
}

/// A binary operator.
#[derive(Clone, Copy, Debug, PartialEq, Eq)]
pub enum Operator {
    /// `&&`: the right operand is evaluated only if the left one is true.
    And,
    /// `||`: the right operand is evaluated only if the left one is false.
    Or,
    /// `??`: the right operand is evaluated only if the left one is `()`.
    Coalesce,
    /// An operator on values.
    Plain(Token),
}

/// A unary operator.
#[derive(Clone, Copy, Debug, PartialEq, Eq)]
pub enum UnaryOperator {
    /// `!`
    Not,
    /// `-`
    Minus,
    /// `+`
    Plus,
}

/// An assigning operator, such as `+=`, and the operator that it applies, such as `+`.
#[derive(Clone, Copy, Debug, PartialEq, Eq)]
pub struct Assignment {
    pub whole: Token,
    pub plain: Token,
}
