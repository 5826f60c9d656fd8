// The syntax tree of a program. Brackets are nodes, so that a tree has one spelling.

use crate::operator::{Operator, Origin};
use strc_lex_names::name::{Name, StringLiteral};
use strc_lex_names::place::Span;

/// A whole text: its declarations, in order.
pub struct Program {
    pub declarations: Vec<Decl>,
}

/// A named stream: `int->void filter Printer(int n) { .. }`.
pub struct Decl {
    pub name: Name,
    /// The names of its parameters; nothing where no brackets are written.
    pub parameters: Option<Vec<Name>>,
    pub stream: StreamTree,
}

/// What is declared.
pub enum StreamTree {
    Filter(FilterTree),
    Composite(CompositeTree),
}

/// What flows on a stream's input or output: numbers, or nothing.
#[derive(Clone, Copy)]
pub enum ItemType {
    Int,
    Void,
}

/// A filter without its name: its types and its members, in order.
pub struct FilterTree {
    pub input: ItemType,
    pub output: ItemType,
    pub members: Vec<Member>,
}

/// A part of a filter.
#[cycle(tree)]
pub enum Member {
    /// `int x = 1, y;`
    Fields(Variables),
    /// `init { .. }`
    Init(Vec<Stmt>),
    /// `prework push 1 { .. }`: its rates, each at most once, and its block
    Prework(Vec<RateTree>, Vec<Stmt>),
    /// `work push 1 { .. }`
    Work(Vec<RateTree>, Vec<Stmt>),
    /// `int f(int n) { .. }`: a helper function, with the names of its parameters and its block
    Helper(HelperType, Name, Vec<Name>, Vec<Stmt>),
}

/// What a call of a helper function gives.
#[derive(Clone, Copy)]
pub enum HelperType {
    /// `int`
    Int,
    /// `boolean`
    Boolean,
    /// `void`: nothing
    Void,
}

/// A rate as it is written: `push 1`.
pub struct RateTree {
    pub kind: RateKind,
    pub rate: Expr,
    /// Where it is written.
    pub place: Span,
}

/// Which rate it is.
#[derive(Clone, Copy)]
pub enum RateKind {
    Push,
    Pop,
    Peek,
}

/// A pipeline, a split-join or a feedback loop without its name: its types, its kind and its block.
pub struct CompositeTree {
    pub types: StreamType,
    pub kind: CompositeKind,
    pub block: Vec<Stmt>,
}

/// What a stream takes and what it gives: `int->void`.
#[derive(Clone, Copy)]
pub struct StreamType {
    pub input: ItemType,
    pub output: ItemType,
}

/// How a composite stream puts its children together.
#[derive(Clone, Copy)]
pub enum CompositeKind {
    Pipeline,
    Splitjoin,
    Feedbackloop,
}

/// A declaration of variables of one type: `int x = 1, y`.
pub struct Variables {
    pub kind: VariableType,
    /// At least one.
    pub variables: Vec<Variable>,
    /// Where it is written.
    pub place: Span,
}

/// The type of variables as it is written.
pub enum VariableType {
    /// `boolean`
    Boolean,
    /// `int`
    Int,
    /// `int[8]`
    Array(Expr),
}

/// A variable in a declaration: `x = 1`.
pub struct Variable {
    pub name: Name,
    pub initial: Option<Expr>,
}

/// A statement.
#[cycle(tree)]
pub enum Stmt {
    /// `;`
    Empty,
    /// `{ .. }`
    Block(Vec<Stmt>),
    /// `int x = 1, y;`
    Declare(Variables),
    /// `x++;`
    Evaluate(Expr),
    /// `x += 1;`
    Assign(Name, AssignOperator, Expr),
    /// `x[i] += 1;`
    AssignElement(Name, Expr, AssignOperator, Expr),
    /// `if (c) ..`
    If(Expr, Box<Stmt>),
    /// `if (c) .. else ..`
    IfElse(Expr, Box<Stmt>, Box<Stmt>),
    /// `while (c) ..`
    While(Expr, Box<Stmt>),
    /// `for (first; c; step) ..`. The first part is a declaration, an assignment, an expression, or
    /// empty; the step is an assignment, an expression, or empty.
    For(Box<Stmt>, Option<Expr>, Box<Stmt>, Box<Stmt>),
    /// `push(x);`
    Push(Expr),
    /// `print(x);`
    Print(Expr),
    /// `println(x);`
    Println(Expr),
    /// `return;` or `return x;`
    Return(Option<Expr>),
    /// A statement of a composite stream: `add A;`
    Compose(Composition),
    /// A statement and where it is written. Contracts see the statement alone.
    Placed(Span, Box<Stmt>),
}

/// A statement of a composite stream.
#[cycle(tree)]
pub enum Composition {
    /// `add A(1);`, `body A;` or `loop A;`
    Child(Role, Child),
    /// `split duplicate;` or `split roundrobin(1, 2);`
    Split(Splitter),
    /// `join roundrobin(1, 2);`, or without weights
    Join(Option<Vec<Expr>>),
    /// `enqueue 0;`
    Enqueue(Expr),
}

/// What a child is for.
#[derive(Clone, Copy)]
pub enum Role {
    /// `add`
    Add,
    /// `body`
    Body,
    /// `loop`
    Loop,
}

/// A child of a composite stream.
#[cycle(tree)]
pub enum Child {
    /// `A(1, 2)`, or `A` without brackets
    Named(Name, Option<Vec<Expr>>),
    /// `Identity<int>`, with or without `()`
    Identity(Brackets),
    /// `FileReader<int>("numbers")`
    FileReader(StringLiteral),
    /// `FileWriter<int>("numbers")`
    FileWriter(StringLiteral),
    /// `int->int filter { .. }`
    Filter(StreamType, Vec<Member>),
    /// `int->int pipeline { .. }`, or without its types
    Composite(Option<StreamType>, CompositeKind, Vec<Stmt>),
}

/// Whether an empty pair of brackets is written.
#[derive(Clone, Copy)]
pub enum Brackets {
    Written,
    Missing,
}

/// How items are split.
pub enum Splitter {
    /// `duplicate`, with or without `()`
    Duplicate(Brackets),
    /// `roundrobin(1, 2)`, or without weights
    Roundrobin(Option<Vec<Expr>>),
}

/// An expression.
#[cycle(expression)]
pub enum Expr {
    /// 0 to 2147483647, or the minimum, for which 2147483648 is written.
    Number(i32),
    /// `true` or `false`
    Truth(bool),
    /// `x`
    Read(Name),
    /// `x[i]`
    Element(Name, Box<Expr>),
    /// `pop()`
    Pop,
    /// `peek(i)`
    Peek(Origin, Box<Expr>),
    /// `f(a, b)`: a call of a helper function
    Call(Name, Vec<Expr>),
    /// `(e)`
    Group(Box<Expr>),
    /// `-e`
    Unary(UnaryOperator, Box<Expr>),
    /// `x++`
    Step(StepOperator, Name),
    /// `x[i]++`
    StepElement(StepOperator, Name, Box<Expr>),
    /// `a + b`
    Binary(Operator, Box<Expr>, Box<Expr>),
    /// `c ? a : b`
    Conditional(Box<Expr>, Box<Expr>, Box<Expr>),
}

/// How an assignment changes its variable.
#[derive(Clone, Copy)]
pub enum AssignOperator {
    /// `=`
    Set,
    /// `+=`
    Add,
    /// `-=`
    Subtract,
    /// `*=`
    Multiply,
    /// `/=`
    Divide,
    /// `%=`
    Remainder,
}

/// An operator before its operand.
#[derive(Clone, Copy)]
pub enum UnaryOperator {
    /// `-`
    Negate,
    /// `!`
    Not,
    /// `~`
    Complement,
}

/// A step of a variable by one.
#[derive(Clone, Copy)]
pub enum StepOperator {
    /// `++x`, with the new value
    IncrementFirst,
    /// `--x`, with the new value
    DecrementFirst,
    /// `x++`, with the old value
    IncrementAfter,
    /// `x--`, with the old value
    DecrementAfter,
}

/// An operator between its operands, from the lowest precedence to the highest.
#[derive(Clone, Copy)]
pub enum BinaryOperator {
    /// `||`
    LogicalOr,
    /// `&&`
    LogicalAnd,
    /// `|`
    Or,
    /// `^`
    ExclusiveOr,
    /// `&`
    And,
    /// `==`
    Equal,
    /// `!=`
    NotEqual,
    /// `<`
    Less,
    /// `<=`
    LessOrEqual,
    /// `>`
    Greater,
    /// `>=`
    GreaterOrEqual,
    /// `<<`
    ShiftLeft,
    /// `>>`
    ShiftRight,
    /// `+`
    Add,
    /// `-`
    Subtract,
    /// `*`
    Multiply,
    /// `/`
    Divide,
    /// `%`
    Remainder,
}

// How trees are given up. A drop that is written out is a call for the crates above, which would
// each prove a derived one anew.

impl Drop for Program {
    fn drop(self) {
        let Program { declarations: _ } = self;
    }
}

impl Drop for Decl {
    fn drop(self) {
        let Decl {
            name: _,
            parameters: _,
            stream: _,
        } = self;
    }
}

impl Drop for StreamTree {
    fn drop(self) {
        match self {
            StreamTree::Filter(_) | StreamTree::Composite(_) => {}
        }
    }
}

impl Drop for FilterTree {
    fn drop(self) {
        let FilterTree {
            input: _,
            output: _,
            members: _,
        } = self;
    }
}

impl Drop for CompositeTree {
    fn drop(self) {
        let CompositeTree {
            types: _,
            kind: _,
            block: _,
        } = self;
    }
}

impl Drop for Member {
    #[cycle(drops)]
    fn drop(self) {
        match self {
            Member::Fields(_)
            | Member::Init(_)
            | Member::Prework(_, _)
            | Member::Work(_, _)
            | Member::Helper(_, _, _, _) => {}
        }
    }
}

impl Drop for RateTree {
    fn drop(self) {
        let RateTree {
            kind: _,
            rate: _,
            place: _,
        } = self;
    }
}

impl Drop for Variables {
    fn drop(self) {
        let Variables {
            kind: _,
            variables: _,
            place: _,
        } = self;
    }
}

impl Drop for VariableType {
    fn drop(self) {
        match self {
            VariableType::Boolean | VariableType::Int | VariableType::Array(_) => {}
        }
    }
}

impl Drop for Variable {
    fn drop(self) {
        let Variable {
            name: _,
            initial: _,
        } = self;
    }
}

impl Drop for Stmt {
    #[cycle(drops)]
    fn drop(self) {
        match self {
            Stmt::Empty
            | Stmt::Block(_)
            | Stmt::Declare(_)
            | Stmt::Evaluate(_)
            | Stmt::Assign(_, _, _)
            | Stmt::AssignElement(_, _, _, _)
            | Stmt::If(_, _)
            | Stmt::IfElse(_, _, _)
            | Stmt::While(_, _)
            | Stmt::For(_, _, _, _)
            | Stmt::Push(_)
            | Stmt::Print(_)
            | Stmt::Println(_)
            | Stmt::Return(_)
            | Stmt::Compose(_)
            | Stmt::Placed(_, _) => {}
        }
    }
}

impl Drop for Composition {
    #[cycle(drops)]
    fn drop(self) {
        match self {
            Composition::Child(_, _)
            | Composition::Split(_)
            | Composition::Join(_)
            | Composition::Enqueue(_) => {}
        }
    }
}

impl Drop for Child {
    #[cycle(drops)]
    fn drop(self) {
        match self {
            Child::Named(_, _)
            | Child::Identity(_)
            | Child::FileReader(_)
            | Child::FileWriter(_)
            | Child::Filter(_, _)
            | Child::Composite(_, _, _) => {}
        }
    }
}

impl Drop for Splitter {
    fn drop(self) {
        match self {
            Splitter::Duplicate(_) | Splitter::Roundrobin(_) => {}
        }
    }
}

impl Drop for Expr {
    #[cycle(expression_drops)]
    fn drop(self) {
        match self {
            Expr::Number(_)
            | Expr::Truth(_)
            | Expr::Read(_)
            | Expr::Element(_, _)
            | Expr::Pop
            | Expr::Peek(_, _)
            | Expr::Call(_, _)
            | Expr::Group(_)
            | Expr::Unary(_, _)
            | Expr::Step(_, _)
            | Expr::StepElement(_, _, _)
            | Expr::Binary(_, _, _)
            | Expr::Conditional(_, _, _) => {}
        }
    }
}
