//! The tree of a program, with the line of each token that a trap or a refusal can name.
//! Lines count from 1. Parentheses leave no node.
use crate::mode::Mode;
use crate::named::Named;
use crate::operator::Operator;
use ppm_words::Items;

/// An expression.
#[derive(Drop)]
pub enum Expr {
    /// A literal, from 0 to 2^63 - 1.
    Number(i64),
    /// A name alone: a local, or in an argument a region that is lent.
    Name(Named),
    /// An element of a region.
    Element(Named, Box<Expr>),
    /// The length of a region.
    Len(Named),
    /// A unary minus, with the line of its sign.
    Minus(u32, Box<Expr>),
    /// An operation on two operands, with the line of the operator.
    Binary(Operator, u32, Box<Expr>, Box<Expr>),
}

/// An argument of a call, with the line of its first token.
#[derive(Drop)]
pub struct Argument {
    pub line: u32,
    pub value: Expr,
}

/// A call, or a side of a fork: the local that gets the value, if any, the procedure and its
/// arguments.
#[derive(Drop)]
pub struct Side {
    pub target: Option<Named>,
    pub callee: Named,
    pub arguments: Items<Argument>,
}

/// A statement.
#[derive(Drop)]
pub enum Stmt {
    /// The declaration of a local, and its value.
    Let(Named, Expr),
    /// An assignment to a local.
    Assign(Named, Expr),
    /// An assignment to an element of a region: index, then value.
    Put(Named, Expr, Expr),
    /// A test, the block where it holds, and the one where it doesn't, which is empty where there
    /// is no `else`.
    If(Expr, Vec<Stmt>, Vec<Stmt>),
    /// A test and the block that is run as long as it holds.
    While(Expr, Vec<Stmt>),
    /// A call.
    Call(Side),
    /// Two calls, each in a branch of its own.
    Fork(Side, Side),
    /// A region in two parts, with the line of the word: the region, how many words the first part
    /// has, both parts.
    Split(u32, Named, Expr, Named, Named, Vec<Stmt>),
    /// A block for each index of a region: the index, the part of one element, the region.
    Each(Named, Named, Named, Vec<Stmt>),
}

/// What a body gives, with the line of the word.
#[derive(Drop)]
pub struct Give {
    pub line: u32,
    pub value: Expr,
}

/// A parameter.
#[derive(Debug, Drop)]
pub struct Parameter {
    pub mode: Mode,
    pub name: Named,
}

/// A procedure: its name, its parameters, the statements of its body and what the body gives after
/// them, if anything.
#[derive(Drop)]
pub struct Proc {
    pub name: Named,
    pub parameters: Items<Parameter>,
    pub body: Vec<Stmt>,
    pub give: Option<Give>,
}

/// The declaration of an array of so many words.
#[derive(Debug, Drop)]
pub struct Array {
    pub name: Named,
    pub words: u32,
}

/// The values that an array has in front.
#[derive(Debug, Drop)]
pub struct ArrayInput {
    pub name: Named,
    pub values: Items<i64>,
}

/// What a program declares, each kind in the order of the text.
#[derive(Drop)]
pub struct Tree {
    pub arrays: Items<Array>,
    pub procedures: Items<Proc>,
    pub inputs: Items<ArrayInput>,
}
