//! The numbers of capsules and of hidden procedures.
ghost use Rattle.std.specs.Prelude.{◌≡◌, ◌≤◌, ◌+◌};
ghost use Rattle.ppm_tree.specs.Tree.{statement_of, block_of};
ghost use Rattle.ppm_cut_code.specs.Numbers.{behind, end_of, hidden_behind, hidden_behind_block};
ghost use Rattle.ppm_cut.specs.Counts.{count_limit, own_count, own_count_in, hidden_count};
ghost use Rattle.ppm_cut.specs.Counts.{hidden_count_in};

use ppm_tree::Stmt;

/// The numbers of the next capsule and of the next hidden procedure.
#[derive(Clone, Copy)]
pub struct Numbers {
    pub capsule: u32,
    pub hidden: u32,
}

impl Numbers {
    /// The numbers after a statement that begins with these.
    pub fn behind(self, statement: &Stmt) -> Numbers
        requires capsules { self.capsule + own_count (statement_of statement.now) ≤ count_limit }
        requires hidden { self.hidden + hidden_count (statement_of statement.now) ≤ count_limit }
        ensures capsule { result.capsule ≡ behind (statement_of statement.now) self.capsule }
        ensures hidden { result.hidden ≡ hidden_behind (statement_of statement.now) self.hidden }
        ensures capsule_within { result.capsule
            ≤ self.capsule + own_count (statement_of statement.now) }
        ensures hidden_within { result.hidden
            ≤ self.hidden + hidden_count (statement_of statement.now) }
    {
        Numbers {
            capsule: behind(statement, self.capsule),
            hidden: hidden_behind(statement, self.hidden),
        }
    }
}

/// The number after the capsules of a statement, the first of which has the number `at`.
#[cycle(capsules)]
pub fn behind(statement: &Stmt, at: u32) -> u32
    requires counts { at + own_count (statement_of statement.now) ≤ count_limit }
    ensures value { result ≡ behind (statement_of statement.now) at }
    ensures within { result ≤ at + own_count (statement_of statement.now) }
{
    match statement {
        Stmt::Let(_, _) | Stmt::Call(_) | Stmt::Fork(_, _) | Stmt::Each(_, _, _, _) => at + 1,
        Stmt::Assign(_, _) | Stmt::Put(_, _, _) => at + 2,
        Stmt::If(_, block, other) => {
            let first = end_of(block, at + 1) + 1;
            end_of(other, first) + 1
        }
        Stmt::While(_, block) => end_of(block, at + 1) + 1,
        Stmt::Split(_, _, _, _, _, block) => end_of(block, at + 1) + 1,
    }
}

/// The number of the capsule with which a block ends, where its first capsule has the number `at`.
#[cycle(capsules)]
pub fn end_of(block: &[Stmt], at: u32) -> u32
    requires counts { at + own_count_in (block_of block.now) ≤ count_limit }
    ensures value { result ≡ end_of (block_of block.now) at }
    ensures within { result ≤ at + own_count_in (block_of block.now) }
{
    let mut next = at;
    for statement in block {
        next = behind(statement, next);
    }
    next
}

/// The number after the hidden procedures of a statement, the first of which has the number
/// `hidden`.
#[cycle(hidden)]
pub fn hidden_behind(statement: &Stmt, hidden: u32) -> u32
    requires counts { hidden + hidden_count (statement_of statement.now) ≤ count_limit }
    ensures value { result ≡ hidden_behind (statement_of statement.now) hidden }
    ensures within { result ≤ hidden + hidden_count (statement_of statement.now) }
{
    match statement {
        Stmt::If(_, block, other) => {
            let first = hidden_behind_block(block, hidden);
            hidden_behind_block(other, first)
        }
        Stmt::While(_, block) => hidden_behind_block(block, hidden),
        Stmt::Split(_, _, _, _, _, block) => hidden_behind_block(block, hidden),
        Stmt::Each(_, _, _, block) => hidden_behind_block(block, hidden + 1),
        Stmt::Let(_, _)
        | Stmt::Assign(_, _)
        | Stmt::Put(_, _, _)
        | Stmt::Call(_)
        | Stmt::Fork(_, _) => hidden,
    }
}

/// The number after those of a block.
#[cycle(hidden)]
pub fn hidden_behind_block(block: &[Stmt], hidden: u32) -> u32
    requires counts { hidden + hidden_count_in (block_of block.now) ≤ count_limit }
    ensures value { result ≡ hidden_behind_block (block_of block.now) hidden }
    ensures within { result ≤ hidden + hidden_count_in (block_of block.now) }
{
    let mut next = hidden;
    for statement in block {
        next = hidden_behind(statement, next);
    }
    next
}
