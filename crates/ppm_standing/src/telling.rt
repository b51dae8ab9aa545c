//! What is told of the place where a run stands.
ghost use Rattle.std.specs.Prelude.{◌≡◌, IfOk, [], map, reverse, nat_eq, if◌then◌else◌};
ghost use Rattle.ppm_tree.specs.Tree.{block_of, expression_of, procedure_of, side_of, statement_of};
ghost use Rattle.ppm_by_name.specs.Frames.{frame_of};
ghost use Rattle.ppm_standing.specs.Shown.{next_of, rest_of, run_of};
ghost use Rattle.ppm_by_name.specs.Readings.{statement_readings};
ghost use Rattle.ppm_standing.specs.Stood.{IsCounted, IsStood, called_line, expression_line as line_of_expression};
ghost use Rattle.ppm_standing.specs.Stood.{next_line, next_readings, rest_line, rest_readings, give_readings};
ghost use Rattle.ppm_standing.specs.Stood.{block_line, block_readings, give_line, or_line as line_or, side_line, statement_line};

use crate::around::Rest;
use crate::run::{Next, Run};
use crate::stood::Stood;
use ppm_by_name::{Frame, Reading, read_call, read_element, read_fork, read_split, read_value};
use ppm_tree::{Expr, Proc, Side, Stmt};
use ppm_words::{Items, NoMemory};
use std::alloc::Global;

/// A line, or another one where it is 0.
fn or_line(line: u32, other: u32) -> u32
    ensures { result ≡ line_or line other }
{
    if line == 0 { other } else { line }
}

/// The line of the first sign or name of an expression, 0 where there are numbers alone.
fn expression_line(e: &Expr) -> u32
    ensures { result ≡ line_of_expression (expression_of e.now) }
{
    match e {
        Expr::Number(_) => 0,
        Expr::Name(name) => name.line,
        Expr::Element(name, _) => name.line,
        Expr::Len(name) => name.line,
        Expr::Minus(line, _) => *line,
        Expr::Binary(_, line, left, _) => or_line(expression_line(left), *line),
    }
}

/// The line of a call: of its target, or of its procedure.
fn line_of_side(side: &Side) -> u32
    ensures { result ≡ side_line (side_of side.now) }
{
    match &side.target {
        None => side.callee.line,
        Some(target) => target.line,
    }
}

/// The line of a statement: of its first name or sign, 0 where there is none.
fn line_of_statement(statement: &Stmt) -> u32
    ensures { result ≡ statement_line (statement_of statement.now) }
{
    match statement {
        Stmt::Let(name, _) => name.line,
        Stmt::Assign(name, _) => name.line,
        Stmt::Put(name, _, _) => name.line,
        Stmt::If(test, _, _) => expression_line(test),
        Stmt::While(test, _) => expression_line(test),
        Stmt::Call(side) => line_of_side(side),
        Stmt::Fork(left, _) => line_of_side(left),
        Stmt::Split(line, _, _, _, _, _) => *line,
        Stmt::Each(index, _, _, _) => index.line,
    }
}

/// The line of the first statement of a block, 0 where there is none.
fn line_of_block(body: &[Stmt]) -> u32
    ensures { result ≡ block_line (block_of body.now) }
{
    match body.split_first() {
        None => 0,
        Some((first, _)) => line_of_statement(first),
    }
}

/// The line of what a procedure gives, 0 where it gives nothing.
fn line_of_give(procedure: &Proc) -> u32
    ensures { result ≡ give_line (procedure_of procedure.now).give }
{
    match &procedure.give {
        None => 0,
        Some(give) => give.line,
    }
}

/// The line of a loop: of its test, or of its block.
fn line_of_test(test: &Expr, block: &[Stmt]) -> u32
    ensures { result ≡ line_or (line_of_expression (expression_of test.now)) (block_line (block_of block.now)) }
{
    or_line(expression_line(test), line_of_block(block))
}

/// The line of what goes on after a block.
fn line_of_rest(rest: &Rest<'_>, procedure: &Proc) -> u32
    ensures { result ≡ rest_line (rest_of rest.now) (procedure_of procedure.now).give }
{
    match rest {
        Rest::Block(body) => line_of_block(body),
        Rest::Loop(test, block) => line_of_test(test, block),
        Rest::Parts(_, body) => line_of_block(body),
        Rest::Sweeps(sweep) => sweep.index.line,
        Rest::Call(_) => line_of_give(procedure),
        Rest::Left(_, _, _) => line_of_give(procedure),
        Rest::Right(_, _, _) => line_of_give(procedure),
    }
}

/// The line of what comes next, 0 where no line is kept.
fn line_of_next(next: &Next<'_>, procedure: &Proc) -> u32
    ensures { result ≡ next_line (next_of next.now) (procedure_of procedure.now).give }
{
    match next {
        Next::Enter => 0,
        Next::Block(body) => line_of_block(body),
        Next::Test(test, block) => line_of_test(test, block),
        Next::Leave(rest) => line_of_rest(rest, procedure),
        Next::Last => line_of_give(procedure),
    }
}

/// The names of a statement.
fn read_statement(
    alloc: Global,
    procedures: &[Proc],
    frame: &Frame,
    statement: &Stmt,
) -> Result<Vec<Reading>, NoMemory>
    ensures { IfOk result (λ v. v.items ≡ statement_readings (map procedure_of procedures.now) (frame_of frame.now) (statement_of statement.now)) }
{
    match statement {
        Stmt::Let(_, e) => read_value(alloc, frame, e),
        Stmt::Assign(_, e) => read_value(alloc, frame, e),
        Stmt::Put(name, index, e) => read_element(alloc, frame, &name.name, index, e),
        Stmt::If(test, _, _) => read_value(alloc, frame, test),
        Stmt::While(test, _) => read_value(alloc, frame, test),
        Stmt::Call(side) => read_call(alloc, procedures, frame, side),
        Stmt::Fork(left, right) => read_fork(alloc, procedures, frame, left, right),
        Stmt::Split(_, region, at, _, _, _) => read_split(alloc, frame, &region.name, at),
        Stmt::Each(_, _, _, _) => Ok(Vec::new(alloc)),
    }
}

impl<'a> Run<'a> {
    /// The names of what the procedure gives.
    fn read_give(&self, alloc: Global) -> Result<Vec<Reading>, NoMemory>
        ensures { IfOk result (λ v. v.items ≡ give_readings [] (run_of self.now).procedure.give (run_of self.now)) }
    {
        match &self.procedure.give {
            None => Ok(Vec::new(alloc)),
            Some(give) => read_value(alloc, &self.frame, &give.value),
        }
    }

    /// The names of what goes on after a block.
    fn read_rest(&self, alloc: Global, rest: &Rest<'a>) -> Result<Vec<Reading>, NoMemory>
        ensures { IfOk result (λ v. v.items ≡ rest_readings [] (rest_of rest.now) (run_of self.now)) }
    {
        match rest {
            Rest::Block(_) => Ok(Vec::new(alloc)),
            Rest::Loop(_, _) => Ok(Vec::new(alloc)),
            Rest::Parts(_, _) => Ok(Vec::new(alloc)),
            Rest::Sweeps(_) => Ok(Vec::new(alloc)),
            Rest::Call(_) => self.read_give(alloc),
            Rest::Left(_, _, _) => self.read_give(alloc),
            Rest::Right(_, _, _) => self.read_give(alloc),
        }
    }

    /// The names of the first statement of a block.
    fn read_block(
        &self,
        alloc: Global,
        procedures: &[Proc],
        body: &[Stmt],
    ) -> Result<Vec<Reading>, NoMemory>
        ensures { IfOk result (λ v. v.items ≡ block_readings (map procedure_of procedures.now) (block_of body.now) (run_of self.now)) }
    {
        match body.split_first() {
            None => Ok(Vec::new(alloc)),
            Some((first, _)) => read_statement(alloc, procedures, &self.frame, first),
        }
    }

    /// The names of what comes next.
    fn read_next(&self, alloc: Global, procedures: &[Proc]) -> Result<Vec<Reading>, NoMemory>
        ensures { IfOk result (λ v. v.items ≡ next_readings (map procedure_of procedures.now) (run_of self.now).next (run_of self.now)) }
    {
        match &self.next {
            Next::Enter => Ok(Vec::new(alloc)),
            Next::Block(body) => self.read_block(alloc, procedures, body),
            Next::Test(test, _) => read_value(alloc, &self.frame, test),
            Next::Leave(rest) => self.read_rest(alloc, rest),
            Next::Last => self.read_give(alloc),
        }
    }

    /// What is told of the place where it stands.
    pub(crate) fn tell(self, alloc: Global, procedures: &[Proc]) -> Result<Stood, NoMemory>
        ensures { IfOk result (IsStood (map procedure_of procedures.now) (run_of self.entry)) }
    {
        let values = self.read_next(alloc, procedures)?;
        let running = self.procedure;
        let line = or_line(line_of_next(&self.next, running), running.name.line);
        let procedure = running.name.name.try_clone(alloc)?;
        let (calls, call_line) = count(self.around)?;
        Ok(Stood {
            line,
            procedure,
            procedure_line: running.name.line,
            values: Items::from_vec(values),
            calls,
            call_line,
        })
    }
}

/// The line of a call that is open, if it is one.
fn line_of_call(rest: &Rest<'_>) -> Option<u32>
    ensures { result ≡ called_line (rest_of rest.now) }
{
    match rest {
        Rest::Block(_) => None,
        Rest::Loop(_, _) => None,
        Rest::Parts(_, _) => None,
        Rest::Sweeps(_) => None,
        Rest::Call(caller) => Some(line_of_side(caller.side)),
        Rest::Left(caller, _, _) => Some(line_of_side(caller.side)),
        Rest::Right(_, right, _) => Some(line_of_side(right)),
    }
}

/// How many calls are open, and the line of the innermost one.
fn count(around: Vec<Rest<'_>>) -> Result<(u64, u32), NoMemory>
    ensures { IfOk result (IsCounted (map rest_of (reverse around.entry.items))) }
{
    let mut left = around;
    let mut calls: u64 = 0;
    let mut line = 0;
    while let Some(rest) = left.pop() {
        if let Some(at) = line_of_call(&rest) {
            if calls == 0 {
                line = at;
            }
            if calls == u64::MAX {
                return Err(NoMemory);
            }
            calls += 1;
        }
    }
    Ok((calls, last_line(calls, line)))
}

/// A line that was found if calls were, else 0.
fn last_line(calls: u64, line: u32) -> u32
    ensures { result ≡ (if nat_eq calls 0 then 0 else line) }
{
    if calls == 0 { 0 } else { line }
}
