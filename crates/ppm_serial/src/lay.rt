//! A program is laid out: names become slots, and blocks are put one after the other.
ghost use Rattle.std.specs.Prelude.{◌≡◌, ◌++◌, ◌∷◌, [], length, map, FitsSigned, IfOk, IfSome, OnOk};
ghost use Rattle.std.specs.Int.{w64};
ghost use Rattle.ppm_serial.specs.declared.code.Value.TheVariants as operand;
ghost use Rattle.ppm_serial.specs.declared.code.Step.TheVariants as step;
ghost use Rattle.ppm_tree.specs.Tree.{block_of, expression_of, give_of, procedure_of, side_of};
ghost use Rattle.ppm_tree.specs.Tree.{statement_of, tree_of};
ghost use Rattle.ppm_serial.specs.Laying.{HasTarget, IsCall, IsGive, IsLaid, IsLent, IsTarget};
ghost use Rattle.ppm_serial.specs.Laying.{IsWorth, LaysBlock};
ghost use Rattle.ppm_serial.specs.Laying.{LaysMore, LaysRoutine, Lends, LaysStep, PassesMore};
ghost use Rattle.ppm_serial.specs.Laying.{PassesOne, Sets, arguments_of, place_in};
ghost use Rattle.ppm_serial.specs.Names.{names_of};
ghost use Rattle.ppm_serial.specs.Slots.{Slots};
ghost use Rattle.ppm_serial.specs.Worth.{operated, worth};
ghost use Rattle.ppm_tree.specs.State.{Arrays};

use crate::code::{Blocks, Call, Code, Parts, Passed, Routine, Step, Value};
use crate::names::Names;
use ppm_tree::{Argument, Expr, Give, Mode, Named, Operator, Parameter, Proc, Side, Stmt, Tree};
use ppm_words::NoMemory;
use std::alloc::Global;

/// The procedures of a program, and the names of the one that is laid out.
#[derive(Clone, Copy)]
struct Scope<'a> {
    procedures: &'a [Proc],
    names: &'a Names,
}

/// The code of a program.
pub(crate) fn lay(alloc: Global, tree: &Tree) -> Result<Code, NoMemory>
    ensures { IfOk result (λ c. IsLaid (tree_of tree.now).procedures c) }
{
    let procedures = tree.procedures.as_slice();
    let mut blocks = Blocks::new(alloc)?;
    let mut routines = Vec::new(alloc);
    lay_all(alloc, procedures, procedures, &mut routines, &mut blocks)?;
    Ok(Code::new(routines, blocks, place_of(procedures, b"main")))
}

/// The place of the first procedure with a name, or how many there are.
pub(crate) fn place_of(procedures: &[Proc], name: &[u8]) -> usize
    ensures { result ≡ place_in (map procedure_of procedures.now) name.now }
{
    let mut at = 0;
    while at < procedures.len() {
        if procedures[at].name.name.as_bytes() == name {
            return at;
        }
        at += 1;
    }
    at
}

/// Procedures laid out after those that are there.
fn lay_all(
    alloc: Global,
    procedures: &[Proc],
    left: &[Proc],
    routines: &mut Vec<Routine>,
    blocks: &mut Blocks,
) -> Result<(), NoMemory>
    ensures { OnOk result (LaysMore (map procedure_of procedures.now) (map procedure_of left.now) blocks.old blocks.new routines.old.items routines.new.items) }
{
    match left {
        [] => Ok(()),
        [first, rest @ ..] => {
            let routine = lay_one(alloc, procedures, first, blocks)?;
            routines.push(routine)?;
            lay_all(alloc, procedures, rest, routines, blocks)
        }
    }
}

/// A procedure laid out.
fn lay_one(
    alloc: Global,
    procedures: &[Proc],
    procedure: &Proc,
    blocks: &mut Blocks,
) -> Result<Routine, NoMemory>
    ensures { IfOk result (λ r. LaysRoutine (map procedure_of procedures.now) (procedure_of procedure.now) blocks.old blocks.new r) }
{
    let names = Names::of(alloc, procedure)?;
    let scope = Scope {
        procedures,
        names: &names,
    };
    let body = scope.block(alloc, &procedure.body, blocks)?;
    let give = give(alloc, &names, &procedure.give)?;
    Ok(Routine {
        locals: names.locals().len(),
        regions: names.regions().len(),
        body,
        give,
    })
}

/// The slot of a local.
fn local_in(value: &Value) -> Option<usize>
    ensures { IfSome result (λ slot. value.now ≡ operand.Local slot) }
{
    match value {
        Value::Local(slot) => Some(*slot),
        _ => None,
    }
}

/// The number that a literal is.
fn number_in(value: &Value) -> Option<i64>
    ensures value { IfSome result (λ number. value.now ≡ operand.Number number) }
    ensures in_range { IfSome result (λ number. FitsSigned w64 number) }
{
    match value {
        Value::Number(number) => Some(*number),
        _ => None,
    }
}

/// An operator at operands that are laid out. At two locals, and at a local and a number, they are
/// in the operator's own node.
fn binary(
    alloc: Global,
    operator: Operator,
    line: u32,
    left: Value,
    right: Value,
) -> Result<Value, NoMemory>
    ensures { IfOk result (λ v. (s : Slots) (a : Arrays)
        → worth s a v ≡ operated operator line (worth s a left) (worth s a right)) }
{
    if let Some(slot) = local_in(&left) {
        if let Some(other) = local_in(&right) {
            return Ok(Value::AtLocals(operator, line, slot, other));
        }
        if let Some(number) = number_in(&right) {
            return Ok(Value::AtNumber(operator, line, slot, number));
        }
    }
    let left = Box::new(alloc, left)?;
    let right = Box::new(alloc, right)?;
    Ok(Value::Binary(operator, line, left, right))
}

/// An expression laid out.
fn value(alloc: Global, names: &Names, e: &Expr) -> Result<Value, NoMemory>
    ensures { IfOk result (λ v. IsWorth names.now (expression_of e.now) v) }
{
    match e {
        Expr::Number(number) => Ok(Value::Number(*number)),
        Expr::Name(name) => Ok(Value::Local(names.locals().slot(&name.name))),
        Expr::Element(name, index) => {
            let slot = names.regions().slot(&name.name);
            let index = value(alloc, names, index)?;
            Ok(Value::Element(slot, name.line, Box::new(alloc, index)?))
        }
        Expr::Len(name) => Ok(Value::Len(names.regions().slot(&name.name))),
        Expr::Minus(line, operand) => {
            let operand = value(alloc, names, operand)?;
            Ok(Value::Minus(*line, Box::new(alloc, operand)?))
        }
        Expr::Binary(operator, line, left, right) => {
            let left = value(alloc, names, left)?;
            let right = value(alloc, names, right)?;
            let both = binary(alloc, *operator, *line, left, right)?;
            Ok(both)
        }
    }
}

/// What a body gives, if anything.
fn give(alloc: Global, names: &Names, give: &Option<Give>) -> Result<Option<Value>, NoMemory>
    ensures { IfOk result (λ v. IsGive names.now (give_of give.now) v) }
{
    match give {
        None => Ok(None),
        Some(give) => {
            let value = value(alloc, names, &give.value)?;
            Ok(Some(value))
        }
    }
}

/// The slot of the region that an argument lends; an admitted program lends by a name alone.
fn lent(names: &Names, e: &Expr) -> Option<usize>
    ensures { IsLent names.now (expression_of e.now) result }
{
    match e {
        Expr::Name(name) => Some(names.regions().slot(&name.name)),
        Expr::Number(_) => None,
        Expr::Element(_, _) => None,
        Expr::Len(_) => None,
        Expr::Minus(_, _) => None,
        Expr::Binary(_, _, _, _) => None,
    }
}

/// A region that an argument lends to a parameter.
fn lend(names: &Names, callee: &Names, parameter: &Named, e: &Expr) -> Passed
    ensures { Lends names.now callee.now parameter.now.name (expression_of e.now) result }
{
    let slot = callee.regions().slot(&parameter.name);
    match lent(names, e) {
        Some(region) => Passed::Region(slot, region),
        None => Passed::Nowhere(slot),
    }
}

/// What an argument passes to a parameter.
fn passed(
    alloc: Global,
    names: &Names,
    callee: &Names,
    parameter: &Parameter,
    e: &Expr,
) -> Result<Passed, NoMemory>
    ensures { IfOk result (λ v. PassesOne names.now callee.now parameter.now (expression_of e.now) v) }
{
    if parameter.mode == Mode::Int {
        let value = value(alloc, names, e)?;
        return Ok(Passed::Number(callee.locals().slot(&parameter.name.name), value));
    }
    Ok(lend(names, callee, &parameter.name, e))
}

/// Adds what arguments pass to parameters, as far as there are both.
fn pass(
    alloc: Global,
    names: &Names,
    callee: &Names,
    parameters: &[Parameter],
    arguments: &[Argument],
    all: &mut Vec<Passed>,
) -> Result<(), NoMemory>
    ensures { OnOk result (PassesMore names.now callee.now parameters.now (arguments_of arguments.now) all.old.items all.new.items) }
{
    match parameters {
        [] => Ok(()),
        [parameter, parameters @ ..] => match arguments {
            [] => Ok(()),
            [argument, arguments @ ..] => {
                let one = passed(alloc, names, callee, parameter, &argument.value)?;
                all.push(one)?;
                pass(alloc, names, callee, parameters, arguments, all)
            }
        },
    }
}

/// The slot of a target, if there is one.
fn target(names: &Names, name: &Option<Named>) -> Option<usize>
    ensures { HasTarget names.now name.now → IsTarget names.now name.now result }
{
    match name {
        None => None,
        Some(name) => Some(names.locals().slot(&name.name)),
    }
}

impl<'a> Scope<'a> {
    /// A call or a side of a fork laid out.
    fn call(&self, alloc: Global, side: &Side) -> Result<Call, NoMemory>
        ensures { IfOk result (λ c. HasTarget self.now.names.now (side_of side.now).target
            → IsCall (map procedure_of self.now.procedures.now) self.now.names.now (side_of side.now) c) }
    {
        let callee = place_of(self.procedures, side.callee.name.as_bytes());
        let mut passed = Vec::new(alloc);
        if callee < self.procedures.len() {
            let parameters = self.procedures[callee].parameters.as_slice();
            let names = Names::of_parameters(alloc, parameters)?;
            pass(
                alloc,
                self.names,
                &names,
                parameters,
                side.arguments.as_slice(),
                &mut passed,
            )?;
        }
        Ok(Call {
            target: target(self.names, &side.target),
            callee,
            passed,
        })
    }

    /// A block laid out after those that are there, and its place.
    #[cycle(lay)]
    fn block(&self, alloc: Global, block: &[Stmt], blocks: &mut Blocks) -> Result<usize, NoMemory>
        ensures { IfOk result (λ place. LaysBlock (map procedure_of self.now.procedures.now) self.now.names.now (block_of block.now) blocks.old blocks.new place) }
    {
        let mut steps = Vec::new(alloc);
        for statement in block {
            let step = self.statement(alloc, statement, blocks)?;
            steps.push(step)?;
        }
        blocks.push(steps)
    }

    /// A statement laid out, with its blocks after those that are there.
    #[cycle(lay)]
    fn statement(
        &self,
        alloc: Global,
        statement: &Stmt,
        blocks: &mut Blocks,
    ) -> Result<Step, NoMemory>
        ensures { IfOk result (λ step. LaysStep (map procedure_of self.now.procedures.now) self.now.names.now (statement_of statement.now) blocks.old blocks.new step) }
    {
        match statement {
            Stmt::Let(name, e) => self.set(alloc, name, e),
            Stmt::Assign(name, e) => self.set(alloc, name, e),
            Stmt::Put(name, index, e) => {
                let index = value(alloc, self.names, index)?;
                let value = value(alloc, self.names, e)?;
                let slot = self.names.regions().slot(&name.name);
                Ok(Step::Put(slot, name.line, index, value))
            }
            Stmt::If(test, holds, otherwise) => {
                let test = value(alloc, self.names, test)?;
                let holds = self.block(alloc, holds, blocks)?;
                let otherwise = self.block(alloc, otherwise, blocks)?;
                Ok(Step::Choose(test, holds, otherwise))
            }
            Stmt::While(test, block) => {
                let test = value(alloc, self.names, test)?;
                let block = self.block(alloc, block, blocks)?;
                let place = lay_test(alloc, test, block, blocks)?;
                Ok(Step::Loop(place))
            }
            Stmt::Call(side) => {
                let call = self.call(alloc, side)?;
                Ok(Step::Call(call))
            }
            Stmt::Fork(left, right) => {
                let left = self.call(alloc, left)?;
                let right = self.call(alloc, right)?;
                Ok(Step::Fork(left, right))
            }
            Stmt::Split(line, region, at, first, second, block) => {
                let at = value(alloc, self.names, at)?;
                let region = self.names.regions().slot(&region.name);
                let first = self.names.regions().slot(&first.name);
                let second = self.names.regions().slot(&second.name);
                let block = self.block(alloc, block, blocks)?;
                let parts = Parts {
                    first,
                    second,
                    block,
                };
                Ok(Step::Split(*line, region, at, parts))
            }
            Stmt::Each(index, part, region, block) => {
                let index = self.names.locals().slot(&index.name);
                let part = self.names.regions().slot(&part.name);
                let region = self.names.regions().slot(&region.name);
                let block = self.block(alloc, block, blocks)?;
                Ok(Step::Each(index, part, region, block))
            }
        }
    }

    /// A local that gets a value.
    fn set(&self, alloc: Global, name: &Named, e: &Expr) -> Result<Step, NoMemory>
        ensures { IfOk result (λ s. Sets self.now.names.now name.now.name (expression_of e.now) s) }
    {
        let value = value(alloc, self.names, e)?;
        Ok(Step::Set(self.names.locals().slot(&name.name), value))
    }
}

/// The test of a loop and its block, in a block of one step.
fn lay_test(
    alloc: Global,
    test: Value,
    block: usize,
    blocks: &mut Blocks,
) -> Result<usize, NoMemory>
    ensures blocks { OnOk result (blocks.new ≡ blocks.old ++ (step.Test test block ∷ []) ∷ []) }
    ensures place { IfOk result (λ place. place ≡ length blocks.old) }
{
    let mut tests = Vec::new(alloc);
    tests.push(Step::Test(test, block))?;
    blocks.push(tests)
}
