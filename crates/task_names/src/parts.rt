//! The value of an expression of any depth, without recursion.

ghost use Rattle.std.specs.Prelude.{◌≡◌, ℕ, ◌+◌, ◌≤◌, ℤ, true, List, [], ◌∷◌, length, IfErr, OnOk};
ghost use Rattle.task_tree.specs.Reading.{Gives};
ghost use Rattle.task_names.specs.Values.{Scene, value};
ghost use Rattle.task_tree.specs.declared.refusal.LineRefusal.TheVariants as why;
ghost use Rattle.task_names.specs.Parts.{is_inner, put_on, turned, applied, after, GivesRest, Fits, size_of, left_of};
ghost use Rattle.task_names.specs.declared.todo.Todo.TheVariants as part;

use crate::operators::{computed, negated};
use crate::pile::Pile;
use crate::scope::Scope;
use crate::shallow::shallow;
use crate::todo::Todo;
use rt_base::FaultKind;
use std::alloc::Global;
use task_tree::{BinOp, Expr, LineRefusal, Node};

// Puts the parts of an expression on the pile, so that the left side comes first, then the right side, and then the operation.
fn take_apart<'a>(todo: &mut Pile<Todo<'a>>, e: &'a Expr) -> Result<(), LineRefusal>
    requires { is_inner e.now ≡ true }
    ensures rest { OnOk result ((scene : Scene) (values : List ℤ) → after scene (part.Value e.entry ∷ todo.old) values ≡ after scene todo.new values) }
    ensures fits { OnOk result ((n : ℕ) → Fits todo.old (n + 1) → Fits todo.new n) }
    ensures less { OnOk result (left_of todo.new + 1 ≤ size_of e.now + left_of todo.old) }
    ensures err { IfErr result (λ refusal. refusal ≡ why.Memory) }
{
    match e.node() {
        Node::Neg(inner) => {
            todo.push(Todo::Negate)?;
            todo.push(Todo::Value(inner))?;
        }
        Node::Two { op, left, right } => {
            todo.push(Todo::Apply(*op))?;
            todo.push(Todo::Value(right))?;
            todo.push(Todo::Value(left))?;
        }
        _ => {}
    }
    Ok(())
}

// Puts a value on the pile, or gives its fault.
fn put(values: &mut Pile<i64>, x: Result<i64, FaultKind>) -> Result<(), LineRefusal>
    ensures values { Gives (λ _. values.new) result (put_on x values.old) }
    ensures len { OnOk result (length values.new ≡ length values.old + 1) }
{
    match x {
        Ok(n) => {
            values.push(n)?;
            Ok(())
        }
        Err(kind) => Err(LineRefusal::Fault(kind)),
    }
}

// Does one thing of the pile.
fn step<'a>(
    scope: &Scope,
    rank: u16,
    size: u16,
    next: Todo<'a>,
    todo: &mut Pile<Todo<'a>>,
    values: &mut Pile<i64>,
) -> Result<(), LineRefusal>
    requires { Fits (next ∷ todo.old) (length values.old) }
    ensures rest { GivesRest result
        (after (record { names = scope.now.names; rank = rank; size = size }) (next.entry ∷ todo.old) values.old)
        (after (record { names = scope.now.names; rank = rank; size = size }) todo.new values.new) }
    ensures fits { OnOk result (Fits todo.new (length values.new)) }
    ensures less { OnOk result (left_of todo.new + 1 ≤ left_of (next.entry ∷ todo.old)) }
{
    match next {
        Todo::Value(e) => match shallow(scope, rank, size, e) {
            Some(x) => put(values, x),
            None => take_apart(todo, e),
        },
        Todo::Negate => turn(values),
        Todo::Apply(op) => apply(op, values),
    }
}

// The newest value under a minus sign.
fn turn(values: &mut Pile<i64>) -> Result<(), LineRefusal>
    requires { 1 ≤ length values.old }
    ensures values { Gives (λ _. values.new) result (turned values.old) }
    ensures len { OnOk result (length values.new ≡ length values.old) }
{
    match values.pop() {
        Some(x) => put(values, negated(x)),
        None => unreachable!(),
    }
}

// The operator between the two newest values.
fn apply(op: BinOp, values: &mut Pile<i64>) -> Result<(), LineRefusal>
    requires { 2 ≤ length values.old }
    ensures values { Gives (λ _. values.new) result (applied op values.old) }
    ensures len { OnOk result (length values.new + 1 ≡ length values.old) }
{
    match values.pop() {
        Some(y) => match values.pop() {
            Some(x) => put(values, computed(op, x, y)),
            None => unreachable!(),
        },
        None => unreachable!(),
    }
}

/// The value of an expression, from its parts.
pub(crate) fn value_of_parts(
    alloc: Global,
    scope: &Scope,
    rank: u16,
    size: u16,
    e: &Expr,
) -> Result<i64, LineRefusal>
    ensures { Gives (λ x. x) result (value (record { names = scope.now.names; rank = rank; size = size }) e.now) }
{
    let mut todo = Pile::empty(alloc);
    let mut values = Pile::empty(alloc);
    todo.push(Todo::Value(e))?;
    while let Some(next) = todo.pop() {
        match step(scope, rank, size, next, &mut todo, &mut values) {
            Ok(()) => {}
            Err(refusal) => return Err(refusal),
        }
    }
    match values.pop() {
        Some(x) => Ok(x),
        None => unreachable!(),
    }
}
