use super::*;
use rt_base::{FaultKind, Name};
use std::alloc::Global;
use std::process::Abort;
use std::test::Fail;
use task_tree::{BinOp, Expr, LineRefusal, Sign, Token, expr_at};

#[test]
fn arithmetic_at_the_ends_of_the_range(rt: HostRuntime) {
    let rows = [
        (BinOp::Div, i64::MIN, -1, Err(FaultKind::Overflow)),
        (BinOp::Rem, i64::MIN, -1, Ok(0)),
        (BinOp::Div, -7, 2, Ok(-3)),
        (BinOp::Rem, -7, 2, Ok(-1)),
        (BinOp::Rem, 7, -2, Ok(1)),
        (BinOp::Div, 1, 0, Err(FaultKind::DivisionByZero)),
        (BinOp::Rem, 0, 0, Err(FaultKind::DivisionByZero)),
        (BinOp::Add, i64::MAX, 1, Err(FaultKind::Overflow)),
        (BinOp::Sub, i64::MIN, 1, Err(FaultKind::Overflow)),
        (BinOp::Mul, i64::MIN, -1, Err(FaultKind::Overflow)),
        (BinOp::Mul, i64::MIN, 1, Ok(i64::MIN)),
        (BinOp::Le, i64::MIN, i64::MAX, Ok(1)),
    ];
    for (op, left, right, want) in rows {
        assert!(rt; computed(op, left, right) == want, "{left} and {right}");
    }
    assert!(rt; negated(i64::MIN) == Err(FaultKind::Overflow));
    assert!(rt; negated(i64::MAX) == Ok(-i64::MAX));
}

// The value of an expression without names on rank 0 of 1.
fn value_of(alloc: Global, tokens: &[Token]) -> Result<i64, LineRefusal> {
    let scope = Scope::empty(alloc);
    let ((e, _), _) = expr_at(alloc, tokens)?;
    value(alloc, &scope, 0, 1, &e)
}

#[test]
fn a_minus_sign_stands_before_the_division(rt: HostRuntime) {
    let tokens = [
        Token::Sign(Sign::Minus),
        Token::Number(7),
        Token::Sign(Sign::Over),
        Token::Number(2),
    ];
    assert!(rt; matches!(value_of(rt.alloc(), &tokens), Ok(-3)));
}

fn set(alloc: Global, scope: &mut Scope, letter: u8, meaning: Meaning) -> Result<(), Fail> {
    let name = Name::from_slice(alloc, &[letter])?;
    scope.set(alloc, &name, meaning)?;
    Ok(())
}

fn get(alloc: Global, scope: &Scope, letter: u8) -> Result<Option<Meaning>, Fail> {
    let name = Name::from_slice(alloc, &[letter])?;
    Ok(scope.get(&name))
}

#[test]
fn a_task_leaves_the_names_as_they_were(rt: HostRuntime) -> Result<(), Fail> {
    let alloc = rt.alloc();
    let mut scope = Scope::empty(alloc);
    set(alloc, &mut scope, b'x', Meaning::Variable(1))?;
    scope.begin();
    let rows = [
        (b'x', Meaning::Variable(2)),
        (b'y', Meaning::Posted(0)),
        (b'x', Meaning::Variable(3)),
        (b'y', Meaning::Idle),
    ];
    for (letter, meaning) in rows {
        set(alloc, &mut scope, letter, meaning)?;
        let found = get(alloc, &scope, letter)?;
        assert_eq!(rt; found, Some(meaning));
    }
    scope.undo();
    let old = get(alloc, &scope, b'x')?;
    assert_eq!(rt; old, Some(Meaning::Variable(1)));
    let new = get(alloc, &scope, b'y')?;
    assert_eq!(rt; new, None);
    Ok(())
}
