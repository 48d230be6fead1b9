//! Lines with their statement or their fault.
use crate::statement::statement;
use crate::token::tokens_of;
use std::alloc::{AllocError, Global};
use std::test::Fail;
use task_tree::{BinOp, Expr, LineRefusal, Node, PeerText, SpanText, TagText, What};

fn put(out: &mut String, word: &str) -> Result<(), Fail> {
    if !out.is_empty() {
        out.push(' ')?;
    }
    out.push_str(word)?;
    Ok(())
}

fn put_name(out: &mut String, name: &[u8]) -> Result<(), Fail> {
    put(out, "")?;
    for byte in name {
        out.push(char::from(*byte))?;
    }
    Ok(())
}

fn sign(op: BinOp) -> &'static str {
    match op {
        BinOp::Add => "+",
        BinOp::Sub => "-",
        BinOp::Mul => "*",
        BinOp::Div => "/",
        BinOp::Rem => "%",
        BinOp::Eq => "==",
        BinOp::Ne => "!=",
        BinOp::Lt => "<",
        BinOp::Le => "<=",
        BinOp::Gt => ">",
        BinOp::Ge => ">=",
    }
}

// The operator before its operands. Of a longer expression than any of the tests the rest is left out.
fn put_expr(alloc: Global, out: &mut String, expr: &Expr) -> Result<(), Fail> {
    let mut pile: Vec<&Expr> = Vec::new(alloc);
    pile.push(expr)?;
    for _ in 0..100 {
        let Some(next) = pile.pop() else { break };
        match next.node() {
            Node::Number(value) => put(out, format!(in alloc; "{value}")?.as_str())?,
            Node::Var(name) => put_name(out, name.as_slice())?,
            Node::Rank => put(out, "rank")?,
            Node::Size => put(out, "size")?,
            Node::Neg(inner) => {
                put(out, "neg")?;
                pile.push(inner)?;
            }
            Node::Two { op, left, right } => {
                put(out, sign(*op))?;
                pile.push(right)?;
                pile.push(left)?;
            }
        }
    }
    Ok(())
}

fn put_span(alloc: Global, out: &mut String, span: &SpanText) -> Result<(), Fail> {
    put_name(out, span.array.as_slice())?;
    put(out, "[")?;
    put_expr(alloc, out, &span.from)?;
    put(out, "..")?;
    put_expr(alloc, out, &span.to)?;
    put(out, "]")
}

fn put_status(alloc: Global, out: &mut String, status: &Option<SpanText>) -> Result<(), Fail> {
    if let Some(span) = status {
        put(out, "status")?;
        put_span(alloc, out, span)?;
    }
    Ok(())
}

fn put_peer(alloc: Global, out: &mut String, peer: &PeerText) -> Result<(), Fail> {
    match peer {
        PeerText::At(expr) => put_expr(alloc, out, expr),
        PeerText::Any => put(out, "any"),
        PeerText::Null => put(out, "null"),
    }
}

fn put_tag(alloc: Global, out: &mut String, tag: &TagText) -> Result<(), Fail> {
    match tag {
        TagText::At(expr) => put_expr(alloc, out, expr),
        TagText::Any => put(out, "any"),
    }
}

// The word of the statement, and its operands in the order of the line.
fn put_what(alloc: Global, out: &mut String, what: &What) -> Result<(), Fail> {
    match what {
        What::Array { name, len } => {
            put(out, "Array")?;
            put_name(out, name.as_slice())?;
            put_expr(alloc, out, len)
        }
        What::Show { name } => {
            put(out, "Show")?;
            put_name(out, name.as_slice())
        }
        What::Comm { name } => {
            put(out, "Comm")?;
            put_name(out, name.as_slice())
        }
        What::Let { name, value } => {
            put(out, "Let")?;
            put_name(out, name.as_slice())?;
            put_expr(alloc, out, value)
        }
        What::For { name, from, to } => {
            put(out, "For")?;
            put_name(out, name.as_slice())?;
            put_expr(alloc, out, from)?;
            put(out, "..")?;
            put_expr(alloc, out, to)
        }
        What::If { test } => {
            put(out, "If")?;
            put_expr(alloc, out, test)
        }
        What::Else => put(out, "Else"),
        What::End => put(out, "End"),
        What::Taskwait => put(out, "Taskwait"),
        What::Task => put(out, "Task"),
        What::Touch { mode, span } => {
            put(out, format!(in alloc; "{mode:?}")?.as_str())?;
            put_span(alloc, out, span)
        }
        What::Do => put(out, "Do"),
        What::Kern {
            kernel,
            spans,
            values,
        } => {
            put(out, format!(in alloc; "{kernel:?}")?.as_str())?;
            for span in spans.as_slice() {
                put_span(alloc, out, span)?;
            }
            for value in values.as_slice() {
                put_expr(alloc, out, value)?;
            }
            Ok(())
        }
        What::Posting {
            how,
            handle,
            span,
            peer,
            tag,
            comm,
            status,
        } => {
            put(out, format!(in alloc; "{how:?}")?.as_str())?;
            if let Some(name) = handle {
                put_name(out, name.as_slice())?;
            }
            put_span(alloc, out, span)?;
            put_peer(alloc, out, peer)?;
            put(out, "tag")?;
            put_tag(alloc, out, tag)?;
            if let Some(name) = comm {
                put(out, "on")?;
                put_name(out, name.as_slice())?;
            }
            put_status(alloc, out, status)
        }
        What::Waiting {
            later,
            handles,
            status,
        } => {
            put(out, if *later { "Later" } else { "Now" })?;
            for name in handles.as_slice() {
                put_name(out, name.as_slice())?;
            }
            put_status(alloc, out, status)
        }
    }
}

// The depth of the line and its statement, or its fault.
fn told(alloc: Global, line: &[u8]) -> Result<String, Fail> {
    let read = match tokens_of(alloc, line) {
        Ok(tokens) => statement(alloc, tokens.as_slice()),
        Err(refusal) => Err(refusal),
    };
    let mut out = String::new(alloc);
    match read {
        Ok((what, depth)) => {
            put(&mut out, format!(in alloc; "{depth}")?.as_str())?;
            put_what(alloc, &mut out, &what)?;
        }
        Err(LineRefusal::Fault(kind)) => put(&mut out, format!(in alloc; "{kind:?}")?.as_str())?,
        Err(LineRefusal::Memory) => put(&mut out, "Memory")?,
    }
    Ok(out)
}

#[test]
fn lines_of_the_main_text_have_their_statement(rt: HostRuntime) -> Result<(), Fail> {
    let rows: [(&[u8], &str); 18] = [
        (b"array u_1, 4 # cells", "0 Array u_1 4"),
        (b"show u", "0 Show u"),
        (b"comm c", "0 Comm c"),
        (b"let x = 1 + 2 * 3", "0 Let x + 1 * 2 3"),
        (b"let x=y-1-2", "0 Let x - - y 1 2"),
        (
            b"let x = - -a % (b / 2) >= size",
            "2 Let x >= % neg neg a / b 2 size",
        ),
        (b"for i = 0 .. rank", "0 For i 0 .. rank"),
        (b"for i = -1 .. ((2)) + 1", "2 For i neg 1 .. + 2 1"),
        (b"if rank != size - 1", "0 If != rank - size 1"),
        (b"else", "0 Else"),
        (b"end", "0 End"),
        (b"taskwait", "0 Taskwait"),
        (b"task", "0 Task"),
        (b"do", "0 Do"),
        (b"in u[1..2]", "0 In u [ 1 .. 2 ]"),
        (b"out u[-1 .. (i) + 1]", "1 Out u [ neg 1 .. + i 1 ]"),
        (b"inout v[i*4..i*4+4]", "0 Inout v [ * i 4 .. + * i 4 4 ]"),
        (b"\tif\t(1)\r", "1 If 1"),
    ];
    for (line, want) in rows {
        assert_eq!(rt; told(rt.alloc(), line)?.as_str(), want);
    }
    Ok(())
}

#[test]
fn kernels_have_their_operands(rt: HostRuntime) -> Result<(), Fail> {
    let rows: [(&[u8], &str); 11] = [
        (b"fill d[0..4], -7", "1 Fill d [ 0 .. 4 ] neg 7"),
        (b"ramp d[0..4], 5, 3", "0 Ramp d [ 0 .. 4 ] 5 3"),
        (b"copy d[0..4], a[1..5]", "0 Copy d [ 0 .. 4 ] a [ 1 .. 5 ]"),
        (
            b"add d[0..1], a[1..2], b[2..3]",
            "0 Add d [ 0 .. 1 ] a [ 1 .. 2 ] b [ 2 .. 3 ]",
        ),
        (
            b"sub d[0..1], a[1..2], b[2..3]",
            "0 Sub d [ 0 .. 1 ] a [ 1 .. 2 ] b [ 2 .. 3 ]",
        ),
        (
            b"scale d[0..1], a[(1)..2], x",
            "1 Scale d [ 0 .. 1 ] a [ 1 .. 2 ] x",
        ),
        (
            b"shift d[0..1], a[1..2], 63",
            "0 Shift d [ 0 .. 1 ] a [ 1 .. 2 ] 63",
        ),
        (
            b"jacobi2 d[0..1], a[0..3]",
            "0 Jacobi2 d [ 0 .. 1 ] a [ 0 .. 3 ]",
        ),
        (b"sum d[0..1], a[0..9]", "0 Sum d [ 0 .. 1 ] a [ 0 .. 9 ]"),
        (
            b"least d[0..1], a[0..9]",
            "0 Least d [ 0 .. 1 ] a [ 0 .. 9 ]",
        ),
        (
            b"greatest d[0..1], a[0..9]",
            "0 Greatest d [ 0 .. 1 ] a [ 0 .. 9 ]",
        ),
    ];
    for (line, want) in rows {
        assert_eq!(rt; told(rt.alloc(), line)?.as_str(), want);
    }
    Ok(())
}

#[test]
fn calls_and_waits_have_their_operands(rt: HostRuntime) -> Result<(), Fail> {
    let rows: [(&[u8], &str); 14] = [
        (
            b"send a[0..1], rank + 1, 5",
            "0 Send a [ 0 .. 1 ] + rank 1 tag 5",
        ),
        (
            b"send a[0..1], null, 0 on c",
            "0 Send a [ 0 .. 1 ] null tag 0 on c",
        ),
        (
            b"ssend a[0..1], (0), -(0)",
            "2 Ssend a [ 0 .. 1 ] 0 tag neg 0",
        ),
        (b"recv a[0..1], 0, 1", "0 Recv a [ 0 .. 1 ] 0 tag 1"),
        (
            b"recv a[0..1], any, any on c status s[0..4]",
            "0 Recv a [ 0 .. 1 ] any tag any on c status s [ 0 .. 4 ]",
        ),
        (
            b"recv a[0..1], null, 2 status s[(0)..4]",
            "1 Recv a [ 0 .. 1 ] null tag 2 status s [ 0 .. 4 ]",
        ),
        (
            b"isend q, a[0..1], 1, 2 on c",
            "0 Isend q a [ 0 .. 1 ] 1 tag 2 on c",
        ),
        (
            b"issend q, a[0..1], 1, 2",
            "0 Issend q a [ 0 .. 1 ] 1 tag 2",
        ),
        (
            b"irecv q, a[0..1], any, 2",
            "0 Irecv q a [ 0 .. 1 ] any tag 2",
        ),
        (b"wait q", "0 Now q"),
        (b"iwait q status s[0..4]", "0 Later q status s [ 0 .. 4 ]"),
        (b"waitall q", "0 Now q"),
        (
            b"waitall q, r, q status s[0..-4]",
            "1 Now q r q status s [ 0 .. neg 4 ]",
        ),
        (b"iwaitall q,r", "0 Later q r"),
    ];
    for (line, want) in rows {
        assert_eq!(rt; told(rt.alloc(), line)?.as_str(), want);
    }
    Ok(())
}

#[test]
fn other_lines_have_a_fault(rt: HostRuntime) -> Result<(), Fail> {
    let rows: [(&[u8], &str); 62] = [
        (b"array u 4", "Shape"),
        (b"array u,", "Shape"),
        (b"array u, 4 4", "Shape"),
        (b"array u, 4x", "Shape"),
        (b"array show, 4", "Shape"),
        (b"show", "Shape"),
        (b"show u, v", "Shape"),
        (b"comm 1", "Shape"),
        (b"let x == 1", "Shape"),
        (b"let x = any", "Shape"),
        (b"let rank = 1", "Shape"),
        (b"x = 1", "Shape"),
        (b"for i = 0, 1", "Shape"),
        (b"for i = 0 .. 1 .. 2", "Shape"),
        (b"if", "Shape"),
        (b"if 1 < 2 < 3", "Shape"),
        (b"if (1", "Shape"),
        (b"else if 1", "Shape"),
        (b"end end", "Shape"),
        (b"task 1", "Shape"),
        (b"do do", "Shape"),
        (b"in u", "Shape"),
        (b"in u[1]", "Shape"),
        (b"in u[1..2], v[1..2]", "Shape"),
        (b"out u[1..2", "Shape"),
        (b"fill d[0..1]", "Shape"),
        (b"fill d[0..1], 1, 2", "Shape"),
        (b"fill d[0..1], a[0..1]", "Shape"),
        (b"ramp d[0..1], 1", "Shape"),
        (b"copy d[0..1], 1", "Shape"),
        (b"copy d[0..1], a[0..1], b[0..1]", "Shape"),
        (b"add d[0..1], a[0..1]", "Shape"),
        (b"scale d[0..1], 2, a[0..1]", "Shape"),
        (b"sum d[0..1] a[0..1]", "Shape"),
        (b"send a[0..1], any, 0", "Shape"),
        (b"send a[0..1], 0, any", "Shape"),
        (b"isend q, a[0..1], any, 0", "Shape"),
        (b"isend q, a[0..1], 0, any", "Shape"),
        (b"recv a[0..1], 0, null", "Shape"),
        (b"send q, a[0..1], 0, 0", "Shape"),
        (b"irecv a[0..1], 0, 0", "Shape"),
        (b"send a[0..1], 0, 0 status b[0..4]", "Shape"),
        (b"irecv q, a[0..1], 0, 0 status b[0..4]", "Shape"),
        (b"recv a[0..1], 0, 0 status b[0..4] on c", "Shape"),
        (b"recv a[0..1], 0, 0 on", "Shape"),
        (b"recv a[0..1], 0", "Shape"),
        (b"wait q, r", "Shape"),
        (b"wait", "Shape"),
        (b"waitall", "Shape"),
        (b"waitall q,", "Shape"),
        (b"waitall q r", "Shape"),
        (b"iwaitall q status", "Shape"),
        (b"release", "Shape"),
        (b"barrier", "Shape"),
        (b"bcast", "Shape"),
        (b"allreduce", "Shape"),
        (b"% trace", "Shape"),
        (b"status s[0..4]", "Shape"),
        (b"1", "Shape"),
        (b"show u $", "Byte"),
        (b"show 9223372036854775808 $", "Number"),
        (b"show abcdefghijklmnopqrstuvwxyz0123456 $", "Name"),
    ];
    for (line, want) in rows {
        assert_eq!(rt; told(rt.alloc(), line)?.as_str(), want);
    }
    Ok(())
}

// The line `waitall a, a, ..` with so many names.
fn wait_of(alloc: Global, count: usize) -> Result<Vec<u8>, AllocError> {
    let mut line = Vec::new(alloc);
    line.extend_from_slice(b"waitall a")?;
    for _ in 1..count {
        line.extend_from_slice(b", a")?;
    }
    Ok(line)
}

// The line `let x = ((.. 1 ..))` with so many brackets.
fn brackets_of(alloc: Global, count: usize) -> Result<Vec<u8>, AllocError> {
    let mut line = Vec::new(alloc);
    line.extend_from_slice(b"let x = ")?;
    for _ in 0..count {
        line.extend_from_slice(b"(")?;
    }
    line.extend_from_slice(b"1")?;
    for _ in 0..count {
        line.extend_from_slice(b")")?;
    }
    Ok(line)
}

#[test]
fn a_wait_names_up_to_64_requests(rt: HostRuntime) -> Result<(), Fail> {
    let line = wait_of(rt.alloc(), 64)?;
    assert_ne!(rt; told(rt.alloc(), line.as_slice())?.as_str(), "Shape");
    let line = wait_of(rt.alloc(), 65)?;
    assert_eq!(rt; told(rt.alloc(), line.as_slice())?.as_str(), "Shape");
    Ok(())
}

#[test]
fn depths_above_64_count_as_65(rt: HostRuntime) -> Result<(), Fail> {
    let rows = [(64, "64 Let x 1"), (65, "65 Let x 1"), (70, "65 Let x 1")];
    for (count, want) in rows {
        let line = brackets_of(rt.alloc(), count)?;
        assert_eq!(rt; told(rt.alloc(), line.as_slice())?.as_str(), want);
    }
    Ok(())
}
