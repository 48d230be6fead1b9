use super::*;
use std::alloc::Global;
use std::process::Abort;
use std::test::Fail;
use task_tree::What;

fn word(what: &What) -> &str {
    match what {
        What::Array { .. } => "array",
        What::Show { .. } => "show",
        What::Comm { .. } => "comm",
        What::Let { .. } => "let",
        What::For { .. } => "for",
        What::If { .. } => "if",
        What::Else => "else",
        What::End => "end",
        What::Taskwait => "taskwait",
        What::Task => "task",
        What::Touch { .. } => "access",
        What::Do => "do",
        What::Kern { .. } => "kernel",
        What::Posting { .. } => "call",
        What::Waiting { .. } => "wait",
    }
}

// Each statement with its line, or the refusal.
fn told(rt: &impl Abort, alloc: Global, text: &[u8]) -> Result<String, Fail> {
    assert!(rt; text.len() < 1 << 22);
    let mut out = String::new(alloc);
    match parse(alloc, text) {
        Ok(tree) => {
            for stmt in tree.as_slice() {
                let line = stmt.line;
                let said = word(&stmt.what);
                let item = format!(in alloc; "{line} {said};")?;
                out.push_str(item.as_str())?;
            }
        }
        Err(ParseRefusal::Fault { line, kind }) => {
            let item = format!(in alloc; "{line} {kind:?}")?;
            out.push_str(item.as_str())?;
        }
        Err(ParseRefusal::Memory) => out.push_str("no memory")?,
    }
    Ok(out)
}

fn check(rt: &impl Abort, alloc: Global, rows: &[(&[u8], &str)]) -> Result<(), Fail> {
    for (text, want) in rows {
        let found = told(rt, alloc, text)?;
        assert_eq!(rt; found.as_str(), *want);
    }
    Ok(())
}

// A piece of text, so many times behind the text so far.
fn repeat(text: &mut Vec<u8>, piece: &[u8], times: u32) -> Result<(), Fail> {
    for _ in 0..times {
        text.extend_from_slice(piece)?;
    }
    Ok(())
}

// `let a = `, then the pieces, each so many times.
fn expression(alloc: Global, pieces: &[(&[u8], u32)]) -> Result<Vec<u8>, Fail> {
    let mut text = Vec::from_slice(alloc, b"let a = ")?;
    for (piece, times) in pieces {
        repeat(&mut text, piece, *times)?;
    }
    Ok(text)
}

#[test]
fn texts_have_their_tree(rt: HostRuntime) -> Result<(), Fail> {
    let rows: [(&[u8], &str); 12] = [
        (b"", ""),
        (b"\n", ""),
        (b"\n \t\r\n# no statement\nshow a", "4 show;"),
        (b"show\ra\r\n", "1 show;"),
        (b"show a # \xff\x00\x7f !\n", "1 show;"),
        (
            b"array u,0007\ncomm c\nlet a=9223372036854775807\n",
            "1 array;2 comm;3 let;",
        ),
        (b"for i = 1..2\ntaskwait\nend\n", "1 for;2 taskwait;3 end;"),
        (
            b"if a == 1\n\nelse\nlet b = -a\nend",
            "1 if;3 else;4 let;5 end;",
        ),
        (
            b"task\nin u[0..1]\nout v[0..1]\ndo\ncopy v[0..1], u[0..1]\nend\n",
            "1 task;2 access;3 access;4 do;5 kernel;6 end;",
        ),
        (
            b"task\ndo\nfor i = 0 .. 2\nif rank\nsend u[0..1], 0, 5\nelse\nlet x = i\nend\nend\nend\n",
            "1 task;2 do;3 for;4 if;5 call;6 else;7 let;8 end;9 end;10 end;",
        ),
        (
            b"task\ndo\nirecv h, u[0..1], any, any on c\nwait h status s[0..4]\niwaitall h, g\nend\n",
            "1 task;2 do;3 call;4 wait;5 wait;6 end;",
        ),
        (
            b"if 1\nend\nif 1\ntask\ndo\nend\nend\n",
            "1 if;2 end;3 if;4 task;5 do;6 end;7 end;",
        ),
    ];
    check(&rt, rt.alloc(), &rows)
}

#[test]
fn faulty_tokens_have_their_line(rt: HostRuntime) -> Result<(), Fail> {
    let rows: [(&[u8], &str); 16] = [
        (b"show $\n", "1 Byte"),
        (b"show a\n\nshow a\x7f", "3 Byte"),
        (b"let a = 1.5\n", "1 Byte"),
        (b"for i = 1...2\n", "1 Byte"),
        (b"let a = !\n", "1 Byte"),
        (b"end $\n", "1 Byte"),
        (b"show show $\n", "1 Byte"),
        (b"if 1\nfor i = 0 .. 1\nelse $\n", "3 Byte"),
        (b"let a = 9223372036854775808\n", "1 Number"),
        (b"let a = 9223372036854775808 $\n", "1 Number"),
        (b"$ 9223372036854775808\n", "1 Byte"),
        (b"show abcdefghijklmnopqrstuvwxyz0123456\n", "1 Name"),
        (b"show abcdefghijklmnopqrstuvwxyz0123456 $\n", "1 Name"),
        (b"show abcdefghijklmnopqrstuvwxyz012345\n", "1 show;"),
        (b"show $\nend\n", "1 Byte"),
        (b"if 1\nshow a $", "2 Byte"),
    ];
    check(&rt, rt.alloc(), &rows)
}

#[test]
fn tokens_that_are_no_statement_have_their_line(rt: HostRuntime) -> Result<(), Fail> {
    let rows: [(&[u8], &str); 20] = [
        (b"% \n", "1 Shape"),
        (b"show a b\n", "1 Shape"),
        (b"show\n", "1 Shape"),
        (b"array show, 4\n", "1 Shape"),
        (b"array u 4\n", "1 Shape"),
        (b"let a = 1a\n", "1 Shape"),
        (b"let a = 1 < 2 < 3\n", "1 Shape"),
        (b"let a = (1\n", "1 Shape"),
        (b"let a = 1)\n", "1 Shape"),
        (b"\nrelease\n", "2 Shape"),
        (b"barrier\n", "1 Shape"),
        (b"bcast\n", "1 Shape"),
        (b"allreduce\n", "1 Shape"),
        (b"send a[0..1], any, 0\n", "1 Shape"),
        (b"send a[0..1], 0, any\n", "1 Shape"),
        (b"send a[0..1], 0, 0 status s[0..4]\n", "1 Shape"),
        (b"irecv h, a[0..1], 0, 0 status s[0..4]\n", "1 Shape"),
        (b"send h, a[0..1], 0, 0\n", "1 Shape"),
        (b"end end\n", "1 Shape"),
        (b"fill a[0..1]\nend\n", "1 Shape"),
    ];
    check(&rt, rt.alloc(), &rows)
}

#[test]
fn misplaced_statements_have_their_line(rt: HostRuntime) -> Result<(), Fail> {
    let rows: [(&[u8], &str); 26] = [
        (b"else\n", "1 Place"),
        (b"end\n", "1 Place"),
        (b"do\n", "1 Place"),
        (b"in a[0..1]\n", "1 Place"),
        (b"fill a[0..1], 1\n", "1 Place"),
        (b"send a[0..1], 0, 0\n", "1 Place"),
        (b"wait h\n", "1 Place"),
        (b"if 1\nfor i = 0 .. 1\nelse\nend\nend\n", "3 Place"),
        (b"if 1\nelse\nelse\nend\n", "3 Place"),
        (b"if 1\nend\nelse\n", "3 Place"),
        (b"if 1\nend\nend\n", "3 Place"),
        (b"if 1\nshow a\nend\n", "2 Place"),
        (b"for i = 0 .. 1\narray a, 1\nend\n", "2 Place"),
        (b"if 1\nelse\ncomm c\nend\n", "3 Place"),
        (b"task\nend\n", "2 Place"),
        (b"task\nelse\n", "2 Place"),
        (b"task\nlet a = 1\ndo\nend\n", "2 Place"),
        (b"task\nfor i = 0 .. 1\nend\ndo\nend\n", "2 Place"),
        (b"task\nif 1\nend\ndo\nend\n", "2 Place"),
        (b"task\nin a[0..1]\ntask\n", "3 Place"),
        (b"task\nfill a[0..1], 1\ndo\nend\n", "2 Place"),
        (b"task\ndo\ndo\nend\n", "3 Place"),
        (b"task\ndo\nin a[0..1]\nend\n", "3 Place"),
        (b"task\ndo\ntaskwait\nend\n", "3 Place"),
        (b"task\ndo\nif 1\ntask\n", "4 Place"),
        (b"task\ndo\nshow a\nend\n$", "3 Place"),
    ];
    check(&rt, rt.alloc(), &rows)
}

#[test]
fn blocks_that_are_left_open_have_the_line_behind_the_last(rt: HostRuntime) -> Result<(), Fail> {
    let rows: [(&[u8], &str); 6] = [
        (b"if 1", "2 Open"),
        (b"if 1\n", "2 Open"),
        (b"if 1\n\n", "3 Open"),
        (b"task\nin a[0..1]\n", "3 Open"),
        (b"task\ndo\nend\ntask\ndo", "6 Open"),
        (b"\n\nfor i = 0 .. 1\nif 1\nend\n", "6 Open"),
    ];
    check(&rt, rt.alloc(), &rows)
}

#[test]
fn brackets_and_minus_signs_count_together(rt: HostRuntime) -> Result<(), Fail> {
    let alloc = rt.alloc();
    let rows: [(&[(&[u8], u32)], &str); 9] = [
        (&[(b"(", 64), (b"1", 1), (b")", 64)], "1 let;"),
        (&[(b"(", 65), (b"1", 1), (b")", 65)], "1 Depth"),
        (&[(b"(", 65), (b"1", 1), (b")", 64)], "1 Shape"),
        (&[(b"-", 64), (b"1", 1)], "1 let;"),
        (&[(b"-", 65), (b"1", 1)], "1 Depth"),
        (&[(b"-(", 32), (b"1", 1), (b")", 32)], "1 let;"),
        (&[(b"-(", 33), (b"1", 1), (b")", 33)], "1 Depth"),
        (&[(b"-1-(-1)+", 100), (b"1", 1)], "1 let;"),
        (
            &[(b"1+", 1), (b"(", 65), (b"1", 1), (b")", 65), (b"$", 1)],
            "1 Byte",
        ),
    ];
    for (pieces, want) in rows {
        let text = expression(alloc, pieces)?;
        let found = told(&rt, alloc, text.as_slice())?;
        assert_eq!(rt; found.as_str(), want);
    }
    Ok(())
}

#[test]
fn a_block_too_many_is_too_deep_before_it_is_misplaced(rt: HostRuntime) -> Result<(), Fail> {
    let alloc = rt.alloc();
    let rows: [(u32, &[u8], &str); 7] = [
        (63, b"if 1\n", "66 Open"),
        (64, b"if 1\n", "66 Depth"),
        (64, b"for i = 0 .. 1\n", "66 Depth"),
        (64, b"task\n", "66 Depth"),
        (64, b"fill a[0..1], 1\n", "67 Open"),
        (64, b"taskwait\n", "66 Place"),
        (64, b"if\n", "66 Shape"),
    ];
    for (count, line, want) in rows {
        let mut text = Vec::from_slice(alloc, b"task\ndo\n")?;
        repeat(&mut text, b"if 1\n", count.saturating_sub(1))?;
        text.extend_from_slice(line)?;
        let found = told(&rt, alloc, text.as_slice())?;
        assert_eq!(rt; found.as_str(), want);
    }
    Ok(())
}

#[test]
fn at_most_64_names_are_waited_for(rt: HostRuntime) -> Result<(), Fail> {
    let alloc = rt.alloc();
    let rows: [(u32, &str); 2] = [(63, "1 Place"), (64, "1 Shape")];
    for (times, want) in rows {
        let mut text = Vec::from_slice(alloc, b"waitall ")?;
        repeat(&mut text, b"h,", times)?;
        text.extend_from_slice(b"h")?;
        let found = told(&rt, alloc, text.as_slice())?;
        assert_eq!(rt; found.as_str(), want);
    }
    Ok(())
}

// A line of these pieces, each so many times, through `parse`.
fn answer(rt: &impl Abort, alloc: Global, pieces: &[(&[u8], u32)], want: &str) -> Result<(), Fail> {
    let text = expression(alloc, pieces)?;
    let found = told(rt, alloc, text.as_slice())?;
    assert_eq!(rt; found.as_str(), want);
    Ok(())
}

#[test]
fn a_megabyte_of_brackets_is_no_statement(rt: HostRuntime) -> Result<(), Fail> {
    answer(&rt, rt.alloc(), &[(b"(", 1_000_000)], "1 Shape")
}

#[test]
fn a_megabyte_of_minus_signs_is_too_deep(rt: HostRuntime) -> Result<(), Fail> {
    answer(&rt, rt.alloc(), &[(b"-", 1_000_000), (b"1", 1)], "1 Depth")
}

#[test]
fn half_a_million_operators_are_read(rt: HostRuntime) -> Result<(), Fail> {
    answer(&rt, rt.alloc(), &[(b"1+", 500_000), (b"1", 1)], "1 let;")
}

#[test]
fn a_sum_without_its_end_is_no_statement(rt: HostRuntime) -> Result<(), Fail> {
    answer(&rt, rt.alloc(), &[(b"1+", 500_000)], "1 Shape")
}

#[test]
fn a_sum_that_is_deep_to_the_right_is_too_deep(rt: HostRuntime) -> Result<(), Fail> {
    answer(
        &rt,
        rt.alloc(),
        &[(b"(1+", 250_000), (b"1", 1), (b")", 250_000)],
        "1 Depth",
    )
}

#[test]
fn a_product_in_64_brackets_is_read(rt: HostRuntime) -> Result<(), Fail> {
    answer(
        &rt,
        rt.alloc(),
        &[(b"(", 64), (b"1*", 500_000), (b"1", 1), (b")", 64)],
        "1 let;",
    )
}

#[test]
fn a_million_digits_are_a_number(rt: HostRuntime) -> Result<(), Fail> {
    let alloc = rt.alloc();
    answer(&rt, alloc, &[(b"0", 1_000_000), (b"1", 1)], "1 let;")?;
    answer(&rt, alloc, &[(b"9", 1_000_000)], "1 Number")
}

#[test]
fn a_megabyte_of_short_lines_is_read(rt: HostRuntime) -> Result<(), Fail> {
    let alloc = rt.alloc();
    let mut text: Vec<u8> = Vec::new(alloc);
    repeat(&mut text, b"show u\n", 149_796)?;
    assert!(rt; text.len() < 1 << 22);
    let tree = parse(alloc, text.as_slice()).map_err(|_| "no tree")?;
    assert_eq!(rt; tree.len(), 149_796);
    Ok(())
}
