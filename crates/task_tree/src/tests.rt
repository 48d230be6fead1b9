use super::*;
use rt_base::Name;
use std::alloc::Global;
use std::process::Abort;
use std::test::Fail;

// The token that stands for a byte: a digit, `r` and `s` for `rank` and `size`, `k` for another reserved word, another letter for a name, and one byte for each sign.
fn token(alloc: Global, byte: u8) -> Result<Token, Fail> {
    Ok(match byte {
        b'0'..=b'9' => Token::Number((byte - b'0') as i64),
        b'r' => Token::Key(Key::Rank),
        b's' => Token::Key(Key::Size),
        b'k' => Token::Key(Key::Any),
        b'+' => Token::Sign(Sign::Plus),
        b'-' => Token::Sign(Sign::Minus),
        b'*' => Token::Sign(Sign::Times),
        b'/' => Token::Sign(Sign::Over),
        b'%' => Token::Sign(Sign::Rest),
        b'(' => Token::Sign(Sign::OpenRound),
        b')' => Token::Sign(Sign::CloseRound),
        b'[' => Token::Sign(Sign::OpenSquare),
        b']' => Token::Sign(Sign::CloseSquare),
        b',' => Token::Sign(Sign::Comma),
        b':' => Token::Sign(Sign::Set),
        b'.' => Token::Sign(Sign::Dots),
        b'=' => Token::Sign(Sign::Same),
        b'!' => Token::Sign(Sign::Differs),
        b'<' => Token::Sign(Sign::Below),
        b'{' => Token::Sign(Sign::AtMost),
        b'>' => Token::Sign(Sign::Above),
        b'}' => Token::Sign(Sign::AtLeast),
        _ => Token::Name(Name::from_slice(alloc, &[byte])?),
    })
}

fn add(alloc: Global, all: &mut Vec<Token>, text: &[u8], times: usize) -> Result<(), Fail> {
    for _ in 0..times {
        for byte in text {
            all.push(token(alloc, *byte)?)?;
        }
    }
    Ok(())
}

fn spelling(op: BinOp) -> &'static str {
    match op {
        BinOp::Add => "+",
        BinOp::Sub => "-",
        BinOp::Mul => "*",
        BinOp::Div => "/",
        BinOp::Rem => "%",
        BinOp::Eq => "==",
        BinOp::Ne => "!=",
        BinOp::Lt => "<",
        BinOp::Le => "<=",
        BinOp::Gt => ">",
        BinOp::Ge => ">=",
    }
}

// The tree with brackets round each operator.
fn show(alloc: Global, e: &Expr, out: &mut String) -> Result<(), Fail> {
    match e.node() {
        Node::Number(n) => {
            let digits = format!(in alloc; "{n}")?;
            out.push_str(digits.as_str())?;
        }
        Node::Var(name) => {
            for byte in name.as_slice() {
                out.push(*byte as char)?;
            }
        }
        Node::Rank => out.push_str("rank")?,
        Node::Size => out.push_str("size")?,
        Node::Neg(inner) => {
            out.push_str("(-")?;
            show(alloc, inner, out)?;
            out.push_str(")")?;
        }
        Node::Two { op, left, right } => {
            out.push_str("(")?;
            show(alloc, left, out)?;
            out.push_str(spelling(*op))?;
            show(alloc, right, out)?;
            out.push_str(")")?;
        }
    }
    Ok(())
}

// What is read: the tree, its depth and how many tokens are left, or the refusal.
fn told(alloc: Global, text: &[u8]) -> Result<String, Fail> {
    let mut tokens = Vec::new(alloc);
    add(alloc, &mut tokens, text, 1)?;
    let mut out = String::new(alloc);
    match expr_at(alloc, tokens.as_slice()) {
        Ok(((tree, depth), rest)) => {
            show(alloc, &tree, &mut out)?;
            let end = format!(in alloc; " {depth} {}", rest.len())?;
            out.push_str(end.as_str())?;
        }
        Err(refusal) => {
            let end = format!(in alloc; "{refusal:?}")?;
            out.push_str(end.as_str())?;
        }
    }
    Ok(out)
}

#[test]
fn tokens_have_their_tree(rt: HostRuntime) -> Result<(), Fail> {
    let alloc = rt.alloc();
    let rows: [(&[u8], &str); 40] = [
        (b"1", "1 0 0"),
        (b"a", "a 0 0"),
        (b"r", "rank 0 0"),
        (b"s", "size 0 0"),
        (b"1+2*3", "(1+(2*3)) 0 0"),
        (b"1*2+3", "((1*2)+3) 0 0"),
        (b"1-2-3", "((1-2)-3) 0 0"),
        (b"1-2+3", "((1-2)+3) 0 0"),
        (b"1-(2-3)", "(1-(2-3)) 1 0"),
        (b"8/4*2%3", "(((8/4)*2)%3) 0 0"),
        (b"1+2*3-4", "((1+(2*3))-4) 0 0"),
        (b"a-1*2/3+4", "((a-((1*2)/3))+4) 0 0"),
        (b"-1*2", "((-1)*2) 1 0"),
        (b"1*-2", "(1*(-2)) 1 0"),
        (b"-(1*2)", "(-(1*2)) 2 0"),
        (b"-1+2", "((-1)+2) 1 0"),
        (b"--1", "(-(-1)) 2 0"),
        (b"1--1", "(1-(-1)) 1 0"),
        (b"1+2<3*4", "((1+2)<(3*4)) 0 0"),
        (b"1=2+3", "(1==(2+3)) 0 0"),
        (b"1!2", "(1!=2) 0 0"),
        (b"1{2", "(1<=2) 0 0"),
        (b"1>2", "(1>2) 0 0"),
        (b"1}2", "(1>=2) 0 0"),
        (b"(1<2)=1", "((1<2)==1) 1 0"),
        (b"1<(2<3)", "(1<(2<3)) 1 0"),
        (b"((1))", "1 2 0"),
        (b"(1)+((2))", "(1+2) 2 0"),
        (b"(-1)", "(-1) 2 0"),
        (b"(1+2)*3", "((1+2)*3) 1 0"),
        (b"1,2", "1 0 2"),
        (b"1+2.3", "(1+2) 0 2"),
        (b"1<2,3", "(1<2) 0 2"),
        (b"1]", "1 0 1"),
        (b"(1))", "1 1 1"),
        (b"1+2)", "(1+2) 0 1"),
        (b"12", "1 0 1"),
        (b"a[1", "a 0 2"),
        (b"1(2", "1 0 2"),
        (b"1k", "1 0 1"),
    ];
    for (text, want) in rows {
        let tree = told(alloc, text)?;
        assert_eq!(rt; tree.as_str(), want);
    }
    Ok(())
}

#[test]
fn other_tokens_are_refused(rt: HostRuntime) -> Result<(), Fail> {
    let alloc = rt.alloc();
    let rows: [&[u8]; 22] = [
        b"",
        b"+1",
        b"*1",
        b"=1",
        b"1+",
        b"1<",
        b"-",
        b"(",
        b"()",
        b")",
        b"(1",
        b"((1)",
        b"(1,2)",
        b"(12)",
        b"1+*2",
        b"1+,2",
        b"1<2<3",
        b"1<2=3",
        b"1+(1<2<3)",
        b"k",
        b"1+k",
        b",",
    ];
    for text in rows {
        let refusal = told(alloc, text)?;
        assert_eq!(rt; refusal.as_str(), "Fault(Shape)");
    }
    Ok(())
}

// The depth of what is read, where it is read to its end.
fn depth_of(alloc: Global, tokens: &Vec<Token>) -> Option<u32> {
    match expr_at(alloc, tokens.as_slice()) {
        Ok(((_, depth), [])) => Some(depth),
        _ => None,
    }
}

// So many times what opens, a number, and so many times what closes.
fn nested(
    alloc: Global,
    front: &[u8],
    back: &[u8],
    times: usize,
    closed: usize,
) -> Result<Option<u32>, Fail> {
    let mut tokens = Vec::new(alloc);
    add(alloc, &mut tokens, front, times)?;
    add(alloc, &mut tokens, b"1", 1)?;
    add(alloc, &mut tokens, back, closed)?;
    Ok(depth_of(alloc, &tokens))
}

#[test]
fn depth_counts_brackets_and_minus_signs(rt: HostRuntime) -> Result<(), Fail> {
    let alloc = rt.alloc();
    assert_eq!(rt; nested(alloc, b"(", b")", 64, 64)?, Some(64));
    assert_eq!(rt; nested(alloc, b"(", b")", 65, 65)?, Some(65));
    assert_eq!(rt; nested(alloc, b"(", b")", 66, 66)?, Some(65));
    assert_eq!(rt; nested(alloc, b"(", b")", 65, 64)?, None);
    assert_eq!(rt; nested(alloc, b"-", b"", 64, 0)?, Some(64));
    assert_eq!(rt; nested(alloc, b"-", b"", 65, 0)?, Some(65));
    assert_eq!(rt; nested(alloc, b"-(", b")", 32, 32)?, Some(64));
    assert_eq!(rt; nested(alloc, b"-(", b")", 33, 33)?, Some(65));
    assert_eq!(rt; nested(alloc, b"-1+(", b")", 1, 1)?, Some(1));
    Ok(())
}

#[test]
fn long_lines_are_read_and_let_go(rt: HostRuntime) -> Result<(), Fail> {
    let alloc = rt.alloc();
    assert_eq!(rt; nested(alloc, b"1+", b"", 500_000, 0)?, Some(0));
    assert_eq!(rt; nested(alloc, b"1*", b"", 500_000, 0)?, Some(0));
    assert_eq!(rt; nested(alloc, b"1+", b"+", 500_000, 1)?, None);
    assert_eq!(rt; nested(alloc, b"-", b"", 1_000_000, 0)?, Some(65));
    assert_eq!(rt; nested(alloc, b"(", b"", 1_000_000, 0)?, None);
    Ok(())
}

#[test]
fn deep_trees_are_read_and_let_go(rt: HostRuntime) -> Result<(), Fail> {
    let alloc = rt.alloc();
    assert_eq!(rt; nested(alloc, b"(1+", b")", 300_000, 300_000)?, Some(65));
    assert_eq!(rt; nested(alloc, b"(1+", b")", 200_000, 199_999)?, None);
    assert_eq!(rt; nested(alloc, b"(", b"+1)", 100_000, 100_000)?, Some(65));
    assert_eq!(rt;
        nested(alloc, b"(1+(", b"*1))", 100_000, 100_000)?,
        Some(65)
    );
    assert_eq!(rt;
        nested(alloc, b"(1+(-", b"<1))", 100_000, 100_000)?,
        Some(65)
    );
    Ok(())
}
