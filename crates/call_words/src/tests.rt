//! Words that give a command, and words that give none.
use crate::numbers::value_in;
use crate::options::Takes;
use crate::{Command, HeatOptions, RunOptions, command_of, needs_run};
use std::alloc::{AllocError, Global};
use std::test::Fail;

// The words that a text separates by blanks.
fn words_of(alloc: Global, text: &str) -> Result<Vec<String>, AllocError> {
    let mut words = Vec::new(alloc);
    for word in text.split_whitespace() {
        words.push(String::from_str(alloc, word)?)?;
    }
    Ok(words)
}

fn run_of(ranks: u16, eager: u32, trace: bool) -> RunOptions {
    RunOptions {
        ranks,
        eager,
        trace,
    }
}

fn sizes_of(blocks: u32, cells: u32, steps: u32, seed: u32) -> HeatOptions {
    HeatOptions {
        blocks,
        cells,
        steps,
        seed,
    }
}

#[test]
fn options_stand_in_any_order_and_have_defaults(rt: HostRuntime) -> Result<(), Fail> {
    let alloc = rt.alloc();
    let rows = [
        ("run", run_of(1, 64, false)),
        ("run --ranks 2", run_of(2, 64, false)),
        ("run --ranks=0000000064", run_of(64, 64, false)),
        ("run --eager 0 --trace", run_of(1, 0, true)),
        (
            "run --trace --eager=16777216 --ranks 3",
            run_of(3, 16_777_216, true),
        ),
        ("run --ranks 3 --eager 07", run_of(3, 7, false)),
    ];
    for (text, options) in rows {
        let words = words_of(alloc, text)?;
        let asked = command_of(alloc, words.as_slice())?;
        assert_eq!(rt; asked, Some(Command::Run(options)), "{text}");
    }
    Ok(())
}

#[test]
fn the_heat_solver_has_options_of_its_own(rt: HostRuntime) -> Result<(), Fail> {
    let alloc = rt.alloc();
    let rows = [
        ("heat", run_of(2, 64, false), sizes_of(4, 1_024, 10, 1)),
        (
            "heat --ranks 1 --trace --seed=4294967295",
            run_of(1, 64, true),
            sizes_of(4, 1_024, 10, u32::MAX),
        ),
        (
            "heat --blocks 1024 --cells=65536 --steps 10000 --eager 0",
            run_of(2, 0, false),
            sizes_of(1_024, 65_536, 10_000, 1),
        ),
        (
            "heat --steps 0 --cells=0000000001 --blocks=1 --seed 0",
            run_of(2, 64, false),
            sizes_of(1, 1, 0, 0),
        ),
    ];
    for (text, options, sizes) in rows {
        let words = words_of(alloc, text)?;
        let asked = command_of(alloc, words.as_slice())?;
        assert_eq!(rt; asked, Some(Command::Heat(options, sizes)), "{text}");
    }
    Ok(())
}

#[test]
fn the_first_word_alone_asks_for_a_run(rt: HostRuntime) -> Result<(), Fail> {
    let alloc = rt.alloc();
    let rows = [
        ("run", true),
        ("run --bogus", true),
        ("heat --ranks 0", true),
        ("check", false),
        ("--ranks run", false),
        ("", false),
    ];
    for (text, needed) in rows {
        let words = words_of(alloc, text)?;
        assert_eq!(rt; needs_run(words.as_slice()), needed, "{text}");
    }
    Ok(())
}

#[test]
fn words_in_another_form_give_no_command(rt: HostRuntime) -> Result<(), Fail> {
    let alloc = rt.alloc();
    let rows = [
        "",
        "fly",
        "ru",
        "--ranks 2",
        "run --",
        "run run",
        "run 2",
        "run --rank 2",
        "run --ranks",
        "run --ranks=",
        "run --ranks +2",
        "run --ranks=2=2",
        "run --ranks --eager",
        "run --ranks 0",
        "run --ranks 65",
        "run --ranks 00000000002",
        "run --ranks 2 --ranks 2",
        "run --ranks=2 --eager=1 --ranks=2",
        "run --eager 16777217",
        "run --eager 4294967360",
        "run =2",
        "run --trace=",
        "run --trace 1",
        "run --trace --trace",
        "run --ranks --trace",
        "run --workers 2",
        "run --seed 1",
        "run --blocks 4",
        "heat --seed 4294967296",
        "heat --blocks 0",
        "heat --blocks 1025",
        "heat --cells 0",
        "heat --cells 65537",
        "heat --steps 10001",
        "heat --steps 1 --steps=1",
        "heat run",
        "check",
    ];
    for text in rows {
        let words = words_of(alloc, text)?;
        assert_eq!(rt; command_of(alloc, words.as_slice())?, None, "{text}");
    }
    Ok(())
}

#[test]
fn a_flag_has_no_value_and_a_number_has_one(rt: HostRuntime) {
    let digit = Takes::Number { least: 1, most: 9 };
    assert_eq!(rt; Takes::Flag.value_by(None), Some(1));
    assert_eq!(rt; Takes::Flag.value_by(Some(b"1")), None);
    assert_eq!(rt; digit.value_by(Some(b"9")), Some(9));
    assert_eq!(rt; digit.value_by(None), None);
}

#[test]
fn numbers_are_one_to_ten_digits(rt: HostRuntime) {
    let rows: [(&[u8], Option<u32>); 7] = [
        (b"0", Some(0)),
        (b"0000000012", Some(12)),
        (b"00000000012", None),
        (b"4294967295", Some(4_294_967_295)),
        (b"4294967296", None),
        (b"", None),
        (b"-1", None),
    ];
    for (text, number) in rows {
        assert_eq!(rt; value_in(0, 4_294_967_295, text), number);
    }
}
