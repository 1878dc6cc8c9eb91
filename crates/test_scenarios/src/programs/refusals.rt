//! Refusals that no command line meets, as the lines that they become.
use pdtcli::{OpenFault, Refusal, ScriptFault, ShowFault, TableFault};
use std::test::Fail;
use values::NoMemory;

static LINES: [(Refusal, &str); 7] = [
    (
        Refusal::Table(TableFault::TooManyRows),
        "pdt: table: TooManyRows",
    ),
    (Refusal::Table(TableFault::NoMemory), "pdt: table: NoMemory"),
    (
        Refusal::Script(ScriptFault::NoMemory),
        "pdt: script: NoMemory",
    ),
    (Refusal::Open(OpenFault::BadLimit), "pdt: open: BadLimit"),
    (Refusal::Open(OpenFault::NoMemory), "pdt: open: NoMemory"),
    (Refusal::Run(NoMemory), "pdt: run: NoMemory"),
    (
        Refusal::Output(ShowFault::NoMemory),
        "pdt: output: NoMemory",
    ),
];

#[test]
fn a_refusal_is_one_line(rt: HostRuntime) -> Result<(), Fail> {
    for (refusal, want) in &LINES {
        let line = format!(in rt.alloc(); "{refusal}")?;
        assert!(&rt; line.as_str() == *want, "{want}");
    }
    Ok(())
}
