//! The texts of the faults of the program.

use std::test::Fail;
use street_runs::ProgramFault;

#[test]
fn faults_are_told(rt: HostRuntime) -> Result<(), Fail> {
    let cases = [
        (ProgramFault::BadArguments, "bad arguments"),
        (ProgramFault::Read("a.jsonl"), "cannot read a.jsonl"),
        (
            ProgramFault::Write("standard output"),
            "cannot write standard output",
        ),
        (ProgramFault::OutOfMemory, "out of memory"),
        (ProgramFault::Endless, "endless input"),
        (ProgramFault::BadTape { line: 3 }, "bad tape at line 3"),
    ];
    for (fault, want) in cases {
        let told = format!(in rt.alloc(); "{fault}")?;
        assert_eq!(rt; told.as_str(), want);
    }
    Ok(())
}
