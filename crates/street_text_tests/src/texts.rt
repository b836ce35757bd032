//! The texts of commands as lines, and of what answers a faulty line.

use std::alloc::Global;
use std::process::Abort;
use std::test::Fail;
use street_text::{LineFault, command_text, error_text, fault_text, read_command};

/// The text of the command that a line is.
fn printed(alloc: Global, line: &str) -> Result<Vec<u8>, Fail> {
    let command = read_command(alloc, line.as_bytes())?;
    Ok(command_text(alloc, &command)?)
}

/// The line is a command, whose text is this.
fn check_printed(rt: &(impl Abort + AllocGlobal), line: &str, want: &str) -> Result<(), Fail> {
    let text = printed(rt.alloc(), line)?;
    assert_eq!(rt; text.as_slice(), want.as_bytes());
    Ok(())
}

#[test]
fn a_line_prints_with_its_keys_in_order(rt: HostRuntime) -> Result<(), Fail> {
    for (line, want) in [
        (
            "{\"cmd\":\"load\",\"nodes\":[[1,1,2],[2,1,2],[3,1,2]],\"links\":[[10,1,2,1,10,5],[20,2,3,1,10,5]],\"turns\":[[10,0,20,0]],\"zone\":0,\"dawdle\":0,\"change\":0,\"seed\":0}",
            "{\"change\":0,\"cmd\":\"load\",\"dawdle\":0,\"links\":[[10,1,2,1,10,5],[20,2,3,1,10,5]],\"nodes\":[[1,1,2],[2,1,2],[3,1,2]],\"seed\":0,\"start\":0,\"turns\":[[10,0,20,0]],\"zone\":0}",
        ),
        (
            " {\"phases\":[[10,[]]],\"x\":null,\"offset\":0,\"node\":2,\"cmd\":\"signal\"}\r",
            "{\"cmd\":\"signal\",\"node\":2,\"offset\":0,\"phases\":[[10,[]]]}",
        ),
        ("{\"x\":[1],\"cmd\":\"count\"}", "{\"cmd\":\"count\"}"),
    ] {
        check_printed(&rt, line, want)?;
        check_printed(&rt, want, want)?;
    }
    Ok(())
}

/// The fault is answered so.
fn check_fault(rt: &(impl Abort + AllocGlobal), fault: LineFault, want: &str) -> Result<(), Fail> {
    let text = fault_text(rt.alloc(), fault)?;
    assert_eq!(rt; text.as_slice(), want.as_bytes());
    Ok(())
}

#[test]
fn prints_each_fault_of_a_line(rt: HostRuntime) -> Result<(), Fail> {
    for (fault, want) in [
        (
            LineFault::LineTooLong,
            "{\"error\":22,\"name\":\"LineTooLong\"}\n",
        ),
        (LineFault::NotJson, "{\"error\":20,\"name\":\"NotJson\"}\n"),
        (
            LineFault::BadCommand,
            "{\"error\":21,\"name\":\"BadCommand\"}\n",
        ),
    ] {
        check_fault(&rt, fault, want)?;
    }
    Ok(())
}

#[test]
fn prints_an_error(rt: HostRuntime) -> Result<(), Fail> {
    let full = error_text(rt.alloc(), 23, "Full")?;
    assert_eq!(rt;
        full.as_slice(),
        b"{\"error\":23,\"name\":\"Full\"}\n".as_slice()
    );
    Ok(())
}
