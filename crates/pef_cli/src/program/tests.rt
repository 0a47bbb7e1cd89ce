use super::*;
use pef_io::{MemSink, MemSource};
use std::process::Abort;
use std::test::Fail;

// Runs the program on its arguments, a text and a read that fails, and compares the status and the line on standard error.
fn ends(
    rt: &impl Abort,
    alloc: Global,
    words: &str,
    text: &str,
    fails: Vec<u64>,
    room: usize,
    status: u8,
    line: &str,
) -> Result<(), Fail> {
    let mut args = Vec::new(alloc);
    for word in words.split(' ') {
        args.push(String::from_str(alloc, word)?)?;
    }
    let mut source = MemSource::build(text.as_bytes().to_vec(alloc)?, fails);
    let mut sink = MemSink::build(alloc, room, Vec::new(alloc))?;
    let mut errors = MemSink::build(alloc, 1000, Vec::new(alloc))?;
    let code = program(
        alloc,
        Ok(args.into_iter()),
        &mut source,
        &mut sink,
        &mut errors,
    );
    assert!(rt; code == ExitCode::from(status), "{words:?} {text:?}");
    assert!(rt;
        errors.bytes().starts_with(line.as_bytes()),
        "{words:?} {text:?}"
    );
    assert!(rt;
        status == 2 || errors.bytes().len() == line.len(),
        "{words:?} {text:?}"
    );
    Ok(())
}

#[test]
fn each_status_has_its_line(rt: HostRuntime) -> Result<(), Fail> {
    let alloc = rt.alloc();
    let script = "pef 1\nborn 1\nbegin\n";
    let frames = "pef 1\nnormal 1024\nsecure 1024\nborn 1\nbegin\n";
    let none = || Vec::new(alloc);
    ends(&rt, alloc, "pef run", script, none(), 100, 0, "")?;
    ends(
        &rt,
        alloc,
        "pef run",
        "pef",
        none(),
        100,
        1,
        "pef: script fault at line 1\n",
    )?;
    ends(&rt, alloc, "pef", script, none(), 100, 2, "pef: words\n")?;
    ends(
        &rt,
        alloc,
        "pef run run",
        script,
        none(),
        100,
        2,
        "pef: words\n",
    )?;
    ends(
        &rt,
        alloc,
        "pef run",
        script,
        vec![in alloc; 0]?,
        100,
        3,
        "pef: read fault\n",
    )?;
    ends(
        &rt,
        alloc,
        "pef run",
        script,
        none(),
        3,
        4,
        "pef: write fault\n",
    )?;
    ends(
        &rt,
        alloc,
        "pef run",
        frames,
        none(),
        100,
        6,
        "pef: limit 3: 134217728 over 67108864\n",
    )
}
