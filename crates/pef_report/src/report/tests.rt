use super::*;
use pef_io::{Failed, MemSink};
use std::alloc::Global;
use std::process::Abort;
use std::test::Fail;

/// Compares the line of an answer.
fn prints(rt: &impl Abort, alloc: Global, answer: &Answer, line: &str) -> Result<(), Fail> {
    let mut sink = MemSink::build(alloc, 100, Vec::new(alloc))?;
    assert!(rt; put_entry(&mut sink, 12, 3, &Cmd::GIrq, answer).is_ok());
    assert!(rt; sink.bytes() == line.as_bytes());
    Ok(())
}

#[test]
fn an_answer_that_few_scripts_get_has_its_words(rt: HostRuntime) -> Result<(), Fail> {
    prints(&rt, rt.alloc(), &Answer::Gone, "12 3 g.irq gone\n")?;
    prints(
        &rt,
        rt.alloc(),
        &Answer::Exit(Exit::Normal),
        "12 3 g.irq exit normal\n",
    )?;
    prints(&rt, rt.alloc(), &Answer::Nothing, "12 3 g.irq nothing\n")?;
    prints(
        &rt,
        rt.alloc(),
        &Answer::Exit(Exit::Hcall(3)),
        "12 3 g.irq exit H_SVM_INIT_ABORT\n",
    )
}

#[test]
fn a_line_is_one_write(rt: HostRuntime) -> Result<(), Fail> {
    let alloc = rt.alloc();
    let answer = Answer::Val(u64::MAX);
    // The second write fails: the first line is whole by then, and of the second one nothing is there.
    let mut sink = MemSink::build(alloc, 1000, vec![in alloc; 1]?)?;
    assert!(rt; put_entry(&mut sink, u64::MAX, 255, &Cmd::Go, &answer).is_ok());
    assert_eq!(rt; put_frame(&mut sink, 7, &[1]), Err(Failed));
    assert_eq!(rt;
        sink.bytes(),
        b"18446744073709551615 255 go val 0xffffffffffffffff\n".as_slice()
    );
    let mut sink = MemSink::build(alloc, 1000, vec![in alloc; 1]?)?;
    assert!(rt; put_frame(&mut sink, u32::MAX, &[1]).is_ok());
    assert_eq!(rt; put_end(&mut sink, 7), Err(Failed));
    // The digest is that of Python's hashlib.
    assert_eq!(rt;
        sink.bytes(),
        b"frame 4294967295 4bf5122f344554c53bde2ebb8cd2b7e3d1600ad631c385a5d7cce23c7785459a\n".as_slice()
    );
    let mut sink = MemSink::build(alloc, 1000, vec![in alloc; 1]?)?;
    assert!(rt; put_end(&mut sink, u32::MAX).is_ok());
    assert_eq!(rt; sink.bytes(), b"free 4294967295\nend\n".as_slice());
    Ok(())
}
