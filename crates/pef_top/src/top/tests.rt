use super::*;
use pef_io::{MemSink, MemSource};
use std::test::Fail;

#[test]
fn a_page_comes_back_from_the_bytes_that_were_sealed(rt: HostRuntime) -> Result<(), Fail> {
    // The report is written down by hand; the hypervisor changes the sealed page's first doubleword, and then puts it back.
    let script =
        "pef 1\nshift 8\nsecure 1\nseal vault\nborn 1\nbegin\n0 u.return 0 0\n0 g.li r20 7\n0 g.st r20 0x8\n0 g.irq\n0 u.pageout 1 0x100 0 0 8\n0 go*\n0 h.st 0x100 5\n0 u.pagein 1 0x100 0 0 8\n0 go*\n0 h.st 0x100 1\n0 u.pagein 1 0x100 0 0 8\n0 go*\n0 u.return 0 0\n0 g.ld r5 0x8\n";
    let report =
        "7 0 u.return enter\n8 0 g.li done\n9 0 g.st done\n10 0 g.irq exit irq\n11 0 u.pageout step\n12 0 go step\n12 0 go ret U_SUCCESS\n13 0 h.st done\n14 0 u.pagein step\n15 0 go step\n15 0 go ret U_P2\n16 0 h.st done\n17 0 u.pagein step\n18 0 go step\n18 0 go ret U_SUCCESS\n19 0 u.return enter\n20 0 g.ld val 0x7\nframe 1 cec0380835655ac3b41bbb0375f9fb5c44421cb235399683ae586c9e8dd54fdc\nfree 0\nend\n";
    let alloc = rt.alloc();
    let mut words = Vec::new(alloc);
    words.push(String::from_str(alloc, "run")?)?;
    let mut source = MemSource::build(script.as_bytes().to_vec(alloc)?, Vec::new(alloc));
    let mut sink = MemSink::build(alloc, 1000, Vec::new(alloc))?;
    let outcome = pef_run(alloc, &words, &mut source, &mut sink);
    assert!(rt; outcome == RunOutcome::plain(0));
    assert!(rt; sink.bytes() == report.as_bytes());
    Ok(())
}
