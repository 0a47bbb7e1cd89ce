use super::*;
use crate::fault::Cause::{Count, Header as NoHeader, NoBegin, Number, Range, Word};
use std::process::Abort;
use std::test::Fail;

/// Lines behind others, the line that is the first fault, and its cause; from the tables of the grammar, by hand.
type Faulty = (&'static str, u32, Cause);

/// Whole texts.
const TEXTS: &[Faulty] = &[
    ("", 1, NoHeader),
    ("\n", 1, NoHeader),
    ("pef", 1, NoHeader),
    ("pef 1 1\nbegin\n", 1, NoHeader),
    ("pef 01\nbegin\n", 1, NoHeader),
    ("pef 10\nbegin\n", 1, NoHeader),
    ("PEF 1\nbegin\n", 1, NoHeader),
    ("# pef 1\npef 1\nbegin\n", 1, NoHeader),
    ("pef 1", 2, NoBegin),
    ("pef 1\n", 2, NoBegin),
    ("pef 1\nborn 1", 3, NoBegin),
    ("pef 1\n\n#\n", 4, NoBegin),
];

/// Configuration lines behind `pef 1` and `guests 3`, which are lines 1 and 2: each has each cause that it can have.
const SETTINGS: &[Faulty] = &[
    ("shift 8\n", 3, Word),
    ("guests 3\n", 3, Word),
    ("begins\n", 3, Word),
    ("begin 1\n", 3, Word),
    (" # c\n", 3, Word),
    ("\tvcpus 1\n", 3, Word),
    ("prog 1\n", 3, Word),
    ("vcpus\n", 3, Count),
    ("vcpus 1 1\n", 3, Count),
    ("vcpus x\n", 3, Number),
    ("vcpus 0X1\n", 3, Number),
    ("vcpus 1|1\n", 3, Number),
    ("vcpus 18446744073709551616\n", 3, Number),
    ("vcpus 0\n", 3, Range),
    ("vcpus 9\n", 3, Range),
    ("vcpus 4294967297\n", 3, Range),
    ("vcpus 8\nvcpus 8\n", 4, Word),
    ("pages\n", 3, Count),
    ("pages 1 1\n", 3, Count),
    ("pages r1\n", 3, Number),
    ("pages 0\n", 3, Range),
    ("pages 1025\n", 3, Range),
    ("pages 1024\nvcpus 1\n", 4, Word),
    ("pages 1\npages 1\n", 4, Word),
    ("seal\n", 3, Count),
    ("seal wax\n", 3, Word),
    ("seal wax stream\n", 3, Word),
    ("seal vault stream\n", 3, Count),
    ("seal vault\nseal vault\n", 4, Word),
    ("key\n", 3, Count),
    ("key 0 0\n", 3, Count),
    ("key x\n", 3, Number),
    (
        "key 0123456789abcdef0123456789abcdef0123456789abcdef0123456789abcde\n",
        3,
        Number,
    ),
    (
        "key 0123456789abcdef0123456789abcdef0123456789abcdef0123456789abcdef0\n",
        3,
        Number,
    ),
    (
        "key 0x23456789abcdef0123456789abcdef0123456789abcdef0123456789abcdef\n",
        3,
        Number,
    ),
    (
        "key 0123456789abcdeg0123456789abcdef0123456789abcdef0123456789abcdef\n",
        3,
        Number,
    ),
    (
        "key 0123456789abcdef0123456789abcdef0123456789ABCDEF0123456789abcdef\nkey 0\n",
        4,
        Word,
    ),
    ("born\n", 3, Count),
    ("born 1 2\n", 3, Count),
    ("born x\n", 3, Number),
    ("born 0\n", 3, Range),
    ("born 4\n", 3, Range),
    ("born 2\nborn 2\n", 4, Range),
    ("born 2\nborn 1\n", 4, Range),
    ("born 2\nkey 0\n", 4, Word),
    ("born 1\nborn 3\nseal vault\n", 5, Word),
    ("entropy\n", 3, Count),
    ("entropy 1\n", 3, Count),
    (
        "entropy 1 1 1 1 1 1 1 1 1 1 1 1 1 1 1 1 1 1 1 1 1 1 1 1 1 1 1 1 1 1 1 1 1 1 1 1 1 1 1 1 1 1 1 1 1 1 1 1 1 1 1 1 1 1 1 1 1 1 1 1 1 1 1 1 1 1\n",
        3,
        Count,
    ),
    ("entropy x 1\n", 3, Number),
    ("entropy 1 x\n", 3, Number),
    ("entropy 9 1 x\n", 3, Number),
    ("entropy 1 1|\n", 3, Number),
    ("entropy 1 1|2|3\n", 3, Number),
    ("entropy 1 |\n", 3, Number),
    ("entropy 1|1 1\n", 3, Number),
    ("entropy r1 1\n", 3, Number),
    ("entropy 0 1\n", 3, Range),
    ("entropy 4 1\n", 3, Range),
    ("entropy 2 1\nentropy 2 1\n", 4, Range),
    ("entropy 2 1\nentropy 1 1\n", 4, Range),
    ("entropy 2 1\nborn 3\n", 4, Word),
    ("entropy 2 1\nkey 0\n", 4, Word),
    ("cpus 1\n", 3, Word),
    ("x\nvcpus 9\n", 3, Word),
];

/// The lines before `guests`, behind `pef 1`.
const SIZES: &[Faulty] = &[
    ("shifts 8\n", 2, Word),
    ("shift\n", 2, Count),
    ("shift 8 8\n", 2, Count),
    ("shift 1a\n", 2, Number),
    ("shift 7\n", 2, Range),
    ("shift 17\n", 2, Range),
    ("shift 8\nshift 8\n", 3, Word),
    ("normal\n", 2, Count),
    ("normal 1 1\n", 2, Count),
    ("normal 0x\n", 2, Number),
    ("normal 0\n", 2, Range),
    ("normal 1025\n", 2, Range),
    ("normal 1\nshift 8\n", 3, Word),
    ("normal 1\nnormal 1\n", 3, Word),
    ("secure 1\nnormal 1\n", 3, Word),
    ("secure\n", 2, Count),
    ("secure 1 1\n", 2, Count),
    ("secure -1\n", 2, Number),
    ("secure 0\n", 2, Range),
    ("secure 1025\n", 2, Range),
    ("secure 1\nsecure 1\n", 3, Word),
    ("cpus\n", 2, Count),
    ("cpus 1 1\n", 2, Count),
    ("cpus +1\n", 2, Number),
    ("cpus 0\n", 2, Range),
    ("cpus 17\n", 2, Range),
    ("cpus 1\ncpus 1\n", 3, Word),
    ("guests\n", 2, Count),
    ("guests 1 1\n", 2, Count),
    ("guests 0x10000000000000000\n", 2, Number),
    ("guests 0\n", 2, Range),
    ("guests 17\n", 2, Range),
    ("guests 1\nguests 1\n", 3, Word),
    ("guests 1\nborn 2\n", 3, Range),
];

/// Command lines behind `pef 1`, `cpus 2` and `begin`, which are lines 1 to 3.
const COMMANDS: &[Faulty] = &[
    ("x\n", 4, Number),
    ("x go 1\n", 4, Number),
    ("r0 h.no\n", 4, Number),
    ("0\n", 4, Word),
    ("0 h.ldx 1\n", 4, Word),
    ("0 gox\n", 4, Word),
    ("0 H.LD 1\n", 4, Word),
    ("0 u.invalid 1 0 8\n", 4, Word),
    ("9 u.invalid\n", 4, Word),
    ("0\tgo\n", 4, Number),
    ("0 go\r\n", 4, Word),
    ("0 h.ld\n", 4, Count),
    ("0 h.ld 1 2\n", 4, Count),
    ("0 h.ld r1\n", 4, Number),
    ("0 h.ld 1|1\n", 4, Number),
    ("0 h.ld 000000000000000000001\n", 4, Number),
    ("0 h.ld 0x00000000000000001\n", 4, Number),
    ("0 h.ld 18446744073709551616\n", 4, Number),
    ("0 h.ld 1_0\n", 4, Number),
    ("0 h.st 1\n", 4, Count),
    ("0 h.st 1 2 3\n", 4, Count),
    ("0 h.st 1 0x\n", 4, Number),
    ("0 h.select 1\n", 4, Count),
    ("0 h.select 1 0 0\n", 4, Count),
    ("0 h.select r1 0\n", 4, Number),
    ("0 h.enter 1 0\n", 4, Count),
    ("0 h.enter 1 0 0 0\n", 4, Count),
    ("0 h.enter 1 0 0|1\n", 4, Number),
    ("0 u.pate 1 0\n", 4, Count),
    ("0 u.pate 1 0 0 0\n", 4, Count),
    ("0 u.pate 1 0 0xg\n", 4, Number),
    ("0 u.regslot 1 0 0 0\n", 4, Count),
    ("0 u.regslot 1 0 0 0 0 0\n", 4, Count),
    ("0 u.regslot 1 0 0 0 r0\n", 4, Number),
    ("0 u.unregslot 1\n", 4, Count),
    ("0 u.unregslot 1 0 0\n", 4, Count),
    ("0 u.unregslot 1 0|1\n", 4, Number),
    ("0 u.pagein 1 0 0 0\n", 4, Count),
    ("0 u.pagein 1 0 0 0 8 8\n", 4, Count),
    ("0 u.pagein 1 r1 0 0 8\n", 4, Number),
    ("0 u.pageout 1 0 0 0\n", 4, Count),
    ("0 u.pageout 1 0 0 0 8 8\n", 4, Count),
    ("0 u.pageout 1 0 0 0 x\n", 4, Number),
    ("0 u.inval 1 0\n", 4, Count),
    ("0 u.inval 1 0 8 8\n", 4, Count),
    ("0 u.inval 1 0 r8\n", 4, Number),
    ("0 u.return 1\n", 4, Count),
    ("0 u.return 1 2 3 4 5 6 7 8 9 10 11 12\n", 4, Count),
    ("0 u.return 1 2 3 4 5 6 7 8 9 10 r1\n", 4, Number),
    ("0 g.li r1\n", 4, Count),
    ("0 g.li r1 1 1\n", 4, Count),
    ("0 g.li 1 1\n", 4, Number),
    ("0 g.li r32 1\n", 4, Number),
    ("0 g.li r031 1\n", 4, Number),
    ("0 g.li r00 1\n", 4, Number),
    ("0 g.li r 1\n", 4, Number),
    ("0 g.li R1 1\n", 4, Number),
    ("0 g.li r0x1 1\n", 4, Number),
    ("0 g.li r1 |1\n", 4, Number),
    ("0 g.li r1 1|\n", 4, Number),
    ("0 g.li r1 |\n", 4, Number),
    ("0 g.li r1 1|2|3\n", 4, Number),
    ("0 g.li r1 r1\n", 4, Number),
    ("0 g.li r1 1| 2\n", 4, Count),
    ("0 g.ld r1 1|1\n", 4, Number),
    ("0 g.ld 1 1\n", 4, Number),
    ("0 g.ld r1\n", 4, Count),
    ("0 g.ld r1 1 1\n", 4, Count),
    ("0 g.st r1\n", 4, Count),
    ("0 g.st r1 1 1\n", 4, Count),
    ("0 g.st 1 1\n", 4, Number),
    ("0 g.st r1 r1\n", 4, Number),
    ("0 g.irq 0\n", 4, Count),
    ("2 go\n", 4, Range),
    ("18446744073709551615 h.ld 1\n", 4, Range),
    ("258 g.irq\n", 4, Range),
    ("2 g.li r1 x\n", 4, Number),
    ("\n# c\n   \n0 go 1\n1 gox\n", 7, Count),
    ("0 go *\n", 4, Count),
];

/// Compares the fault of each text behind the same lines.
fn compare(
    rt: &impl Abort,
    alloc: Global,
    before: &str,
    texts: &[Faulty],
    behind: &str,
) -> Result<(), Fail> {
    for (text, line, cause) in texts {
        let mut script = before.as_bytes().to_vec(alloc)?;
        script.extend_from_slice(text.as_bytes())?;
        script.extend_from_slice(behind.as_bytes())?;
        assert!(rt; script.len() <= 1000);
        let wanted = ReadEnd::Fault(ScriptFault {
            line: *line,
            cause: *cause,
        });
        assert!(rt;
            read_script(alloc, &script).err() == Some(wanted),
            "{text:?}"
        );
    }
    Ok(())
}

#[test]
fn each_line_has_each_fault(rt: HostRuntime) -> Result<(), Fail> {
    let alloc = rt.alloc();
    compare(&rt, alloc, "", TEXTS, "")?;
    compare(&rt, alloc, "pef 1\n", SIZES, "begin\n")?;
    compare(&rt, alloc, "pef 1\nguests 3\n", SETTINGS, "begin\n")?;
    compare(&rt, alloc, "pef 1\ncpus 2\nbegin\n", COMMANDS, "")
}

#[test]
fn a_text_is_read_with_what_its_lines_say(rt: HostRuntime) -> Result<(), Fail> {
    let text =
        b"pef  1 \n# c\nshift 9\nnormal 2\nsecure 0x3\ncpus 16\nguests 3\nvcpus 2\npages 5\n\nseal vault\nkey 000102030405060708090A0b0c0d0e0f101112131415161718191a1b1c1d1e1f\nborn 1\nborn 3\nentropy 2 7|8 0x9\n begin\n  0xF   g.li r20 0xAb|3 \n#\n0 u.return 1 2 3\n3 go*";
    prove!(text.len() <= 1000);
    let alloc = rt.alloc();
    let Ok(script) = read_script(alloc, text) else {
        return Err(Fail::from("a script"));
    };
    let config = &script.config;
    let sizes = [
        config.normal,
        config.secure,
        u32::from(config.guests),
        config.pages,
    ];
    assert!(rt; config.shift == 9 && config.cpus == 16 && config.vcpus == 2 && config.vault);
    assert!(rt; sizes == [2, 3, 3, 5]);
    assert!(rt; config.key[10] == 10 && config.key[31] == 31);
    assert!(rt; config.born.as_slice() == [1u16, 3].as_slice());
    let words = config.entropy.as_slice();
    assert!(rt; words.len() == 2 && words[0].lpid == 2 && words[1].left == 9);
    assert!(rt; words[0].left == 7 && words[0].right == 8 && words[1].right == 9);
    Ok(())
}
