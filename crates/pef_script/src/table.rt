//! Each command is a row: its name, what its operands are, and what is made of them.

ghost use Rattle.std.specs.Prelude.{◌≡◌, option_map};
ghost use Rattle.std.specs.List.{find};
ghost use Rattle.std.specs.Str.{bytes_eq};
ghost use Rattle.pef_script.specs.Table.{shape, shape_in, word_named, no_operands};

use pef_model::{Cmd, Directive, Reg};

/// What an operand is.
#[derive(Clone, Copy, Debug, PartialEq, Eq)]
pub enum Kind {
    /// A number below 2^64.
    Number,
    /// A register from r0 to r31.
    Register,
    /// A number, or two with | between them.
    Pair,
}

/// The commands that a script may name.
#[derive(Clone, Copy, Debug, PartialEq, Eq)]
pub enum Word {
    HLd,
    HSt,
    HSelect,
    HEnter,
    UPate,
    URegslot,
    UUnregslot,
    UPagein,
    UPageout,
    UInval,
    UReturn,
    GLi,
    GAdd,
    GXor,
    GLd,
    GSt,
    GHcall,
    GIrq,
    Go,
    GoAll,
    Dump,
}

/// The operands of a line, each at its place: a number, or a pair's left number, in `numbers`, a register in `registers`,
/// and a pair's right number in `right`. Where none was written stands 0.
#[derive(Clone, Copy)]
pub struct Operands {
    pub registers: [Reg; 3],
    pub numbers: [u64; 11],
    pub right: u64,
}

/// A command: its name, the kinds of its operands, and how many numbers may follow these.
#[derive(Clone, Copy)]
pub struct Row {
    pub name: &'static [u8],
    pub kinds: &'static [Kind],
    pub more: usize,
    pub word: Word,
}

const N: Kind = Kind::Number;

const R: Kind = Kind::Register;

const P: Kind = Kind::Pair;

macro_rules! row {
    ($name:literal, [$($kind:ident),*], $more:literal, $word:ident) => {
        Row {
            name: $name,
            kinds: &[$($kind),*],
            more: $more,
            word: Word::$word,
        }
    };
}

/// The commands of a script.
pub static TABLE: [Row; 21] = [
    row!(b"h.ld", [N], 0, HLd),
    row!(b"h.st", [N, N], 0, HSt),
    row!(b"h.select", [N, N], 0, HSelect),
    row!(b"h.enter", [N, N, N], 0, HEnter),
    row!(b"u.pate", [N, N, N], 0, UPate),
    row!(b"u.regslot", [N, N, N, N, N], 0, URegslot),
    row!(b"u.unregslot", [N, N], 0, UUnregslot),
    row!(b"u.pagein", [N, N, N, N, N], 0, UPagein),
    row!(b"u.pageout", [N, N, N, N, N], 0, UPageout),
    row!(b"u.inval", [N, N, N], 0, UInval),
    row!(b"u.return", [N, N], 9, UReturn),
    row!(b"g.li", [R, P], 0, GLi),
    row!(b"g.add", [R, R, R], 0, GAdd),
    row!(b"g.xor", [R, R, R], 0, GXor),
    row!(b"g.ld", [R, N], 0, GLd),
    row!(b"g.st", [R, N], 0, GSt),
    row!(b"g.hcall", [], 0, GHcall),
    row!(b"g.irq", [], 0, GIrq),
    row!(b"go", [], 0, Go),
    row!(b"go*", [], 0, GoAll),
    row!(b"dump", [R], 0, Dump),
];

/// The first row of a name.
fn row_in(table: &'static [Row], name: &[u8]) -> Option<&'static Row>
    ensures { option_map (λ row. row.now) result ≡ find (λ row. bytes_eq row.name.now name.now) table.now }
{
    table.iter().find(|row| row.name == name)
}

/// The row of a name; None where no command has it.
pub fn row_named(name: &[u8]) -> Option<&'static Row>
    ensures { option_map (λ row. shape_in row.now) result ≡ option_map shape (word_named name.now) }
{
    row_in(&TABLE, name)
}

/// What a command makes of its operands.
pub fn made(word: Word, o: &Operands) -> Directive
    ensures { result ≡ (shape word).make o.now }
{
    let n = &o.numbers;
    let r = &o.registers;
    Directive::Once(match word {
        Word::HLd => Cmd::HLd { ra: n[0] },
        Word::HSt => Cmd::HSt {
            ra: n[0],
            value: n[1],
        },
        Word::HSelect => Cmd::HSelect {
            lpid: n[0],
            vid: n[1],
        },
        Word::HEnter => Cmd::HEnter {
            lpid: n[0],
            vid: n[1],
            value: n[2],
        },
        Word::UPate => Cmd::UPate {
            lpid: n[0],
            dw0: n[1],
            dw1: n[2],
        },
        Word::URegslot => Cmd::URegslot {
            lpid: n[0],
            start: n[1],
            size: n[2],
            flags: n[3],
            id: n[4],
        },
        Word::UUnregslot => Cmd::UUnregslot {
            lpid: n[0],
            id: n[1],
        },
        Word::UPagein => Cmd::UPagein {
            lpid: n[0],
            src: n[1],
            gpa: n[2],
            flags: n[3],
            order: n[4],
        },
        Word::UPageout => Cmd::UPageout {
            lpid: n[0],
            dest: n[1],
            gpa: n[2],
            flags: n[3],
            order: n[4],
        },
        Word::UInval => Cmd::UInval {
            lpid: n[0],
            gpa: n[1],
            order: n[2],
        },
        Word::UReturn => Cmd::UReturn {
            r0: n[0],
            r2: n[1],
            outs: [n[2], n[3], n[4], n[5], n[6], n[7], n[8], n[9], n[10]],
        },
        Word::GLi => Cmd::GLi {
            rd: r[0],
            value: n[1],
        },
        Word::GAdd => Cmd::GAdd {
            rd: r[0],
            ra: r[1],
            rb: r[2],
        },
        Word::GXor => Cmd::GXor {
            rd: r[0],
            ra: r[1],
            rb: r[2],
        },
        Word::GLd => Cmd::GLd {
            rd: r[0],
            gpa: n[1],
        },
        Word::GSt => Cmd::GSt {
            rs: r[0],
            gpa: n[1],
        },
        Word::GHcall => Cmd::GHcall,
        Word::GIrq => Cmd::GIrq,
        Word::Go => Cmd::Go,
        Word::GoAll => return Directive::GoAll,
        Word::Dump => Cmd::Dump { reg: r[0] },
    })
}

/// No operand.
pub fn no_operands() -> Operands
    ensures { result ≡ no_operands }
{
    Operands {
        registers: [Reg::new(0).unwrap(); 3],
        numbers: [0; 11],
        right: 0,
    }
}
