//! What a page has: a frame where it is Secure or moves and nowhere else, a digest where it is Out and nowhere else.

ghost use Rattle.std.specs.Prelude.{◌≡◌, option_copied};
ghost use Rattle.std.specs.Option.{option_copied_mut};
ghost use Rattle.std.specs.Borrow.{LendsIf, sem};
ghost use Rattle.pef_pages.specs.Cells.{kind_of, mover_of, way_of, digest_of, frame_in, with_frame, without_frame, shared_by, unmapped, begun_out, ended_out, accepted_in, refused_in};

use pef_model::{Digest32, Kind, Mover, Way};
use std::mem;

/// What a page has. A moving page keeps the kind that it had before the move.
#[derive(Drop)]
pub enum Cell<F> {
    /// Nothing: it reads as zero.
    Invalid,
    /// Its secure frame.
    Secure {
        frame: F,
    },
    /// It is Out: the digest of what was paged out.
    Out {
        digest: Digest32,
    },
    /// It is Shared, and this normal frame backs it: its number, from 0.
    Shared {
        frame: u32,
    },
    /// It is Shared, and no frame backs it; whether the next one that does is to be zeroed.
    Unbacked {
        fresh: bool,
    },
    /// Its secure frame, the CPU that moves it outward, and the digest that it then has, if one.
    MovesOut {
        frame: F,
        cpu: u8,
        digest: Option<Digest32>,
    },
    /// Its secure frame, the CPU that moves it inward, and the digest of what was paged out, if it was.
    MovesIn {
        frame: F,
        cpu: u8,
        digest: Option<Digest32>,
    },
}

impl<F: Drop> Cell<F> {
    ghost use Rattle.pef_pages.specs.contracts.cell.Cell.{the_row};

    /// A page without a frame: Out where it keeps a digest, and else Invalid.
    pub(crate) fn without_frame(digest: Option<Digest32>) -> Cell<F>
        ensures { result ≡ without_frame digest }
    {
        match digest {
            Some(digest) => Cell::Out { digest },
            None => Cell::Invalid,
        }
    }

    /// A Shared page. Whether it is fresh counts where no normal frame backs it.
    pub(crate) fn shared(frame: Option<u32>, fresh: bool) -> Cell<F>
        ensures { result ≡ shared_by frame fresh }
    {
        match frame {
            Some(frame) => Cell::Shared { frame },
            None => Cell::Unbacked { fresh },
        }
    }

    /// Its kind.
    pub(crate) fn kind(&self) -> Kind
        ensures { result ≡ kind_of self.now }
    {
        match self {
            Cell::Invalid | Cell::MovesIn { digest: None, .. } => Kind::Invalid,
            Cell::Secure { .. } | Cell::MovesOut { .. } => Kind::Secure,
            Cell::Out { .. }
            | Cell::MovesIn {
                digest: Some(_),
                ..
            } => Kind::Out,
            Cell::Shared { frame } => Kind::Shared {
                frame: Some(*frame),
                fresh: false,
            },
            Cell::Unbacked { fresh } => Kind::Shared {
                frame: None,
                fresh: *fresh,
            },
        }
    }

    /// Which CPU moves it, and which way.
    pub(crate) fn mover(&self) -> Option<Mover>
        ensures { result ≡ mover_of self.now }
    {
        match self {
            Cell::MovesOut { cpu, .. } => Some(Mover {
                cpu: *cpu,
                way: Way::Outward,
            }),
            Cell::MovesIn { cpu, .. } => Some(Mover {
                cpu: *cpu,
                way: Way::Inward,
            }),
            _ => None,
        }
    }

    /// The digest of what was paged out.
    pub(crate) fn digest(&self) -> Option<Digest32>
        ensures { result ≡ digest_of self.now }
    {
        match self {
            Cell::Out { digest } => Some(*digest),
            Cell::MovesIn { digest, .. } => *digest,
            _ => None,
        }
    }

    /// Its secure frame.
    pub(crate) fn frame(&self) -> Option<&F>
        ensures { option_copied result ≡ frame_in self.now }
    {
        match self {
            Cell::Secure { frame } | Cell::MovesOut { frame, .. } | Cell::MovesIn { frame, .. } => {
                Some(frame)
            }
            _ => None,
        }
    }

    /// Its secure frame for writing.
    pub(crate) fn frame_mut(&mut self) -> Option<&mut F>
        ensures* writes_back { sem 𝓛 (LendsIf (the_row F.row) F.row self.entry result (with_frame self.old) self.old) }
        ensures value { option_copied_mut result ≡ frame_in self.old }
    {
        match self {
            Cell::Secure { frame } => Some(frame),
            Cell::MovesOut { frame, .. } => Some(frame),
            Cell::MovesIn { frame, .. } => Some(frame),
            _ => None,
        }
    }

    /// The secure frame that it had, which it gives away.
    pub(crate) fn into_frame(self) -> Option<F>
        ensures { result ≡ frame_in self }
    {
        match self {
            Cell::Secure { frame } | Cell::MovesOut { frame, .. } | Cell::MovesIn { frame, .. } => {
                Some(frame)
            }
            _ => None,
        }
    }

    /// No normal frame backs it any longer. Whether it is fresh stays.
    pub(crate) fn unmap(&mut self)
        ensures { self.new ≡ unmapped self.old }
    {
        if let Cell::Shared { .. } = self {
            *self = Cell::Unbacked { fresh: false };
        }
    }

    /// A Secure page that doesn't move begins to move outward.
    pub(crate) fn begin_out(&mut self, cpu: u8, digest: Option<Digest32>)
        requires kind { kind_of self.old ≡ Kind.Secure }
        requires rests { mover_of self.old ≡ None }
        ensures { self.new ≡ begun_out self.old cpu digest }
    {
        let Cell::Secure { frame } = mem::replace(self, Cell::Invalid) else {
            unreachable!()
        };
        *self = Cell::MovesOut { frame, cpu, digest };
    }

    /// A page that moves outward has moved, and gives its secure frame away.
    pub(crate) fn end_out(&mut self) -> F
        requires { way_of (mover_of self.old) ≡ Some Way.Outward }
        ensures frame { frame_in self.old ≡ Some result }
        ensures cell { self.new ≡ ended_out self.old }
    {
        let Cell::MovesOut { frame, digest, .. } = mem::replace(self, Cell::Invalid) else {
            unreachable!()
        };
        *self = Cell::without_frame(digest);
        frame
    }

    /// A page that is Invalid or Out, and doesn't move, begins to move inward into a secure frame.
    pub(crate) fn begin_in(&mut self, cpu: u8, frame: F)
        ensures { self.new ≡ Cell.MovesIn frame cpu (digest_of self.old) }
    {
        *self = Cell::MovesIn {
            frame,
            cpu,
            digest: self.digest(),
        };
    }

    /// A page that moves inward has moved, and what came is accepted: it is Secure.
    pub(crate) fn accept(&mut self)
        requires { way_of (mover_of self.old) ≡ Some Way.Inward }
        ensures { self.new ≡ accepted_in self.old }
    {
        let Cell::MovesIn { frame, .. } = mem::replace(self, Cell::Invalid) else {
            unreachable!()
        };
        *self = Cell::Secure { frame };
    }

    /// A page that moves inward has moved, and what came is refused: it is as before the move, and gives its secure frame
    /// away.
    pub(crate) fn refuse(&mut self) -> F
        requires { way_of (mover_of self.old) ≡ Some Way.Inward }
        ensures frame { frame_in self.old ≡ Some result }
        ensures cell { self.new ≡ refused_in self.old }
    {
        let Cell::MovesIn { frame, digest, .. } = mem::replace(self, Cell::Invalid) else {
            unreachable!()
        };
        *self = Cell::without_frame(digest);
        frame
    }
}
