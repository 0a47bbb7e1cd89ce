//! The parts of the machine's state that entries name.

/// The phase of a guest.
#[derive(Clone, Copy, Debug, PartialEq, Eq)]
pub enum Phase {
    /// It has no partition entry.
    Absent,
    /// It runs in normal memory through its partition entry.
    Normal,
    /// UV_ESM is under way; none of its vCPUs executes an instruction.
    Starting,
    /// It is a secure virtual machine.
    Secure,
    /// UV_ESM failed; its pages go back as they came.
    Aborting,
}

/// The kind of a guest's page.
#[derive(Clone, Copy, Debug, PartialEq, Eq)]
pub enum Kind {
    /// It has no frame, and reads as zero.
    Invalid,
    /// It lies in a secure frame.
    Secure,
    /// It was paged out: what it holds is sealed, in normal memory.
    Out,
    /// It lies in a normal frame, which the hypervisor reads and writes too.
    Shared {
        /// The normal frame that backs it, if one does.
        frame: Option<u32>,
        /// The next frame that backs it is to be zeroed. A page that has a frame is never fresh.
        fresh: bool,
    },
}

/// The way in which a page moves.
#[derive(Clone, Copy, Debug, PartialEq, Eq)]
pub enum Way {
    /// From normal memory into a secure frame.
    Inward,
    /// From its secure frame into normal memory.
    Outward,
}

/// Which CPU moves a page, and which way.
#[derive(Clone, Copy, Debug, PartialEq, Eq)]
pub struct Mover {
    /// The CPU's number, from 0.
    pub cpu: u8,
    pub way: Way,
}

/// A SHA-256 digest.
#[derive(Clone, Copy, Debug, PartialEq, Eq)]
pub struct Digest32 {
    pub bytes: [u8; 32],
}

/// Which page is sealed, and for which time: no two seals of one machine have one tag.
#[derive(Clone, Copy, Debug, PartialEq, Eq)]
pub struct Tag {
    /// The guest's number, from 1.
    pub lpid: u16,
    /// The guest's generation, from 1.
    pub generation: u64,
    /// The page's number, from 0.
    pub gfn: u32,
    /// How often the page was paged out, this time included.
    pub version: u64,
}

/// What a vCPU that has left waits for.
#[derive(Clone, Copy, Debug, PartialEq, Eq)]
pub enum Pending {
    /// The answer of its hypercall, in a guest in normal memory: `h.enter` gives R3 its value.
    Exit,
    /// The answer of its hypercall of this number, in a secure guest.
    Hcall(u8),
    /// An interrupt took it from its CPU.
    Irq,
    /// The page of this number, which its access met and which is Out.
    Fault(u32),
    /// The page of this number to go out, so that a secure frame is free for its access.
    Victim(u32),
    /// In UV_SHARE_PAGE, a normal frame for the page of this number.
    Share(u32),
    /// In UV_UNSHARE_PAGE, the hypervisor to give up the page of this number.
    Unshare(u32),
    /// In UV_UNSHARE_ALL_PAGES, the hypervisor to give up the page of this number.
    UnshareAll(u32),
    /// In UV_ESM, H_SVM_INIT_START.
    EsmStart,
    /// In UV_ESM, the page of this number.
    EsmNeed(u32),
    /// In UV_ESM, H_SVM_INIT_DONE.
    EsmDone,
}

/// The state of a vCPU.
#[derive(Clone, Copy, Debug, PartialEq, Eq)]
pub enum VState {
    /// It doesn't run, and `h.enter` takes it up; UV_RETURN doesn't.
    Idle,
    /// It hasn't run yet, and UV_RETURN takes it up.
    Fresh,
    /// It runs on the CPU of this number.
    Running(u8),
    /// It has left, and is taken up again on any CPU: by UV_RETURN in a secure guest, by `h.enter` in one in normal memory.
    Parked(Pending),
}

/// A memory slot: a run of pages that a guest may have.
#[derive(Clone, Copy, Debug, PartialEq, Eq)]
pub struct Slot {
    /// Its number among the guest's slots, which whoever registers it chooses.
    pub id: u16,
    /// The number of its first page, from 0.
    pub first: u32,
    /// How many pages it has.
    pub count: u32,
}

/// Which vCPU runs, and in which life of its guest.
#[derive(Clone, Copy, Debug, PartialEq, Eq)]
pub struct Run {
    /// The guest's number, from 1.
    pub lpid: u16,
    /// The vCPU's number, from 0.
    pub vid: u8,
    /// The guest's generation when the vCPU was taken up, from 1.
    pub generation: u64,
}

/// A page on the move: which one, and between which frames.
#[derive(Clone, Copy, Debug, PartialEq, Eq)]
pub struct Move {
    /// The guest's number, from 1.
    pub lpid: u16,
    /// The guest's generation when the move began, from 1.
    pub generation: u64,
    /// The page's number, from 0.
    pub gfn: u32,
    /// The normal frame's number, from 0.
    pub frame: u32,
    /// Whether the copy between the hand and the normal frame was made.
    pub copied: bool,
}

/// What is left to do of a call that a CPU has in progress.
#[derive(Clone, Copy, Debug, PartialEq, Eq)]
pub enum Work {
    /// UV_PAGE_IN: the page moves into its secure frame.
    Inward(Move),
    /// UV_PAGE_OUT: the page moves into normal memory.
    Outward(Move),
    /// UV_SHARE_PAGE of this vCPU.
    Share(Run),
    /// UV_UNSHARE_PAGE of this vCPU.
    Unshare(Run),
    /// UV_UNSHARE_ALL_PAGES of this vCPU.
    UnshareAll(Run),
    /// UV_ESM of this vCPU.
    Esm(Run),
}

/// What a CPU is doing.
#[derive(Clone, Copy, Debug, PartialEq, Eq)]
pub enum Ctx {
    /// The hypervisor runs.
    Hv,
    /// A call is in progress.
    Uv(Work),
    /// A guest's vCPU runs.
    Guest(Run),
}

/// The registers of a vCPU.
#[derive(Clone, Copy, Debug, PartialEq, Eq)]
pub struct Regs {
    /// R0 to R31.
    pub gpr: [u64; 32],
    /// The address of the next instruction.
    pub nip: u64,
    /// Where an interrupt goes back to.
    pub srr0: u64,
}
