//! What a reader of this project has to believe: the types, the definitions and the laws.
#![tactic(auto)]

pub mod aim;
pub mod call_laws;
pub mod cause_laws;
pub mod command;
pub mod config;
pub mod entry;
pub mod fresh_laws;
pub mod hypercall;
pub mod laws;
pub mod move_laws;
pub mod refusal_laws;
pub mod state;
pub mod step_laws;

pub use aim::Aim;
pub use command::{
    Cmd, Code, Directive, EXTERNAL_INTERRUPT, PAGE_IN_FLAGS, Reg, UV_PAGE_IN, UV_PAGE_INVAL,
    UV_PAGE_OUT, UV_REGISTER_MEM_SLOT, UV_RETURN, UV_SNAPSHOT, UV_UNREGISTER_MEM_SLOT,
    UV_WRITE_PATE,
};
pub use config::{Config, EntropyWord, EntropyWords, Lpids};
pub use entry::{Answer, Entry, Exit, Exposed, History, PoolSaw, Saw, Trace};
pub use hypercall::{
    H_CEDE, H_CONFER, H_CPPR, H_EOI, H_GET_TERM_CHAR, H_IPI, H_IPOLL, H_PROD, H_PUT_TERM_CHAR,
    H_RANDOM, H_REGISTER_VPA, H_SET_MODE, H_SVM_INIT_ABORT, H_SVM_INIT_DONE, H_SVM_INIT_START,
    H_SVM_PAGE_IN, H_SVM_PAGE_OUT, H_XIRR, HCALLS, Row, RowKind,
};
pub use state::{
    Ctx, Digest32, Kind, Move, Mover, Pending, Phase, Regs, Run, Slot, Tag, VState, Way, Work,
};
