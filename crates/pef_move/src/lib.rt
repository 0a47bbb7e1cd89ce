//! A page moves between its secure frame and a normal one in three steps, and between them whatever else may happen.
#![tactic(auto)]

mod asks;
mod inval;
mod late;
mod page_call;
mod page_in;
mod page_out;
mod route;

pub use asks::{asks_for_frame, gives_frame_back, refuses_page};
pub use inval::page_inval;
pub use late::{end_late, is_late};
pub use page_call::PageCall;
pub use page_in::{page_in_begin, page_in_copy, page_in_end, page_in_end_refused, page_in_refused};
pub use page_out::{page_out_begin, page_out_copy, page_out_end};
