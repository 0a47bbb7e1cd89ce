//! A call that moves a page has five operands.

ghost use Rattle.std.specs.Prelude.{◌≡◌};

use pef_model::Cmd;

/// The operands of a call that moves a page.
#[derive(Clone, Copy, Debug, PartialEq, Eq)]
pub struct PageCall {
    /// The guest's number, from 1.
    pub lpid: u64,
    /// The real address of the normal frame, in bytes.
    pub ra: u64,
    /// The guest address of the page, in bytes.
    pub gpa: u64,
    pub flags: u64,
    /// A page's size as a power of two.
    pub order: u64,
}

impl PageCall {
    /// UV_PAGE_IN with these operands.
    pub(crate) fn page_in(&self) -> Cmd
        ensures { result ≡ Cmd.UPagein self.now.lpid self.now.ra self.now.gpa self.now.flags self.now.order }
    {
        Cmd::UPagein {
            lpid: self.lpid,
            src: self.ra,
            gpa: self.gpa,
            flags: self.flags,
            order: self.order,
        }
    }

    /// UV_PAGE_OUT with these operands.
    pub(crate) fn page_out(&self) -> Cmd
        ensures { result ≡ Cmd.UPageout self.now.lpid self.now.ra self.now.gpa self.now.flags self.now.order }
    {
        Cmd::UPageout {
            lpid: self.lpid,
            dest: self.ra,
            gpa: self.gpa,
            flags: self.flags,
            order: self.order,
        }
    }
}
