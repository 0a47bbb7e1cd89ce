//! A page is what it has, and how often it was paged out.

ghost use Rattle.std.specs.Prelude.{◌≡◌, length, replicate};
ghost use Rattle.std.specs.Option.{option_copied_mut};
ghost use Rattle.std.specs.Borrow.{LendsIf, sem};
ghost use Rattle.pef_pages.specs.Cells.{frame_in, with_frame};
ghost use Rattle.pef_pages.specs.Pages.{invalid_page};

use crate::cell::Cell;

/// A page of a guest.
#[derive(Drop)]
pub struct Page<F> {
    /// What it has.
    pub cell: Cell<F>,
    /// How often it was paged out, begun page-outs included.
    pub version: u64,
}

impl<F: Drop> Page<F> {
    ghost use Rattle.pef_pages.specs.contracts.page.Page.{the_row};

    /// An Invalid page that was never paged out.
    pub(crate) fn invalid() -> Page<F>
        ensures { result ≡ invalid_page }
    {
        Page {
            cell: Cell::Invalid,
            version: 0,
        }
    }

    /// Its secure frame for writing.
    pub(crate) fn frame_mut(&mut self) -> Option<&mut F>
        ensures* writes_back { sem 𝓛 (LendsIf (the_row F.row) F.row self.entry result (λ frame. record self.old { cell = with_frame self.old.cell frame }) self.old) }
        ensures value { option_copied_mut result ≡ frame_in self.old.cell }
    {
        self.cell.frame_mut()
    }

    /// It becomes Invalid, and was never paged out.
    fn clear(&mut self)
        ensures { self.new ≡ invalid_page }
    {
        *self = Page::invalid();
    }
}

/// The pages become Invalid, and were never paged out.
pub(crate) fn clear<F: Drop>(pages: &mut [Page<F>])
    ensures { pages.new ≡ replicate (length pages.old) invalid_page }
{
    for page in pages.iter_mut() {
        page.clear();
    }
}
