ghost use Rattle.std.specs.Prelude.{◌≤◌, length};
ghost use Rattle.names.specs.Limits.{page_max};

use inline_vec::InlineVec;
use names::limits::PAGE_MAX;

mod methods;

/// The bytes of a page, or of a file that a run needs.
#[derive(Clone, Copy)]
pub struct Page {
    bytes: InlineVec<u8, PAGE_MAX>,
    ghost short: { length bytes.items ≤ page_max },
}

/// There is no room on the page for what was to be added.
// Not `inline_vec::Full`: `?` makes it the fault of a page that is too long.
#[derive(Clone, Copy, PartialEq, Eq, Debug)]
pub struct PageFull;
