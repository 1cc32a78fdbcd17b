//! The notices that a process was sent.
ghost use Rattle.std.specs.Prelude.{◌≡◌, IfOk};

use exchange::{Notice, copied_notices};
use std::alloc::AllocError;

/// Notices, in the order in which they came.
#[derive(Debug, PartialEq, Eq, Drop)]
pub struct NoticeList {
    notices: Vec<Notice>,
}

impl NoticeList {
    /// These notices.
    pub fn new(notices: Vec<Notice>) -> Self
        ensures { result.notices.items ≡ notices.items }
    {
        NoticeList { notices }
    }

    /// The notices, one by one.
    pub fn as_slice(&self) -> &[Notice]
        ensures { result.now ≡ self.now.notices.items }
    {
        self.notices.as_slice()
    }

    /// The same notices, in memory of their own.
    pub fn copy(&self) -> Result<Self, AllocError>
        ensures { IfOk result (λ copy. copy.notices.items ≡ self.now.notices.items) }
    {
        let notices = copied_notices(&self.notices)?;
        Ok(NoticeList { notices })
    }
}
