//! A text that grows by whole pieces, up to the first that finds no memory.
ghost use Rattle.std.specs.Prelude.{◌≡◌, ◌≢◌, ℕ, List, [], false, true, IfErr, IfOk, string_bytes};
ghost use Rattle.span_fmt.specs.Page.{Writes, is_cut, written};

use std::alloc::{AllocError, Global};

/// A text that grows by whole pieces, up to the first that finds no memory.
#[derive(Drop)]
pub(crate) struct Page {
    text: String,
    cut: bool,
}

impl Page {
    /// An empty page.
    pub(crate) fn new(alloc: Global) -> Page
        ensures text { written result ≡ [] }
        ensures cut { is_cut result ≡ false }
    {
        Page {
            text: String::new(alloc),
            cut: false,
        }
    }

    /// The text that is written on the page.
    pub(crate) fn text(&self) -> &str
        ensures { result.now ≡ written self.now }
    {
        self.text.as_str()
    }

    /// Whether no memory was found for a piece: nothing is written since then.
    pub(crate) fn is_cut(&self) -> bool
        ensures { result ≡ is_cut self.now }
    {
        self.cut
    }

    /// Writes a piece, if memory is found for it, and was for those before.
    pub(crate) fn write(&mut self, piece: Result<String, AllocError>)
        ensures { (bytes : List ℕ) → IfOk piece (λ s. string_bytes s ≡ bytes)
            → IfErr piece (λ e. bytes ≢ []) → Writes bytes self.old self.new }
    {
        if self.cut {
            return;
        }
        match piece {
            Ok(piece) if piece.is_empty() => {}
            Ok(piece) => self.cut = self.text.push_str(piece.as_str()).is_err(),
            Err(_) => self.cut = true,
        }
    }

    /// Ends the page, for want of memory for what is due.
    pub(crate) fn cut(&mut self)
        ensures text { written self.new ≡ written self.old }
        ensures cut { is_cut self.new ≡ true }
    {
        self.cut = true;
    }

    /// Takes out the text that is written, and leaves an empty page.
    pub(crate) fn take(&mut self, alloc: Global) -> String
        ensures text { string_bytes result ≡ written self.old }
        ensures empty { written self.new ≡ [] }
        ensures cut { is_cut self.new ≡ false }
    {
        let page = std::mem::replace(self, Page::new(alloc));
        page.text
    }
}
