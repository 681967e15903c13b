//! Tags: numbers with a type of value.
ghost use Rattle.std.specs.Prelude.{◌≡◌};
ghost use Rattle.span_extensions.specs.Extensions.{tag_number};

use std::fmt;
use std::marker::PhantomData;

/// A number with a type: what an extension is found by. Two tags are the same exactly if their
/// types and their numbers are.
///
/// Stands for the type that the extensions of `tracing_subscriber` are found by.
#[derive_where(Clone, Copy)]
pub struct Tag<T> {
    number: u32,
    value: PhantomData<T>,
}

impl<T> fmt::Debug for Tag<T> {
    fn fmt<W: fmt::Write>(&self, f: &mut fmt::Formatter<W>) -> fmt::Result {
        f.debug_tuple("Tag").field(&self.number).finish()
    }
}

impl<T> Tag<T> {
    /// The tag with this number.
    pub fn new(number: u32) -> Tag<T>
        ensures { tag_number result ≡ number }
    {
        Tag {
            number,
            value: PhantomData,
        }
    }

    /// The number of this tag.
    pub fn number(self) -> u32
        ensures { result ≡ tag_number self }
    {
        self.number
    }
}
