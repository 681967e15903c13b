//! Where lines end in a text.
ghost use Rattle.std.specs.Prelude.{◌≡◌, ◌≢◌, ◌-◌, ◌≤◌, ◌<◌, All, length, slice_index};
ghost use Rattle.span_appender.specs.Lines.{first_line_length, ends_line, whole_length};

/// How many bytes of a text belong to its first line, with the newline that ends it.
pub fn first_line(text: &[u8]) -> usize
    ensures value { result ≡ first_line_length text.now }
    ensures within { result ≤ length text.now }
    ensures some { 0 < length text.now → 0 < result }
{
    for i in 0..text.len() {
        if text[i] == b'\n' {
            return i + 1;
        }
    }
    text.len()
}

/// How many bytes the whole lines have with which a text begins.
pub fn whole_lines(text: &[u8]) -> usize
    ensures value { result ≡ whole_length text.now }
    ensures within { result ≤ length text.now }
    ensures cut { 0 < result → slice_index text.now (result - 1) ≡ 10 }
    ensures none { result ≡ 0 → All (λ byte. byte ≢ 10) text.now }
{
    let mut whole = text.len();
    while whole > 0 && text[whole - 1] != b'\n' {
        whole -= 1;
    }
    whole
}

/// Whether a text ends with a newline.
pub(crate) fn is_line(text: &[u8]) -> bool
    ensures { result ≡ ends_line text.now }
{
    !text.is_empty() && text[text.len() - 1] == b'\n'
}
