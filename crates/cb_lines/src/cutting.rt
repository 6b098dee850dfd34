//! A text is cut into its lines.

ghost use Rattle.std.specs.Prelude.{MatchOption};
ghost use Rattle.std.specs.List.{Contains};
ghost use Rattle.memchr.specs.Find.{IsFirstByte, is_byte};
ghost use Rattle.cb_lines.specs.Text.{line_feed, IsCut};

use memchr::memchr;

/// The first line, without its line feed, and what stands behind that; `None` where the text has no line feed.
pub fn first_line(text: &[u8]) -> Option<(&[u8], &[u8])>
    ensures { MatchOption result (¬ Contains text.now line_feed) (λ cut.
        IsCut text.now cut.0.now cut.1.now) }
{
    let end = memchr(b'\n', text)?;
    let (line, after) = text.split_at(end);
    Some((line, &after[1..]))
}
