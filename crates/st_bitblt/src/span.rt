ghost use Rattle.std.specs.Prelude.{◌≡◌, ◌<◌, IfSome};
ghost use Rattle.st_bitblt.specs.inside.Reading.{IsDirection, axis_of};
ghost use Rattle.st_bitblt.specs.inside.Spans.{IsSmall, IsClipped, IsSpan};

use crate::direction::Direction;

/// A direction of a copy between Forms of so many lines, with counts that are 0 where they are negative. To the first lines
/// 16384 was added.
#[derive(Clone, Copy)]
pub struct Lines {
    to: u32,
    count: u32,
    from: u32,
    clip: u32,
    clip_count: u32,
    lines: u32,
    source_lines: u32,
}

/// Lines of a copy: those that are copied to, `count` from `to` on, and the first one that is copied from.
#[derive(Clone, Copy)]
pub struct Span {
    pub to: u32,
    pub from: u32,
    pub count: u32,
}

/// The lines that lie in the clip rectangle, in the destination and in the source.
fn clipped(a: Lines) -> Span
    requires { IsSmall a }
    ensures { IsClipped a result }
{
    let low = a
        .clip
        .max(16384)
        .saturating_sub(a.to)
        .max(16384u32.saturating_sub(a.from));
    let high = a
        .count
        .min(
            (a.clip + a.clip_count)
                .min(a.lines + 16384)
                .saturating_sub(a.to),
        )
        .min((a.source_lines + 16384).saturating_sub(a.from));
    Span {
        to: a.to + low - 16384,
        from: a.from + low - 16384,
        count: high.saturating_sub(low),
    }
}

/// The lines to which a direction copies, in a destination of so many lines, from a source, if any, of so many. Without one,
/// as from one of 32768 lines, the first of which comes first.
pub fn lines_copied(d: Direction, lines: u32, source_lines: Option<u32>) -> Span
    requires direction { IsDirection d }
    requires lines { lines < 16384 }
    requires source { IfSome source_lines (λ n. n < 16384) }
    ensures { IsSpan (axis_of d) lines source_lines result }
{
    let count = d.count.saturating_sub(16384);
    let clip_count = d.clip_count.saturating_sub(16384);
    match source_lines {
        Some(source_lines) => clipped(Lines {
            to: d.to,
            count,
            from: d.from,
            clip: d.clip,
            clip_count,
            lines,
            source_lines,
        }),
        None => clipped(Lines {
            to: d.to,
            count,
            from: 16384,
            clip: d.clip,
            clip_count,
            lines,
            source_lines: 32768,
        }),
    }
}
