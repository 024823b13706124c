ghost use Rattle.std.specs.Prelude.{◌≡◌, ◌+◌, ◌*◌, ◌^◌, ◌<◌, ◌≤◌, length};
ghost use Rattle.st_model.specs.Values.{value};
ghost use Rattle.st_bitblt.specs.inside.Copied.{HasSource, object_of_source};
ghost use Rattle.st_bitblt.specs.inside.Rows.{HasRoom, FitsPlaces, FromTop, RowsCopied, tone_of};
ghost use Rattle.st_bitblt.specs.inside.Words.{words, HasWords};

use crate::row::copy_row;
use crate::rule::Rule;
use crate::source::{Ends, Places};
use crate::stretch::WORDS;
use st_memory::Memory;

/// How the rows of a copy are put down: by a rule, through a halftone of which word `first` modulo 16 is for the first row.
#[derive(Drop)]
pub struct Pen {
    pub rule: Rule,
    pub tones: [u16; 16],
    pub first: u32,
}

/// Where the rows of a copy stand: `height` rows of n pixels, of the destination from place p on, each `along` pixels after
/// the one before, and of the source from q on, each `across` after.
#[derive(Clone, Copy)]
pub struct Layout {
    pub p: u32,
    pub along: u32,
    pub q: u32,
    pub across: u32,
    pub n: u32,
    pub height: u32,
}

impl Pen {
    /// The halftone's word for a row of the copy.
    fn tone(&self, row: u32) -> u16
        requires { self.now.first + row < 2 ^ 32 }
        ensures { result ≡ tone_of self.now row }
    {
        self.tones[((self.first + row) % 16) as usize]
    }
}

/// The place where a row begins.
fn place(start: u32, step: u32, row: u32, height: u32) -> u32
    requires row { row ≤ height }
    requires fits { start + height * step < 2 ^ 32 }
    ensures { result ≡ start + row * step }
{
    start + row * step
}

/// Copies, from the top, the rows whose source does not begin before their destination.
fn copy_from_top<M: Memory>(
    m: &mut M,
    source: &mut [u16],
    dest: &mut [u16],
    pen: &Pen,
    ends: &Ends,
    a: Layout,
)
    requires buffers { (length source.old ≡ 129) × (length dest.old ≡ 128) }
    requires source { HasSource (M.view m.old) ends.now.source }
    requires dest { HasWords (M.view m.old) (value ends.now.dest) }
    requires wide { a.n ≤ a.along }
    requires room { HasRoom a (length (words (M.view m.old) (value ends.now.dest))) }
    requires fits { FitsPlaces a }
    requires first { pen.now.first + a.height < 2 ^ 32 }
    ensures { RowsCopied pen.now (object_of_source ends.now.source) (value ends.now.dest)
        (M.view m.old) (M.view m.new) a (FromTop a a.height) }
{
    for j in 0..a.height {
        let p = place(a.p, a.along, j, a.height);
        let q = place(a.q, a.across, j, a.height);
        if p <= q {
            let row = Places { p, q, n: a.n };
            copy_row(m, source, dest, &pen.rule, pen.tone(j), ends, row);
        }
    }
}

/// Copies rows: first, from the top, those whose source does not begin before their destination, and then the others, from the
/// bottom. So within one object none is read once it was changed.
pub fn copy_rows<M: Memory>(m: &mut M, pen: &Pen, ends: Ends, a: Layout)
    requires source { HasSource (M.view m.old) ends.source }
    requires dest { HasWords (M.view m.old) (value ends.dest) }
    requires wide { a.n ≤ a.along }
    requires narrow { a.n ≤ a.across }
    requires room { HasRoom a (length (words (M.view m.old) (value ends.dest))) }
    requires fits { FitsPlaces a }
    requires first { pen.now.first + a.height < 2 ^ 32 }
    ensures { RowsCopied pen.now (object_of_source ends.source) (value ends.dest)
        (M.view m.old) (M.view m.new) a (λ j. j < a.height) }
{
    let mut source = [0; WORDS + 1];
    let mut dest = [0; WORDS];
    copy_from_top(m, &mut source, &mut dest, pen, &ends, a);
    for j in (0..a.height).rev() {
        let p = place(a.p, a.along, j, a.height);
        let q = place(a.q, a.across, j, a.height);
        if q < p {
            let row = Places { p, q, n: a.n };
            copy_row(
                m,
                &mut source,
                &mut dest,
                &pen.rule,
                pen.tone(j),
                &ends,
                row,
            );
        }
    }
}
