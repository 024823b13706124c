// A script as far as it is read.
ghost use Rattle.std.specs.Prelude.{◌≡◌, ◌≤◌, length};
ghost use Rattle.st_chunk.specs.declared.cutting.Phase.TheVariants.{Within, Marked, Told as ToldBy};
ghost use Rattle.st_chunk.specs.Texts.{most};
ghost use Rattle.st_chunk.specs.Feeding.{MayGoOn, IsTold, last_answer};
ghost use Rattle.st_chunk.specs.Groups.{header_of};
ghost use Rattle.st_chunk.specs.Reading.{is_last, wrong, line_ended, line_byte, opened_byte, too_long, header_ended, header_byte};
ghost use Rattle.st_chunk.specs.Reading.{method_ended, method_byte, blanks_byte, behind_blanks_byte, header_at_end, method_at_end};
ghost use Rattle.st_chunk.specs.Reading.{byte_in, read, end_read};
ghost use Rattle.st_chunk.specs.inside.Progress.{heading_of, place_in, reading_of, Tells, IsKept};
ghost use Rattle.st_chunk.specs.Lines.{line_request};

use crate::buffer::Buffer;
use crate::chunk::Chunk;
use crate::cutting::Fed;
use crate::heading::read_heading;
use crate::line::{MOST, is_blank, line_request};
use crate::request::Request;

/// Where the next byte stands.
#[derive(Clone, Copy)]
pub(crate) enum Mode {
    /// In a line.
    Line,
    /// Behind a line.
    Behind,
    /// Behind the `!` that opens a group.
    Opened,
    /// In a group's header.
    Header,
    /// In a method of a group, or in what closes it.
    Methods,
    /// In the chunk behind a method, which its first byte told.
    Defined,
    /// Behind a method that ends with the script.
    CutOff,
    /// In a chunk that has too many blanks, and nothing else yet.
    Blanks,
    /// Behind a `!` there.
    BehindBlanks,
    /// Behind the end.
    Over,
}

/// A script as far as it is read. In a line and behind it `text` has its bytes, and in a group the class's name and the
/// category.
#[derive(Drop)]
pub(crate) struct Progress {
    pub(crate) mode: Mode,
    pub(crate) text: Buffer,
    pub(crate) class_length: usize,
    pub(crate) meta: bool,
    pub(crate) chunk: Chunk,
    pub(crate) line: u64,
    pub(crate) start: u64,
}

/// Whether nothing is read behind a line that asks for this.
fn is_last(request: Option<Request>) -> bool
    ensures { result ≡ is_last request }
{
    match request {
        Some(Request::End | Request::Wrong(_)) => true,
        _ => false,
    }
}

impl Progress {
    /// What begins in this line is wrong.
    fn stop(&mut self, line: u64) -> Option<Request>
        ensures tells { Tells (wrong (reading_of self.old) line) self.new result }
        ensures kept { IsKept self.new }
    {
        self.mode = Mode::Over;
        Some(Request::Wrong(line))
    }

    /// The line has ended.
    fn end_line(&mut self) -> Option<Request>
        requires { self.old.chunk.phase ≡ Within }
        ensures tells { Tells (line_ended (reading_of self.old) self.old.text) self.new result }
        ensures kept { IsKept self.new }
    {
        let request = line_request(self.start, self.text.as_slice());
        if is_last(request) {
            self.mode = Mode::Over;
            return request;
        }
        self.mode = Mode::Behind;
        self.start = self.line;
        request
    }

    /// A line has one byte more.
    fn line_byte(&mut self, byte: u8) -> Option<Request>
        requires { self.old.chunk.phase ≡ Within }
        ensures tells { Tells (line_byte (reading_of self.old) self.old.text byte) self.new result }
        ensures kept { IsKept self.new }
    {
        if byte == b'\n' {
            self.text.drop_return();
            return self.end_line();
        }
        if byte == b'!' && self.text.as_slice().is_empty() {
            let _told = self.chunk.feed(byte);
            self.mode = Mode::Opened;
            return None;
        }
        if self.text.as_slice().len() <= MOST {
            self.text.push(byte);
            self.mode = Mode::Line;
            return None;
        }
        self.stop(self.start)
    }

    /// The first byte behind the `!` that opens a group.
    fn opened_byte(&mut self, here: u64, byte: u8) -> Option<Request>
        requires { self.old.chunk.phase ≡ Marked }
        ensures tells { Tells (opened_byte (reading_of self.old) here byte) self.new result }
        ensures kept { IsKept self.new }
    {
        if byte == b'!' {
            return self.stop(self.start);
        }
        let _told = self.chunk.feed(byte);
        self.chunk.carry();
        self.mode = Mode::Header;
        self.start = here;
        None
    }

    /// A chunk has no room for this byte.
    fn too_long(&mut self, here: u64, byte: u8) -> Option<Request>
        ensures tells { Tells (too_long (reading_of self.old) here self.old.chunk byte) self.new result }
        ensures kept { IsKept self.new }
    {
        if !self.chunk.is_blank() {
            return self.stop(self.start);
        }
        if is_blank(byte) {
            self.mode = Mode::Blanks;
            return None;
        }
        self.stop(here)
    }

    /// A chunk that has too many blanks and nothing else has one byte more.
    fn blanks_byte(&mut self, here: u64, byte: u8) -> Option<Request>
        ensures tells { Tells (blanks_byte (reading_of self.old) here byte) self.new result }
        ensures kept { IsKept self.new }
    {
        if is_blank(byte) {
            self.mode = Mode::Blanks;
            return None;
        }
        if byte == b'!' {
            self.mode = Mode::BehindBlanks;
            return None;
        }
        self.stop(here)
    }

    /// The first byte behind a `!` there.
    fn behind_blanks_byte(&mut self, here: u64, byte: u8) -> Option<Request>
        ensures tells { Tells (behind_blanks_byte (reading_of self.old) here byte) self.new result }
        ensures kept { IsKept self.new }
    {
        if byte == b'!' {
            return self.stop(here);
        }
        self.stop(self.start)
    }

    /// The header has ended, and this byte is the first behind its `!`.
    fn end_header(&mut self, here: u64, byte: u8) -> Option<Request>
        requires told { self.old.chunk.phase ≡ ToldBy byte }
        requires short { length self.old.chunk.bytes ≤ most }
        ensures tells { Tells (header_ended (reading_of self.old) here byte (header_of self.old.chunk.bytes))
            self.new result }
        ensures kept { IsKept self.new }
    {
        match read_heading(self.chunk.text(), &mut self.text) {
            Some(heading) => {
                self.chunk.carry();
                self.class_length = heading.class_length;
                self.meta = heading.meta;
                self.mode = Mode::Methods;
                self.start = here;
                None
            }
            None => self.stop(self.start),
        }
    }

    /// The header has one byte more.
    fn header_byte(&mut self, here: u64, byte: u8) -> Option<Request>
        requires goes { MayGoOn self.old.chunk.phase }
        requires short { length self.old.chunk.bytes ≤ most }
        ensures tells { Tells (header_byte (reading_of self.old) here self.old.chunk byte) self.new result }
        ensures kept { IsKept self.new }
    {
        let was_blank = self.chunk.is_blank();
        match self.chunk.feed(byte) {
            Fed::More => {
                if was_blank && !self.chunk.is_blank() {
                    self.start = here;
                }
                self.mode = Mode::Header;
                None
            }
            Fed::Chunk => self.end_header(here, byte),
            Fed::Long => self.too_long(here, byte),
        }
    }

    /// A method has ended, or the empty chunk that closes the group, behind which a line begins.
    fn end_method(&mut self, here: u64, byte: u8) -> Option<Request>
        requires told { self.old.chunk.phase ≡ ToldBy byte }
        requires held { self.old.class_length ≤ length self.old.text }
        ensures tells { Tells (method_ended (reading_of self.old) here (heading_of self.old) byte
            self.old.chunk) self.new result }
        ensures kept { IsKept self.new }
    {
        if self.chunk.is_blank() {
            self.chunk.carry();
            self.mode = Mode::Line;
            self.text.clear();
            self.start = here;
            return self.line_byte(byte);
        }
        self.mode = Mode::Defined;
        self.start = here;
        Some(Request::Define)
    }

    /// A method has one byte more.
    fn method_byte(&mut self, here: u64, byte: u8) -> Option<Request>
        requires goes { MayGoOn self.old.chunk.phase }
        requires held { self.old.class_length ≤ length self.old.text }
        ensures tells { Tells (method_byte (reading_of self.old) here (heading_of self.old)
            self.old.chunk byte) self.new result }
        ensures kept { IsKept self.new }
    {
        let was_blank = self.chunk.is_blank();
        match self.chunk.feed(byte) {
            Fed::More => {
                if was_blank && !self.chunk.is_blank() {
                    self.start = here;
                }
                self.mode = Mode::Methods;
                None
            }
            Fed::Chunk => self.end_method(here, byte),
            Fed::Long => self.too_long(here, byte),
        }
    }

    /// The end of the script comes in a header.
    fn finish_header(&mut self) -> Option<Request>
        requires goes { MayGoOn self.old.chunk.phase }
        requires short { length self.old.chunk.bytes ≤ most }
        ensures tells { Tells (header_at_end (reading_of self.old) self.old.chunk
            (last_answer self.old.chunk.phase)) self.new result }
        ensures kept { IsKept self.new }
    {
        match self.chunk.finish() {
            Fed::Chunk => match read_heading(self.chunk.text(), &mut self.text) {
                Some(_) => self.stop(self.line),
                None => self.stop(self.start),
            },
            Fed::More | Fed::Long => self.stop(self.start),
        }
    }

    /// The end of the script comes in a method, or in what closes its group.
    fn finish_method(&mut self) -> Option<Request>
        requires goes { MayGoOn self.old.chunk.phase }
        requires held { self.old.class_length ≤ length self.old.text }
        ensures tells { Tells (method_at_end (reading_of self.old) (heading_of self.old) self.old.chunk
            (last_answer self.old.chunk.phase)) self.new result }
        ensures kept { IsKept self.new }
    {
        match self.chunk.finish() {
            Fed::Chunk => {
                if self.chunk.is_blank() {
                    self.mode = Mode::Over;
                    return None;
                }
                self.mode = Mode::CutOff;
                self.start = self.line;
                Some(Request::Define)
            }
            Fed::More | Fed::Long => self.stop(self.start),
        }
    }

    /// One byte more, in the line `here`; it is counted already.
    fn byte_in(&mut self, here: u64, byte: u8) -> Option<Request>
        requires { IsKept self.old }
        ensures tells { Tells (byte_in (place_in self.old.mode self.old) (reading_of self.old) here byte)
            self.new result }
        ensures kept { IsKept self.new }
    {
        match self.mode {
            Mode::Line => self.line_byte(byte),
            Mode::Behind => {
                self.text.clear();
                self.line_byte(byte)
            }
            Mode::Opened => self.opened_byte(here, byte),
            Mode::Header => self.header_byte(here, byte),
            Mode::Methods => self.method_byte(here, byte),
            Mode::Defined => {
                self.chunk.carry();
                self.method_byte(here, byte)
            }
            Mode::Blanks => self.blanks_byte(here, byte),
            Mode::BehindBlanks => self.behind_blanks_byte(here, byte),
            Mode::CutOff | Mode::Over => None,
        }
    }

    /// One byte more.
    #[tactic(auto, unfolding(crate::specs::Reading::read))]
    pub(crate) fn read(&mut self, byte: u8) -> Option<Request>
        requires { IsKept self.old }
        ensures tells { Tells (read (reading_of self.old) byte) self.new result }
        ensures kept { IsKept self.new }
    {
        let here = self.line;
        if byte == b'\n' {
            self.line = self.line.saturating_add(1);
        }
        self.byte_in(here, byte)
    }

    /// The end of the script.
    #[tactic(auto, unfolding(crate::specs::Reading::end_read))]
    pub(crate) fn finish(&mut self) -> Option<Request>
        requires { IsKept self.old }
        ensures tells { Tells (end_read (reading_of self.old)) self.new result }
        ensures kept { IsKept self.new }
    {
        match self.mode {
            Mode::Line => self.end_line(),
            Mode::Behind => {
                self.text.clear();
                self.end_line()
            }
            Mode::Opened => self.stop(self.line),
            Mode::Header => self.finish_header(),
            Mode::Methods => self.finish_method(),
            Mode::Defined | Mode::CutOff | Mode::Blanks | Mode::BehindBlanks => self.stop(
                self.start,
            ),
            Mode::Over => None,
        }
    }
}
