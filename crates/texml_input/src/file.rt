//! A file that is being read line by line.
ghost use Rattle.std.specs.Prelude.{◌≡◌, ◌≤◌, ◌+◌, [], length, None, IsTrue, MatchOption, IfOk, IfSome, OnOk, OnErr, true, false, option_to_list};
ghost use Rattle.texml_base.specs.Outside.{in_use};
ghost use Rattle.texml_token.specs.Numbers.{Table, token_at, Extends, Numbered, TokenWithin};
ghost use Rattle.texml_mouth.specs.Mouth.{bites, Gives};
ghost use Rattle.texml_mouth.specs.Seen.{answer_at, table_behind};
ghost use Rattle.texml_text.specs.File.{character};
ghost use Rattle.texml_text.specs.Reader.{Touches, Spends, HasLineCause, block};
ghost use Rattle.texml_input.specs.Held.{fresh_file, rows_of, page_of, file_room};
ghost use Rattle.texml_input.specs.Loading.{GivesToken, LoadsPage, load_bytes, LoadsLittle, LoadFalls};

use std::alloc::{AllocError, Global};
use std::marker::Model;
use std::rc::Rc;
use texml_base::Files;
use texml_mouth::{Codes, Mouth, MouthFault};
use texml_text::{LineFault, LineReader};
use texml_token::{Bytes, Line, Names, Token};

// A file: its name, which a place shares with it; whether it loads no line any more; the mouth of the line that it is in, which
// has met no fault; and the reader of its lines, which is boxed, as a file moves with each token.
#[derive(Debug, Drop)]
pub struct OpenFile {
    name: Rc<Bytes>,
    ended: bool,
    mouth: Mouth,
    reader: Box<LineReader>,
}

impl Model for OpenFile {
    ghost use Rattle.std.specs.Prelude.{◌≡◌, None};
    ghost use Rattle.texml_input.specs.Held.{Opened};

    ghost Value = { Opened };

    ghost view = { λ f. record { name = f.name.value; ended = f.ended; spot = f.mouth.spot; reader = f.reader.value } };

    ghost invariant = { λ f. f.mouth.fault ≡ None };
}

// Whether there was a next line.
#[derive(Clone, Copy, Debug)]
pub enum Found {
    Line,
    Nothing,
}

impl OpenFile {
    // A file of which nothing was read.
    pub fn new(alloc: Global, id: u32, name: &Bytes) -> Result<OpenFile, AllocError>
        ensures { IfOk result (λ f. f ≡ fresh_file id name.now) }
    {
        let name = Rc::new(alloc, name.clone()?)?;
        let reader = Box::new(alloc, LineReader::new(alloc, id))?;
        Ok(OpenFile {
            name,
            ended: false,
            mouth: Mouth::new(Line::new(alloc)),
            reader,
        })
    }

    // What it is called.
    pub fn name(&self) -> Result<Rc<Bytes>, AllocError>
        ensures { IfOk result (λ name. name.value ≡ self.now.name) }
    {
        self.name.clone()
    }

    // The number of its line last loaded.
    pub fn number(&self) -> u64
        ensures { result ≡ self.now.reader.number }
    {
        self.reader.number()
    }

    // Its id.
    pub fn id(&self) -> u32
        ensures { result ≡ self.now.reader.id }
    {
        self.reader.id()
    }

    // Loads no line any more.
    pub fn end(&mut self)
        ensures { self.new ≡ record self.old { ended = true } }
    {
        self.ended = true;
    }

    // The next token of its line last loaded, where one character tells it; else nothing changes.
    pub fn plain_token<C: Codes>(&mut self, codes: &C) -> Option<Token>
        ensures bites { IfSome result (λ t. (texts : Table) → bites (C.cats codes.now) self.old.spot ≡ Gives (token_at texts t) self.new.spot) }
        ensures same { MatchOption result (self.new ≡ self.old) (λ _. self.new ≡ record self.old { spot = self.new.spot }) }
        ensures lower { length self.new.spot.tail + length (option_to_list result) ≤ length self.old.spot.tail }
        ensures given { IfSome result (TokenWithin 0) }
    {
        self.mouth.next_plain(codes)
    }

    // The next token of its line last loaded.
    pub fn token<C: Codes>(
        &mut self,
        alloc: Global,
        codes: &C,
        names: &mut Names,
    ) -> Result<Option<Token>, MouthFault>
        ensures bites { GivesToken (C.cats codes.now) names.new self.old result self.new }
        ensures lower { IfOk result (λ o. length self.new.spot.tail + length (option_to_list o) ≤ length self.old.spot.tail) }
        ensures names { names.new ≡ table_behind names.old (answer_at names.new result) }
        ensures grows { Extends names.old names.new }
        ensures numbered { Numbered names.new }
        ensures given { IfOk result (λ o. IfSome o (TokenWithin (length names.new))) }
    {
        match self.mouth.next(alloc, codes, names) {
            Ok(token) => Ok(token),
            Err(fault) => {
                self.ended = true;
                self.mouth = Mouth::new(Line::new(alloc));
                Err(fault)
            }
        }
    }

    // Loads the next line, where nothing is left of the last one; or answers that there is none.
    pub fn load<F: Files>(&mut self, files: &mut F, end: Option<char>) -> Result<Found, LineFault>
        requires open { IsTrue (in_use (F.shelf files.old).ids self.old.reader.id) }
        requires sound { self.old.reader.fault ≡ None }
        requires dry { self.old.spot.tail ≡ [] }
        ensures lines { IsTrue (F.shelf files.old).tells → LoadsPage end (page_of (F.shelf files.old) self.old) result (page_of (F.shelf files.new) self.new) }
        ensures name { self.new.name ≡ self.old.name }
        ensures id { self.new.reader.id ≡ self.old.reader.id }
        ensures sound { OnOk result (self.new.reader.fault ≡ None) }
        ensures touches { Touches (F.shelf files.old) (F.shelf files.new) self.old.reader.id }
        ensures spends { IsTrue (F.shelf files.old).tells → Spends (F.shelf files.old) (F.shelf files.new) (length self.old.reader.held) (load_bytes result (rows_of (F.shelf files.old) self.old)) (length self.new.reader.held) }
        ensures little { length self.old.reader.held ≤ block → LoadsLittle result self.new.reader.held }
        ensures broken { OnErr result (self.new.ended ≡ false) }
        ensures lower { IfOk result (λ found. LoadFalls found (file_room (F.shelf files.old) self.old) (file_room (F.shelf files.new) self.new)) }
        ensures cause { HasLineCause (F.faults files.old) (F.faults files.new) result }
    {
        if self.ended {
            return Ok(Found::Nothing);
        }
        match self.reader.next_line(files, number_of(end)) {
            Ok(None) => Ok(Found::Nothing),
            Ok(Some(line)) => {
                self.mouth = Mouth::new(line);
                Ok(Found::Line)
            }
            Err(fault) => Err(fault),
        }
    }
}

// The number of a character, or that of none.
fn number_of(end: Option<char>) -> i32
    ensures { character result ≡ end }
{
    match end {
        None => -1,
        Some(c) => c as i32,
    }
}
