//! What is still to be read.
ghost use Rattle.std.specs.Prelude.{◌≡◌, ◌≤◌, ◌<◌, ℕ, ◌+◌, [], ◌∷◌, ◌++◌, length, map, replicate, IsTrue, None, Err, IfSome, IfOk, OnOk, OnErr, option_to_list};
ghost use Rattle.texml_token.specs.Numbers.{Extends, Numbered};
ghost use Rattle.texml_scope.specs.Shown.{world_of};
ghost use Rattle.texml_input.specs.Codes.{cats_of, end_of};
ghost use Rattle.texml_input.specs.Put.{put_code};
ghost use Rattle.texml_base.specs.Outside.{Shelf};
ghost use Rattle.texml_input.specs.Rest.{no_place, end_rests};
ghost use Rattle.texml_input.specs.Next.{next};
ghost use Rattle.texml_input.specs.Held.{Plain, File, Fence, back_source, fresh_file, ids_of, fences_of, rest_of, aside_of, AreHeld, AreSound, AreLittle, SourcesWithin, rest_at, room_of, IsAtFence, unfenced, end_first};
ghost use Rattle.texml_input.specs.Keeping.{Holds, HasInputCause};
ghost use Rattle.texml_input.specs.Answers.{given_at, names_behind, GivenWithin, IsNext, fault_after, LittleAfter, Loads, EndsAtFence};
ghost use Rattle.texml_input.specs.Inside.{written};

use crate::emptying::{close, count_files, drop_fence, empty, end_file_of};
use crate::fault::{InputFault, Read};
use crate::file::OpenFile;
use crate::frame::{Expansion, Part};
use crate::turning::{Frame, LinePlace, next_read};
use std::alloc::{AllocError, Global};
use std::marker::Model;
use texml_base::Files;
use texml_match::Args;
use texml_scope::Scope;
use texml_token::{Bytes, Names, Token, Tokens};

/// What is still to be read, and the place of the line last loaded.
#[derive(Debug, Drop)]
pub struct Input {
    alloc: Global,
    // The frame in front is the last.
    frames: Vec<Frame>,
    place: LinePlace,
    fault: Option<InputFault>,
}

impl Model for Input {
    ghost use Rattle.std.specs.Prelude.{◌≡◌, None};
    ghost use Rattle.texml_input.specs.Held.{Held, AreSound};
    ghost use Rattle.texml_input.specs.Inside.{sources_of};

    ghost Value = { Held };

    ghost view = { λ i. record { sources = sources_of i.frames.items; place = i.place; fault = i.fault } };

    ghost invariant = { λ i. i.fault ≡ None → AreSound (sources_of i.frames.items) };
}

impl Input {
    /// An input of nothing, before the first line. It takes no memory.
    pub fn new(alloc: Global) -> Input
        ensures { result ≡ record { sources = []; place = no_place; fault = None } }
    {
        Input {
            alloc,
            frames: Vec::new(alloc),
            place: LinePlace::new(),
            fault: None,
        }
    }

    /// Takes the next token, or answers None at a fence, or where nothing is left. A line of a file is loaded only for its first
    /// token, and from then on is the place. Characters have the categories that the scope has at this call, a line
    /// gets its end character, and a name is given its number in `names` (The TeXbook, chapters 7 and 8). A file that has ended
    /// is closed where the next token is asked for.
    ///
    /// # Errors
    ///
    /// - `Invalid` with the code of a character of category 15, where it would begin a token.
    /// - `NotUtf8` where a line is not UTF-8. The place is this line.
    /// - `Failed` where the files failed.
    /// - `NoMemory` where there is no memory for a line or a name.
    ///
    /// After an error the input stays as it is, and answers that error from then on.
    pub fn next<F: Files>(
        &mut self,
        scope: &Scope,
        names: &mut Names,
        files: &mut F,
    ) -> Result<Option<Read>, InputFault>
        requires held { AreHeld (F.shelf files.old).ids (ids_of self.old.sources) }
        requires within { SourcesWithin (length names.old) self.old.sources }
        requires numbered { Numbered names.old }
        ensures next { self.old.fault ≡ None → IsTrue (F.shelf files.old).tells → IsNext
            (next (cats_of (world_of scope.now)) (end_of (world_of scope.now)) (rest_at names.old (F.shelf files.old) self.old.sources) self.old.place)
            (given_at names.new result) (rest_at names.new (F.shelf files.new) self.new.sources) self.new.place }
        ensures loads { self.old.fault ≡ None → IsTrue (F.shelf files.old).tells → AreLittle self.old.sources → Loads (F.shelf files.old) (F.shelf files.new) self.old.sources self.new.sources
            (next (cats_of (world_of scope.now)) (end_of (world_of scope.now)) (rest_at names.old (F.shelf files.old) self.old.sources) self.old.place) result }
        ensures little { self.old.fault ≡ None → AreLittle self.old.sources → LittleAfter result self.new.sources }
        ensures holds { Holds (F.shelf files.old) (F.shelf files.new) self.old.sources self.new.sources }
        ensures fences { fences_of self.new.sources ≡ fences_of self.old.sources }
        ensures aside { IsTrue (F.shelf files.old).tells → aside_of (F.shelf files.new) self.new.sources ≡ aside_of (F.shelf files.old) self.old.sources }
        ensures ends { self.old.fault ≡ None → EndsAtFence result self.new.sources }
        ensures cause { self.old.fault ≡ None → HasInputCause (F.faults files.old) (F.faults files.new) result }
        ensures fault { self.old.fault ≡ None → self.new.fault ≡ fault_after result }
        ensures stays { IfSome self.old.fault (λ fault. (result ≡ Err fault) × (self.new ≡ self.old) × (names.new ≡ names.old) × (F.shelf files.new ≡ F.shelf files.old) × (F.faults files.new ≡ F.faults files.old)) }
        ensures names { names.new ≡ names_behind names.old (given_at names.new result) }
        ensures grows { Extends names.old names.new }
        ensures numbered { Numbered names.new }
        ensures within { SourcesWithin (length names.new) self.new.sources }
        ensures given { GivenWithin (length names.new) result }

        // Each token lowers what may still be taken.
        ensures lower { IfOk result (λ o. room_of (F.shelf files.new) self.new.sources + length (option_to_list o) ≤ room_of (F.shelf files.old) self.old.sources) }
    {
        if let Some(fault) = self.fault {
            return Err(fault);
        }
        let answer = next_read(
            &mut self.frames,
            &mut self.place,
            self.alloc,
            scope,
            names,
            files,
        );
        if let Err(fault) = answer {
            self.fault = Some(fault);
        }
        answer
    }

    /// Puts tokens in front, the first of them first. They are shared with the list. An empty list leaves nothing behind.
    ///
    /// # Errors
    ///
    /// `AllocError` where there is no memory. The input is then as before.
    #[tactic(auto, using(crate::proofs::Sources::sound_plain))]
    pub fn push_tokens(&mut self, list: &Tokens) -> Result<(), AllocError>
        ensures ok { OnOk result (self.new ≡ record self.old { sources = map Plain list.now ++ self.old.sources }) }
        ensures err { OnErr result (self.new ≡ self.old) }
    {
        if list.as_slice().is_empty() {
            return Ok(());
        }
        let part = Part::new(list)?;
        self.push(Frame::List(part))
    }

    /// Puts the body of a macro in front, with each place of a parameter replaced by the argument of its number (The
    /// TeXbook, chapter 20). The tokens are shared with the body and the arguments.
    ///
    /// # Errors
    ///
    /// `AllocError` where there is no memory. The input is then as before.
    pub fn push_macro(&mut self, body: &Tokens, args: &Args) -> Result<(), AllocError>
        ensures ok { OnOk result (self.new ≡ record self.old { sources = map Plain (put_code args.now body.now) ++ self.old.sources }) }
        ensures err { OnErr result (self.new ≡ self.old) }
    {
        let args = args.as_slice().to_vec(self.alloc)?;
        self.push_body(body, args)
    }

    /// Puts the body of a macro in front, as `push_macro` does, with arguments that are given away.
    ///
    /// # Errors
    ///
    /// `AllocError` where there is no memory. The input is then as before.
    #[tactic(auto, using(crate::proofs::Sources::sound_plain))]
    pub fn push_body(&mut self, body: &Tokens, args: Vec<Tokens>) -> Result<(), AllocError>
        ensures ok { OnOk result (self.new ≡ record self.old { sources = map Plain (put_code args.items body.now) ++ self.old.sources }) }
        ensures err { OnErr result (self.new ≡ self.old) }
    {
        let expansion = Expansion::new(body, args)?;
        self.push(Frame::Macro(expansion))
    }

    /// Puts an open file in front, of which nothing was read.
    ///
    /// # Errors
    ///
    /// `AllocError` where there is no memory. The input is then as before, and does not hold the file.
    pub fn push_file(&mut self, id: u32, name: &Bytes) -> Result<(), AllocError>
        ensures ok { OnOk result (self.new ≡ record self.old { sources = File (fresh_file id name.now) ∷ self.old.sources }) }
        ensures err { OnErr result (self.new ≡ self.old) }
    {
        let file = OpenFile::new(self.alloc, id, name)?;
        self.push(Frame::File(file))
    }

    /// Puts a token back in front, which is perhaps kept from being expanded.
    ///
    /// # Errors
    ///
    /// `AllocError` where there is no memory. The input is then as before.
    pub fn back(&mut self, token: Token, frozen: bool) -> Result<(), AllocError>
        ensures ok { OnOk result (self.new ≡ record self.old { sources = back_source token frozen ∷ self.old.sources }) }
        ensures err { OnErr result (self.new ≡ self.old) }
    {
        if frozen {
            self.push(Frame::Frozen(token))
        } else {
            self.push(Frame::Token(token))
        }
    }

    /// Sets aside all that is left.
    ///
    /// # Errors
    ///
    /// `AllocError` where there is no memory. The input is then as before.
    pub fn fence(&mut self) -> Result<(), AllocError>
        ensures ok { OnOk result (self.new ≡ record self.old { sources = Fence ∷ self.old.sources }) }
        ensures err { OnErr result (self.new ≡ self.old) }
    {
        self.push(Frame::Fence)
    }

    /// Takes away the fence, before which nothing is left, so that what was set aside last is read again. Where no fence stands nothing
    /// changes.
    pub fn unfence(&mut self)
        requires at { IsAtFence self.old.sources }
        ensures { self.new ≡ record self.old { sources = unfenced self.old.sources } }
    {
        drop_fence(&mut self.frames);
    }

    /// Ends the first file after its line last loaded: no further line of it is loaded. It may be set aside. Where no file is
    /// left nothing changes.
    #[tactic(auto, using(crate::proofs::Standing::rests_ended))]
    pub fn end_file(&mut self)
        ensures ends { self.new ≡ record self.old { sources = end_first self.old.sources } }
        ensures rests { (shelf : Shelf) → rest_of shelf self.new.sources ∷ aside_of shelf self.new.sources ≡ end_rests (rest_of shelf self.old.sources ∷ aside_of shelf self.old.sources) }
    {
        end_file_of(&mut self.frames);
    }

    /// Empties what is left, and all that is set aside, and closes the files. The fences stand.
    pub fn end_input<F: Files>(&mut self, files: &mut F)
        requires { AreHeld (F.shelf files.old).ids (ids_of self.old.sources) }
        ensures empty { self.new ≡ record self.old { sources = replicate (fences_of self.old.sources) Fence } }
        ensures holds { Holds (F.shelf files.old) (F.shelf files.new) self.old.sources [] }
        ensures total { (F.shelf files.new).total ≡ (F.shelf files.old).total }
        ensures faults { F.faults files.new ≡ F.faults files.old }
    {
        empty(&mut self.frames, files);
    }

    /// Closes the files. Nothing is left, and no fence stands.
    pub fn close_all<F: Files>(&mut self, files: &mut F)
        requires { AreHeld (F.shelf files.old).ids (ids_of self.old.sources) }
        ensures empty { self.new ≡ record self.old { sources = [] } }
        ensures holds { Holds (F.shelf files.old) (F.shelf files.new) self.old.sources [] }
        ensures total { (F.shelf files.new).total ≡ (F.shelf files.old).total }
        ensures faults { F.faults files.new ≡ F.faults files.old }
    {
        close(&mut self.frames, files);
    }

    /// How many files are open, those that are set aside among them.
    pub fn files_open(&self) -> usize
        ensures { result ≡ length (ids_of self.now.sources) }
    {
        count_files(&self.frames)
    }

    /// The name of the file whose line was loaded last, and the number of that line; the empty name and 0 before the first.
    pub fn place(&self) -> (&[u8], u64)
        ensures file { result.0.now ≡ self.now.place.file }
        ensures line { result.1 ≡ self.now.place.line }
    {
        self.place.get()
    }

    // Puts a frame in front.
    fn push(&mut self, frame: Frame) -> Result<(), AllocError>
        requires { AreSound (written frame) }
        ensures ok { OnOk result (self.new ≡ record self.old { sources = written frame ++ self.old.sources }) }
        ensures err { OnErr result (self.new ≡ self.old) }
    {
        self.frames.push(frame)?;
        Ok(())
    }
}
