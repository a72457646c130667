//! Reading unexpanded: arguments, groups and signs.

ghost use Rattle.std.specs.Prelude.{◌≡◌, ◌≤◌, ◌+◌, length, map, [], None, Some, IfSome, IfOk, OnOk, option_map, option_to_list, unwrap_or, false, slice_index_or};
ghost use Rattle.std.specs.List.{All};
ghost use Rattle.texml_token.specs.Numbers.{Table, token_at, tokens_at, TokenWithin, TokensWithin, OptionWithin};
ghost use Rattle.texml_scope.specs.Numbers.{meaning_at, MacroWithin};
ghost use Rattle.texml_match.specs.Shape.{ShapeWithin, shape_at, is_empty};
ghost use Rattle.texml_match.specs.Arguments.{reading, argument as spec_argument};
ghost use Rattle.texml_expand.specs.declared.feeding.Verdict.TheVariants.{TooShort};
ghost use Rattle.texml_expand.specs.Feeding.{FeedsTold, FedSpends, FedBy};
ghost use Rattle.texml_expand.specs.Least.{inner_token as spec_inner_token};
ghost use Rattle.texml_expand.specs.Absorb.{absorb as spec_absorb, absorb_expanded as spec_absorb_expanded};
ghost use Rattle.texml_expand.specs.Least.{by_least};
ghost use Rattle.texml_expand.specs.Braces.{absorbed};
ghost use Rattle.texml_expand.specs.Hearing.{hears, hears_part, FollowsTold};
ghost use Rattle.texml_expand.specs.Arguments.{fault_number, read_by, is_sign as spec_is_sign, sign_or_back as spec_sign_or_back, sign as spec_sign, optional as spec_optional};
ghost use Rattle.texml_expand.specs.Arguments.{means_space as spec_means_space, is_space as spec_is_space, behind_spaces as spec_behind_spaces, first_argument as spec_first_argument};
ghost use Rattle.texml_expand.specs.Arguments.{macro_arguments as spec_macro_arguments, called as spec_called, read_argument as spec_read_argument, read_optional as spec_read_optional};
ghost use Rattle.texml_expand.specs.Expand.{level};
ghost use Rattle.texml_expand.specs.Expansion.{puts};
ghost use Rattle.texml_expand.specs.Fronts.{macro_at, gift_at, GiftWithin};
ghost use Rattle.texml_expand.specs.Matched.{MatchedBy};
ghost use Rattle.texml_expand.specs.Held.{state_of, world_in, Sound, Kept, Progress, IsAtLimit, ok_at, read_at, ReadWithin, Owns, Holding, SameFiles, Shrinks, Puts};
ghost use Rattle.texml_expand.specs.Spending.{Spends, SpendsBy};
ghost use Rattle.texml_expand.specs.Contract.{Local, Reads, AnswersKept, Stops, outside, files_at, stop_after};
ghost use Rattle.texml_expand.specs.Doing.{Does, Gets, Runs};

use super::Engine;
use super::expanding::Gift;
use crate::call::joined;
use crate::feeding::{Feeder, Verdict};
use crate::gathering::Gathering;
use crate::group::Group;
use crate::stop::Stop;
use std::alloc::AllocError;
use texml_base::Files;
use texml_input::Read;
use texml_match::{ArgMatch, Args, Fed, MatchFault, Shape};
use texml_scope::{Macro, Meaning};
use texml_token::{Token, Tokens, category, fault_code};
use texml_watch::Teller;

// The codes of the brackets around an optional argument.
const OPEN_BRACKET: u32 = 91;

const CLOSE_BRACKET: u32 = 93;

impl Engine {
    /// Takes the tokens behind a brace that begins a group, up to the brace that ends it, and answers those before that: as they
    /// stand, or expanded. Where they are expanded, what `\the` gives of a list of tokens is taken as it is, with each parameter
    /// character twice, and each completed expansion is told to `tell`, where that wants records (The TeXbook, chapter 20).
    ///
    /// # Errors
    ///
    /// `Tex` with fault 4 where a text ends inside the group, with fault 15 where an invalid character stands in it, and with fault 20
    /// where a line is not UTF-8; where tokens are expanded, the faults of `fetch`, and `Limit` where one expansion too many would begin.
    /// `ReadFailed` and `TellFailed` only where the count of faults of `files` or `tell` rose in this call, `NoMemory` where memory was
    /// refused; the records told until then are the first of those that would be told. And the stop that is kept.
    pub fn absorb<F: Files, T: Teller>(
        &mut self,
        files: &mut F,
        tell: &mut T,
        expanding: bool,
    ) -> Result<Tokens, Stop>
        requires sound { self.old.stop ≡ None → Sound self.old }
        requires owns { Owns (F.shelf files.old) self.old }
        ensures follows { self.old.stop ≡ None → FollowsTold (hears T.wanting T.heard) (hears_part T.wanting T.part) (F.shelf files.old) (λ n. spec_absorb expanding n (state_of (F.shelf files.old) self.old))
            (ok_at (tokens_at self.new.names) result) (state_of (F.shelf files.new) self.new) tell.old tell.new }
        ensures spends { self.old.stop ≡ None → SpendsBy (λ n. spec_absorb expanding n (state_of (F.shelf files.old) self.old)) (ok_at (tokens_at self.new.names) result) (F.shelf files.old) (F.shelf files.new) self.old self.new }
        ensures stops { self.old.stop ≡ None → Stops result (outside (F.shelf files.old) (F.faults files.old) (T.faults tell.old) (T.loan tell.old)) (outside (F.shelf files.new) (F.faults files.new) (T.faults tell.new) (T.loan tell.new)) self.new.stop }
        ensures lower { self.old.stop ≡ None → IfOk result (λ list. Shrinks (length list + 1) (F.shelf files.old) self.old (F.shelf files.new) self.new) }
        ensures progress { Progress self.old self.new }
        ensures limit { self.old.stop ≡ None → IsAtLimit result self.new }
        ensures keeps { self.old.stop ≡ None → OnOk result (Kept self.old self.new) }
        ensures within { self.old.stop ≡ None → IfOk result (TokensWithin (length self.new.names)) }
        ensures stays { IfSome self.old.stop (λ stop. AnswersKept stop result × (self.new ≡ self.old) × (files.new ≡ files.old) × (tell.new ≡ tell.old)) }
        ensures holds { Holding (F.shelf files.old) (F.shelf files.new) self.old self.new }
    {
        self.running()?;
        if expanding {
            self.absorb_expanded(files, tell)
        } else {
            self.absorb_group(files)
        }
    }

    /// Takes an argument, unexpanded: a token, or the tokens of a group in braces, without these; space tokens before it go.
    /// `\par` may stand in it. It tells nobody (The TeXbook, chapter 20).
    ///
    /// # Errors
    ///
    /// `Tex` with fault 2 at a brace that ends a group which hasn't begun, with fault 4 where a text ends before the argument
    /// does, and with fault 15 where an invalid character stands there. `NoMemory` where memory was refused, and the stop that
    /// is kept.
    pub fn read_argument<F: Files, T: Teller>(
        &mut self,
        files: &mut F,
        tell: &mut T,
    ) -> Result<Tokens, Stop>
        requires sound { self.old.stop ≡ None → Sound self.old }
        requires owns { Owns (F.shelf files.old) self.old }
        ensures reads { self.old.stop ≡ None → Reads (F.shelf files.old) (spec_read_argument (state_of (F.shelf files.old) self.old)) (ok_at (tokens_at self.new.names) result) (state_of (F.shelf files.new) self.new) }
        ensures spends { self.old.stop ≡ None → Spends (spec_read_argument (state_of (F.shelf files.old) self.old)) (ok_at (tokens_at self.new.names) result) (F.shelf files.old) (F.shelf files.new) self.old self.new }
        ensures stops { self.old.stop ≡ None → Stops result (outside (F.shelf files.old) (F.faults files.old) (T.faults tell.old) (T.loan tell.old)) (outside (F.shelf files.new) (F.faults files.new) (T.faults tell.new) (T.loan tell.new)) self.new.stop }
        ensures lower { self.old.stop ≡ None → IfOk result (λ list. Shrinks (length list) (F.shelf files.old) self.old (F.shelf files.new) self.new) }
        ensures progress { Progress self.old self.new }
        ensures limit { self.old.stop ≡ None → IsAtLimit result self.new }
        ensures keeps { self.old.stop ≡ None → OnOk result (Kept self.old self.new) }
        ensures within { self.old.stop ≡ None → IfOk result (TokensWithin (length self.new.names)) }
        ensures stays { IfSome self.old.stop (λ stop. AnswersKept stop result × (self.new ≡ self.old) × (files.new ≡ files.old)) }
        ensures holds { Holding (F.shelf files.old) (F.shelf files.new) self.old self.new }
        ensures tell { tell.new ≡ tell.old }
    {
        self.running()?;
        let delimiter = Tokens::new(self.alloc);
        self.argument(files, true, delimiter)
    }

    /// Takes the spaces that come next, and where the character `[` of category 12 comes behind them, this and the argument up to a
    /// `]` outside groups, which goes too; all that unexpanded. `\par` may stand in the argument, which loses its braces where
    /// it is one group. Where no such `[` comes, it answers `None`, and the token that comes stays, and may be expanded from then on. A text that
    /// ends before the `[` is passed over. It tells nobody (The TeXbook, chapter 20).
    ///
    /// # Errors
    ///
    /// `Tex` with fault 2 at a brace in the argument that ends a group which hasn't begun, with fault 4 where a text ends before the
    /// argument does, and with fault 15 where an invalid character stands there. `NoMemory` where memory was refused, and the
    /// stop that is kept.
    pub fn read_optional<F: Files, T: Teller>(
        &mut self,
        files: &mut F,
        tell: &mut T,
    ) -> Result<Option<Tokens>, Stop>
        requires sound { self.old.stop ≡ None → Sound self.old }
        requires owns { Owns (F.shelf files.old) self.old }
        ensures reads { self.old.stop ≡ None → Reads (F.shelf files.old) (spec_read_optional (state_of (F.shelf files.old) self.old)) (ok_at (option_map (tokens_at self.new.names)) result) (state_of (F.shelf files.new) self.new) }
        ensures spends { self.old.stop ≡ None → Spends (spec_read_optional (state_of (F.shelf files.old) self.old)) (ok_at (option_map (tokens_at self.new.names)) result) (F.shelf files.old) (F.shelf files.new) self.old self.new }
        ensures stops { self.old.stop ≡ None → Stops result (outside (F.shelf files.old) (F.faults files.old) (T.faults tell.old) (T.loan tell.old)) (outside (F.shelf files.new) (F.faults files.new) (T.faults tell.new) (T.loan tell.new)) self.new.stop }
        ensures lower { self.old.stop ≡ None → IfOk result (λ o. Shrinks (length (unwrap_or o [])) (F.shelf files.old) self.old (F.shelf files.new) self.new) }
        ensures progress { Progress self.old self.new }
        ensures limit { self.old.stop ≡ None → IsAtLimit result self.new }
        ensures keeps { self.old.stop ≡ None → OnOk result (Kept self.old self.new) }
        ensures within { self.old.stop ≡ None → IfOk result (OptionWithin (TokensWithin (length self.new.names))) }
        ensures stays { IfSome self.old.stop (λ stop. AnswersKept stop result × (self.new ≡ self.old) × (files.new ≡ files.old)) }
        ensures holds { Holding (F.shelf files.old) (F.shelf files.new) self.old self.new }
        ensures tell { tell.new ≡ tell.old }
    {
        self.running()?;
        self.optional(files, true)
    }

    /// Feeds the next tokens, unexpanded, until they decide, and answers what they yield. It tells nobody.
    ///
    /// # Errors
    ///
    /// `Tex` with the fault that the tokens decide on, with fault 4 where a text ends before they decide, and with fault 15
    /// where an invalid character stands among them. `NoMemory` where memory was refused, and the stop that is kept.
    pub fn read_by<F: Files, T: Teller, V, D: Feeder<V>>(
        &mut self,
        files: &mut F,
        tell: &mut T,
        feeder: &mut D,
    ) -> Result<V, Stop>
        requires sound { self.old.stop ≡ None → Sound self.old }
        requires owns { Owns (F.shelf files.old) self.old }
        requires short { self.old.stop ≡ None → (texts : Table) → D.judge feeder.old texts [] ≡ TooShort }
        ensures feeds { self.old.stop ≡ None → FeedsTold (D.judge feeder.old) (state_of (F.shelf files.old) self.old) (F.shelf files.old) result self.new.names (state_of (F.shelf files.new) self.new) }
        ensures spends { self.old.stop ≡ None → FedSpends (D.judge feeder.old) (state_of (F.shelf files.old) self.old) result (F.shelf files.old) (F.shelf files.new) self.old self.new }
        ensures lower { self.old.stop ≡ None → IfOk result (λ v. FedBy (D.judge feeder.old) v (F.shelf files.old) self.old (F.shelf files.new) self.new) }
        ensures stops { self.old.stop ≡ None → Stops result (outside (F.shelf files.old) (F.faults files.old) (T.faults tell.old) (T.loan tell.old)) (outside (F.shelf files.new) (F.faults files.new) (T.faults tell.new) (T.loan tell.new)) self.new.stop }
        ensures progress { Progress self.old self.new }
        ensures limit { self.old.stop ≡ None → IsAtLimit result self.new }
        ensures keeps { self.old.stop ≡ None → OnOk result (Kept self.old self.new) }
        ensures stays { IfSome self.old.stop (λ stop. AnswersKept stop result × (self.new ≡ self.old) × (files.new ≡ files.old)) }
        ensures holds { Holding (F.shelf files.old) (F.shelf files.new) self.old self.new }
        ensures tell { tell.new ≡ tell.old }
    {
        self.running()?;
        self.feed(files, feeder)
    }

    /// Takes the spaces that come next, and where this character of category 12 comes behind them, this too, and answers whether
    /// it came; all that unexpanded. Another token that comes stays, and may be expanded from then on, and a text that ends before it is passed over. It
    /// tells nobody.
    ///
    /// # Errors
    ///
    /// `Tex` with fault 15 where an invalid character stands there. `NoMemory` where memory was refused, and the stop that is
    /// kept.
    pub fn read_sign<F: Files, T: Teller>(
        &mut self,
        files: &mut F,
        tell: &mut T,
        code: u32,
    ) -> Result<bool, Stop>
        requires sound { self.old.stop ≡ None → Sound self.old }
        requires owns { Owns (F.shelf files.old) self.old }
        ensures reads { self.old.stop ≡ None → Reads (F.shelf files.old) (spec_sign code (state_of (F.shelf files.old) self.old)) result (state_of (F.shelf files.new) self.new) }
        ensures spends { self.old.stop ≡ None → Spends (spec_sign code (state_of (F.shelf files.old) self.old)) result (F.shelf files.old) (F.shelf files.new) self.old self.new }
        ensures lower { self.old.stop ≡ None → OnOk result (Shrinks 0 (F.shelf files.old) self.old (F.shelf files.new) self.new) }
        ensures stops { self.old.stop ≡ None → Stops result (outside (F.shelf files.old) (F.faults files.old) (T.faults tell.old) (T.loan tell.old)) (outside (F.shelf files.new) (F.faults files.new) (T.faults tell.new) (T.loan tell.new)) self.new.stop }
        ensures progress { Progress self.old self.new }
        ensures limit { self.old.stop ≡ None → IsAtLimit result self.new }
        ensures keeps { self.old.stop ≡ None → OnOk result (Kept self.old self.new) }
        ensures stays { IfSome self.old.stop (λ stop. AnswersKept stop result × (self.new ≡ self.old) × (files.new ≡ files.old)) }
        ensures holds { Holding (F.shelf files.old) (F.shelf files.new) self.old self.new }
        ensures tell { tell.new ≡ tell.old }
    {
        self.running()?;
        self.sign(files, code)
    }

    // What the call of a macro gives: its body, with the arguments that are read in their places.
    pub(super) fn called<F: Files>(&mut self, files: &mut F, found: Macro) -> Result<Gift, Stop>
        requires running { self.old.stop ≡ None }
        requires sound { Sound self.old }
        requires owns { Owns (F.shelf files.old) self.old }
        requires found { MacroWithin (length self.old.names) found }
        ensures gets { Gets (puts (spec_called (macro_at self.old.names found))) (ok_at (gift_at self.new.names) result) self.old self.new (files_at (F.shelf files.old) (F.faults files.old)) (files_at (F.shelf files.new) (F.faults files.new)) }
        ensures lower { OnOk result (Shrinks 0 (F.shelf files.old) self.old (F.shelf files.new) self.new) }
        ensures within { IfOk result (GiftWithin (length self.new.names)) }
    {
        if found.params.pieces.as_slice().is_empty() {
            return Ok(Gift::Puts(found.body));
        }
        let args = self.macro_arguments(files, &found)?;
        Ok(Gift::Fills(found.body, args))
    }

    // The arguments that stand behind the call of a macro.
    fn macro_arguments<F: Files>(
        &mut self,
        files: &mut F,
        found: &Macro,
    ) -> Result<Vec<Tokens>, Stop>
        requires running { self.old.stop ≡ None }
        requires sound { Sound self.old }
        requires owns { Owns (F.shelf files.old) self.old }
        requires found { MacroWithin (length self.old.names) found.now }
        ensures gets { Gets (spec_macro_arguments (macro_at self.old.names found.now)) (ok_at (λ args. map (tokens_at self.new.names) args.items) result) self.old self.new (files_at (F.shelf files.old) (F.faults files.old)) (files_at (F.shelf files.new) (F.faults files.new)) }
        ensures lower { OnOk result (Shrinks 0 (F.shelf files.old) self.old (F.shelf files.new) self.new) }
        ensures within { IfOk result (λ args. All (TokensWithin (length self.new.names)) args.items) }
    {
        let first = self.first_argument(files, found.long, &found.params.default)?;
        let shape = match Shape::new(self.alloc, &found.params, found.long) {
            Ok(shape) => shape,
            Err(_) => return Err(self.no_memory()),
        };
        let others = self.arguments(files, &shape)?;
        match joined(self.alloc, first, &others) {
            Ok(args) => Ok(args),
            Err(_) => Err(self.no_memory()),
        }
    }

    // The first argument of a macro where it has a default, which is that in brackets or else the default.
    fn first_argument<F: Files>(
        &mut self,
        files: &mut F,
        long: bool,
        default: &Option<Tokens>,
    ) -> Result<Option<Tokens>, Stop>
        requires running { self.old.stop ≡ None }
        requires sound { Sound self.old }
        requires owns { Owns (F.shelf files.old) self.old }
        requires default { OptionWithin (TokensWithin (length self.old.names)) default.now }
        ensures gets { Gets (spec_first_argument long (option_map (tokens_at self.old.names) default.now)) (ok_at (λ o. map (tokens_at self.new.names) (option_to_list o)) result) self.old self.new (files_at (F.shelf files.old) (F.faults files.old)) (files_at (F.shelf files.new) (F.faults files.new)) }
        ensures lower { OnOk result (Shrinks 0 (F.shelf files.old) self.old (F.shelf files.new) self.new) }
        ensures within { IfOk result (OptionWithin (TokensWithin (length self.new.names))) }
    {
        let Some(default) = default else {
            return Ok(None);
        };
        if let Some(list) = self.optional(files, long)? {
            return Ok(Some(list));
        }
        match default.clone() {
            Ok(list) => Ok(Some(list)),
            Err(_) => Err(self.no_memory()),
        }
    }

    // The arguments that a shape asks for.
    fn arguments<F: Files>(&mut self, files: &mut F, shape: &Shape) -> Result<Args, Stop>
        requires running { self.old.stop ≡ None }
        requires sound { Sound self.old }
        requires owns { Owns (F.shelf files.old) self.old }
        requires shape { ShapeWithin (length self.old.names) shape.now }
        ensures gets { Gets (read_by (reading (shape_at self.old.names shape.now))) (ok_at (map (tokens_at self.new.names)) result) self.old self.new (files_at (F.shelf files.old) (F.faults files.old)) (files_at (F.shelf files.new) (F.faults files.new)) }
        ensures lower { OnOk result (Shrinks 0 (F.shelf files.old) self.old (F.shelf files.new) self.new) }
        ensures within { IfOk result (All (TokensWithin (length self.new.names))) }
    {
        if shape.is_empty() {
            return Ok(Args::new(self.alloc));
        }
        self.match_shape(files, shape)
    }

    // The arguments that a shape asks for, where it asks for something.
    fn match_shape<F: Files>(&mut self, files: &mut F, shape: &Shape) -> Result<Args, Stop>
        requires running { self.old.stop ≡ None }
        requires sound { Sound self.old }
        requires owns { Owns (F.shelf files.old) self.old }
        requires shape { ShapeWithin (length self.old.names) shape.now }
        requires some { is_empty shape.now ≡ false }
        ensures gets { Gets (read_by (reading (shape_at self.old.names shape.now))) (ok_at (map (tokens_at self.new.names)) result) self.old self.new (files_at (F.shelf files.old) (F.faults files.old)) (files_at (F.shelf files.new) (F.faults files.new)) }
        ensures lower { IfOk result (λ args. MatchedBy shape.now args (F.shelf files.old) self.old (F.shelf files.new) self.new) }
        ensures within { IfOk result (All (TokensWithin (length self.new.names))) }
    {
        let mut matcher = ArgMatch::new(self.alloc);
        'tokens: loop {
            let token = self.inner_token(files)?;
            match matcher.feed(shape, token, &self.names) {
                Fed::More => {}
                Fed::All(args) => return Ok(args),
                Fed::Fault(fault) => return Err(self.bare_fault(number_of(fault))),
                Fed::NoMemory => return Err(self.no_memory()),
            }
        }
    }

    // One argument with these tokens behind it.
    pub(super) fn argument<F: Files>(
        &mut self,
        files: &mut F,
        long: bool,
        delimiter: Tokens,
    ) -> Result<Tokens, Stop>
        requires running { self.old.stop ≡ None }
        requires sound { Sound self.old }
        requires owns { Owns (F.shelf files.old) self.old }
        requires delimiter { TokensWithin (length self.old.names) delimiter }
        ensures gets { Gets (read_by (spec_argument long (tokens_at self.old.names delimiter))) (ok_at (tokens_at self.new.names) result) self.old self.new (files_at (F.shelf files.old) (F.faults files.old)) (files_at (F.shelf files.new) (F.faults files.new)) }
        ensures lower { IfOk result (λ list. Shrinks (length list) (F.shelf files.old) self.old (F.shelf files.new) self.new) }
        ensures within { IfOk result (TokensWithin (length self.new.names)) }
    {
        let shape = match Shape::of_one(self.alloc, delimiter, long) {
            Ok(shape) => shape,
            Err(_) => return Err(self.no_memory()),
        };
        let args = self.match_shape(files, &shape)?;
        match first_of(&args) {
            Ok(list) => Ok(list),
            Err(_) => Err(self.no_memory()),
        }
    }

    // The argument in brackets behind spaces, where there is one.
    fn optional<F: Files>(&mut self, files: &mut F, long: bool) -> Result<Option<Tokens>, Stop>
        requires running { self.old.stop ≡ None }
        requires sound { Sound self.old }
        requires owns { Owns (F.shelf files.old) self.old }
        ensures gets { Gets (spec_optional long) (ok_at (option_map (tokens_at self.new.names)) result) self.old self.new (files_at (F.shelf files.old) (F.faults files.old)) (files_at (F.shelf files.new) (F.faults files.new)) }
        ensures lower { IfOk result (λ o. Shrinks (length (unwrap_or o [])) (F.shelf files.old) self.old (F.shelf files.new) self.new) }
        ensures within { IfOk result (OptionWithin (TokensWithin (length self.new.names))) }
    {
        if !self.sign(files, OPEN_BRACKET)? {
            return Ok(None);
        }
        let delimiter = match Tokens::from_slice(
            self.alloc,
            &[Token::Char(CLOSE_BRACKET, category::OTHER)],
        ) {
            Ok(delimiter) => delimiter,
            Err(_) => return Err(self.no_memory()),
        };
        let argument = self.argument(files, long, delimiter)?;
        Ok(Some(argument))
    }

    // Whether a sign comes behind spaces, which is taken with them; else the spaces alone are.
    fn sign<F: Files>(&mut self, files: &mut F, code: u32) -> Result<bool, Stop>
        requires running { self.old.stop ≡ None }
        requires sound { Sound self.old }
        requires owns { Owns (F.shelf files.old) self.old }
        ensures gets { Gets (spec_sign code) result self.old self.new (files_at (F.shelf files.old) (F.faults files.old)) (files_at (F.shelf files.new) (F.faults files.new)) }
        ensures lower { OnOk result (Shrinks 0 (F.shelf files.old) self.old (F.shelf files.new) self.new) }
    {
        match self.behind_spaces(files)? {
            None => Ok(false),
            Some(read) => self.sign_or_back(code, read),
        }
    }

    // Whether a token that was taken is a sign; another token goes back, and may be expanded from then on.
    fn sign_or_back(&mut self, code: u32, read: Read) -> Result<bool, Stop>
        requires running { self.old.stop ≡ None }
        requires sound { Sound self.old }
        requires token { TokenWithin (length self.old.names) read.token }
        ensures reads { Local (spec_sign_or_back code (Some (read_at self.old.names read))) result self.old self.new }
        ensures lower { OnOk result (Puts 1 self.old self.new) }
        ensures kept { self.new.stop ≡ stop_after result }
        ensures progress { Progress self.old self.new }
        ensures limit { IsAtLimit result self.new }
        ensures files { SameFiles self.old self.new }
        ensures keeps { OnOk result (Kept self.old self.new) }
    {
        if is_sign(code, read.token) {
            return Ok(true);
        }
        match self.input.back(read.token, false) {
            Ok(()) => Ok(false),
            Err(_) => Err(self.no_memory()),
        }
    }

    // The first token behind spaces, which are taken.
    pub(super) fn behind_spaces<F: Files>(&mut self, files: &mut F) -> Result<Option<Read>, Stop>
        requires running { self.old.stop ≡ None }
        requires sound { Sound self.old }
        requires owns { Owns (F.shelf files.old) self.old }
        ensures gets { Gets spec_behind_spaces (ok_at (option_map (read_at self.new.names)) result) self.old self.new (files_at (F.shelf files.old) (F.faults files.old)) (files_at (F.shelf files.new) (F.faults files.new)) }
        ensures lower { IfOk result (λ o. Shrinks (length (option_to_list o)) (F.shelf files.old) self.old (F.shelf files.new) self.new) }
        ensures within { IfOk result (OptionWithin (ReadWithin (length self.new.names))) }
    {
        'spaces: loop {
            let Some(read) = self.take_front(files)? else {
                return Ok(None);
            };
            match self.is_space(read.token) {
                Ok(true) => {}
                Ok(false) => return Ok(Some(read)),
                Err(_) => return Err(self.no_memory()),
            }
        }
    }

    // Whether a token is a space, or means one.
    pub(super) fn is_space(&self, token: Token) -> Result<bool, AllocError>
        requires sound { Sound self.now }
        requires token { TokenWithin (length self.now.names) token }
        ensures { IfOk result (λ space. space ≡ spec_is_space (world_in self.now) (token_at self.now.names token)) }
    {
        let meaning = self.means(token)?;
        Ok(means_space(&meaning))
    }

    // The next token inside a text, unexpanded: there must be one, and no text may have ended before it.
    pub(super) fn inner_token<F: Files>(&mut self, files: &mut F) -> Result<Token, Stop>
        requires running { self.old.stop ≡ None }
        requires sound { Sound self.old }
        requires owns { Owns (F.shelf files.old) self.old }
        ensures gets { Gets spec_inner_token (ok_at (token_at self.new.names) result) self.old self.new (files_at (F.shelf files.old) (F.faults files.old)) (files_at (F.shelf files.new) (F.faults files.new)) }
        ensures lower { OnOk result (Shrinks 1 (F.shelf files.old) self.old (F.shelf files.new) self.new) }
        ensures begun { self.new.begun ≡ self.old.begun }
        ensures within { IfOk result (TokenWithin (length self.new.names)) }
    {
        match self.take_front(files)? {
            Some(read) if !read.crossed => Ok(read.token),
            Some(_) => Err(self.bare_fault(fault_code::FILE_ENDED)),
            None => Err(self.bare_fault(fault_code::FILE_ENDED)),
        }
    }

    // Feeds the next tokens, unexpanded, until they decide.
    fn feed<F: Files, V, D: Feeder<V>>(&mut self, files: &mut F, feeder: &mut D) -> Result<V, Stop>
        requires running { self.old.stop ≡ None }
        requires sound { Sound self.old }
        requires owns { Owns (F.shelf files.old) self.old }
        requires short { (texts : Table) → D.judge feeder.old texts [] ≡ TooShort }
        ensures feeds { FeedsTold (D.judge feeder.old) (state_of (F.shelf files.old) self.old) (F.shelf files.old) result self.new.names (state_of (F.shelf files.new) self.new) }
        ensures spends { FedSpends (D.judge feeder.old) (state_of (F.shelf files.old) self.old) result (F.shelf files.old) (F.shelf files.new) self.old self.new }
        ensures runs { Runs result self.old self.new (files_at (F.shelf files.old) (F.faults files.old)) (files_at (F.shelf files.new) (F.faults files.new)) }
        ensures lower { IfOk result (λ v. FedBy (D.judge feeder.old) v (F.shelf files.old) self.old (F.shelf files.new) self.new) }
    {
        'tokens: loop {
            let token = self.inner_token(files)?;
            match feeder.feed(token, &self.names) {
                Ok(Verdict::TooShort) => {}
                Ok(Verdict::Yields(value)) => return Ok(value),
                Ok(Verdict::Refuses(code)) => return Err(self.bare_fault(code)),
                Err(_) => return Err(self.no_memory()),
            }
        }
    }

    // The tokens up to the brace that ends the group which has begun, expanded. No file may end on the way.
    fn absorb_expanded<F: Files, T: Teller>(
        &mut self,
        files: &mut F,
        tell: &mut T,
    ) -> Result<Tokens, Stop>
        requires running { self.old.stop ≡ None }
        requires sound { Sound self.old }
        requires owns { Owns (F.shelf files.old) self.old }
        ensures does { Does (hears T.wanting T.heard) (hears_part T.wanting T.part)
            (λ n. spec_absorb_expanded (level n)) (ok_at (tokens_at self.new.names) result) self.old self.new (outside (F.shelf files.old) (F.faults files.old) (T.faults tell.old) (T.loan tell.old)) (outside (F.shelf files.new) (F.faults files.new) (T.faults tell.new) (T.loan tell.new)) tell.old tell.new }
        ensures lower { IfOk result (λ list. Shrinks (length list + 1) (F.shelf files.old) self.old (F.shelf files.new) self.new) }
        ensures within { IfOk result (TokensWithin (length self.new.names)) }
    {
        self.absorbing = true;
        let list = self.gather(files, tell, Gathering::Group, 0)?;
        self.absorbing = false;
        Ok(list)
    }

    // The tokens up to the brace that ends the group which has begun.
    fn absorb_group<F: Files>(&mut self, files: &mut F) -> Result<Tokens, Stop>
        requires running { self.old.stop ≡ None }
        requires sound { Sound self.old }
        requires owns { Owns (F.shelf files.old) self.old }
        ensures gets { Gets (by_least absorbed) (ok_at (tokens_at self.new.names) result) self.old self.new (files_at (F.shelf files.old) (F.faults files.old)) (files_at (F.shelf files.new) (F.faults files.new)) }
        ensures lower { IfOk result (λ list. Shrinks (length list + 1) (F.shelf files.old) self.old (F.shelf files.new) self.new) }
        ensures within { IfOk result (TokensWithin (length self.new.names)) }
    {
        let mut group = Group::new(self.alloc);
        self.feed(files, &mut group)
    }
}

/// Whether a meaning is that of a space.
pub fn means_space(meaning: &Meaning) -> bool
    ensures { (texts : Table) → result ≡ spec_means_space (meaning_at texts meaning.now) }
{
    match meaning {
        Meaning::Char(_, found) => *found == category::SPACE,
        _ => false,
    }
}

// Whether a token is this character, of category 12.
pub(super) fn is_sign(code: u32, token: Token) -> bool
    ensures { (texts : Table) → result ≡ spec_is_sign code (token_at texts token) }
{
    match token {
        Token::Char(found, kind) => found == code && kind == category::OTHER,
        _ => false,
    }
}

// The fault that an argument meets.
fn number_of(fault: MatchFault) -> u8
    ensures { result ≡ fault_number fault }
{
    match fault {
        MatchFault::Mismatch => fault_code::MISMATCH,
        MatchFault::RunawayPar => fault_code::RUNAWAY_PAR,
        MatchFault::ExtraBrace => fault_code::EXTRA_BRACE,
    }
}

// The first argument.
fn first_of(args: &Args) -> Result<Tokens, AllocError>
    requires { 1 ≤ length args.now }
    ensures { IfOk result (λ list. list ≡ slice_index_or args.now 0 []) }
{
    args.as_slice()[0].clone()
}
