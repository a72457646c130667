//! The builder, which holds the open elements while operations come in.

ghost use Rattle.std.specs.Prelude.{◌≡◌, ◌+◌, ◌-◌, ◌<◌, ◌≤◌, true, get_or, length, [], IfOk, IfSome, OnOk};
ghost use Rattle.std.specs.Option.{option_map, ForSome};
ghost use Rattle.texml_tree.specs.Plain.{plain};
ghost use Rattle.texml_model.specs.Levels.{places_of};
ghost use Rattle.texml_model.specs.Rules.{IsContentModel, rules_of};
ghost use Rattle.texml_build.specs.Trim.{texts};
ghost use Rattle.texml_build.specs.Brackets.{fault_of, innermost, no_place, both, start as spec_start, start_all as spec_start_all, end_one as spec_end_one, end_many as spec_end_many, say as spec_say, fit as spec_fit, place as spec_place, enter as spec_enter, each, root_of, depth_of, close as spec_close, close_if as spec_close_if, space as spec_space, holder as spec_holder, holder_or, attr_by, attr as spec_attr, own_attr as spec_own_attr, owner_of, label as spec_label, refer as spec_refer, step as spec_step, end_all};
ghost use Rattle.texml_build.specs.Matched.{beginning, whole};
ghost use Rattle.texml_build.specs.Held.{held_of, empty, fresh, set_after, mark_after, Refuses, part_of, level_of, beginning_of, path_of, flushed, begun, ended, said, changed, extra_after, with_has, kids_after, Does};

use crate::fault::{BuildFault, refuse};
use crate::trim::{trim_first, trim_last};
use bumpalo::Bump;
use std::alloc::{AllocError, Global};
use std::mem;
use texml_model::Content;
use texml_token::Bytes;
use texml_tree::model_fault::{
    BAD_ATTRIBUTE, NO_PLACE, NO_TEXT, NOTHING_TO_CLOSE, TREE_DEPTH, UNCLOSED,
};
use texml_tree::{Attr, Elem, Given, Head, Node, Op, Sets, Tag, element, leaf};

/// So many elements may stand around another one.
const DEEPEST: usize = 199;

/// What most elements are given.
static NOTHING: Given<'static> = Given {
    target: None,
    attrs: &[],
    labels: &[],
};

/// An open element, with what it has so far.
#[derive(Drop)]
pub(crate) struct Open<'a> {
    elem: Elem,
    identified: bool,
    target: Option<&'a [u8]>,
    attrs: Vec<Attr<'a>>,
    labels: Vec<Tag<'a>>,
    kids: Vec<Node<'a>>,
}

/// What is put on an open element beside its children.
#[derive(Clone, Copy)]
pub(crate) enum Extra<'a> {
    Attribute(Attr<'a>),
    Label(Tag<'a>),
}

/// The text that is growing, the innermost open element, and those around it, the root in front.
#[derive(Drop)]
pub(crate) struct Builder<'a> {
    alloc: Global,
    arena: &'a Bump,
    text: Vec<u8>,
    inner: Open<'a>,
    outer: Vec<Open<'a>>,
}

impl<'a> Open<'a> {
    /// An element that has nothing yet.
    fn new(alloc: Global, elem: Elem, identified: bool, target: Option<&'a [u8]>) -> Open<'a>
        ensures { part_of result ≡ empty (record { elem = elem.0; identified = identified; target = option_map (λ t. t.now) target.entry }) }
    {
        Open {
            elem,
            identified,
            target,
            attrs: Vec::new(alloc),
            labels: Vec::new(alloc),
            kids: Vec::new(alloc),
        }
    }

    /// Puts an attribute or a label on the element.
    fn give(&mut self, extra: Extra<'a>) -> Result<(), AllocError>
        ensures { OnOk result (part_of self.new ≡ with_has (extra_after extra.entry) (part_of self.old)) }
    {
        match extra {
            Extra::Attribute(attr) => {
                self.attrs.push(attr)?;
            }
            Extra::Label(label) => {
                self.labels.push(label)?;
            }
        }
        Ok(())
    }
}

/// The element `document`.
fn root_elem(content: &Content) -> Elem
    ensures { result.0 ≡ root_of (rules_of content.now) }
{
    match content.named(b"document") {
        Some(elem) => elem,
        None => Elem(0),
    }
}

/// Whether the element is flagged `block`.
fn is_block(content: &Content, elem: Elem) -> bool
    ensures value { result ≡ (rules_of content.now).block elem.0 }
    ensures model { IsContentModel content.now }
{
    content.flags(elem).block
}

/// Whether the element closes by itself.
fn closes(content: &Content, elem: Elem) -> bool
    ensures { result ≡ (rules_of content.now).closes elem.0 }
{
    content.flags(elem).closes
}

/// Whether the element gets an id.
fn gets_id(content: &Content, elem: Elem) -> bool
    ensures { result ≡ (rules_of content.now).id elem.0 }
{
    content.flags(elem).id
}

/// The element with what was put into it, copied into the arena.
fn close<'a>(arena: &'a Bump, content: &Content, last: Open<'a>) -> Result<Node<'a>, AllocError>
    ensures value { IfOk result (λ node. plain node ≡ whole (rules_of content.now) (beginning_of last.entry) (level_of last.entry)) }
    ensures model { IsContentModel content.now }
{
    let Open {
        elem,
        identified,
        target,
        attrs,
        labels,
        mut kids,
    } = last;
    if is_block(content, elem) {
        trim_first(&mut kids);
        trim_last(&mut kids)?;
    }
    let given = keep_given(arena, target, attrs.as_slice(), labels.as_slice())?;
    let head = Head {
        elem,
        identified,
        given,
    };
    element(arena, head, kids.as_slice())
}

/// What was given to an element, copied into the arena. Where it is nothing, nothing is copied.
fn keep_given<'a>(
    arena: &'a Bump,
    target: Option<&'a [u8]>,
    attrs: &[Attr<'a>],
    labels: &[Tag<'a>],
) -> Result<&'a Given<'a>, AllocError>
    ensures target { IfOk result (λ given. option_map (λ t. t.now) given.now.target ≡ option_map (λ t. t.now) target.entry) }
    ensures attrs { IfOk result (λ given. given.now.attrs.now ≡ attrs.now) }
    ensures labels { IfOk result (λ given. given.now.labels.now ≡ labels.now) }
{
    if target.is_none() && attrs.is_empty() && labels.is_empty() {
        return Ok(&NOTHING);
    }
    let given = Given {
        target,
        attrs: arena.try_alloc_slice_copy(attrs)?,
        labels: arena.try_alloc_slice_copy(labels)?,
    };
    let kept: &'a Given<'a> = arena.try_alloc(given)?;
    Ok(kept)
}

impl<'a> Builder<'a> {
    /// A builder that has opened the root.
    pub(crate) fn new(alloc: Global, arena: &'a Bump, content: &Content) -> Builder<'a>
        ensures { held_of result ≡ fresh (rules_of content.now) }
    {
        Builder {
            alloc,
            arena,
            text: Vec::new(alloc),
            inner: Open::new(alloc, root_elem(content), true, None),
            outer: Vec::new(alloc),
        }
    }

    /// Makes a child of the text that has grown.
    fn flush(&mut self) -> Result<(), AllocError>
        ensures { OnOk result (held_of self.new ≡ flushed (held_of self.old)) }
    {
        if !self.text.is_empty() {
            let text = leaf(self.arena, self.text.as_slice())?;
            self.inner.kids.push(text)?;
            self.text.clear();
        }
        Ok(())
    }

    /// Opens an element inside the innermost one.
    fn begin(
        &mut self,
        content: &Content,
        target: Option<&'a [u8]>,
        elem: Elem,
    ) -> Result<(), AllocError>
        ensures value { OnOk result (held_of self.new ≡ begun (beginning (rules_of content.now) elem.0 (option_map (λ t. t.now) target.entry)) (held_of self.old)) }
        ensures longer { OnOk result (length self.new.outer.items ≡ length self.old.outer.items + 1) }
    {
        self.flush()?;
        let open = Open::new(self.alloc, elem, gets_id(content, elem), target);
        let outer = mem::replace(&mut self.inner, open);
        self.outer.push(outer)?;
        Ok(())
    }

    /// Makes a child of the innermost element, unless it is the root.
    fn end(&mut self, content: &Content) -> Result<(), AllocError>
        ensures value { OnOk result (held_of self.new ≡ ended (rules_of content.now) (held_of self.old)) }
        ensures shorter { OnOk result (length self.new.outer.items ≡ length self.old.outer.items - 1) }
    {
        self.flush()?;
        match self.outer.pop() {
            None => Ok(()),
            Some(around) => {
                let last = mem::replace(&mut self.inner, around);
                let made = close(self.arena, content, last)?;
                self.inner.kids.push(made)?;
                Ok(())
            }
        }
    }

    /// Appends to the text that is growing.
    fn append(&mut self, text: &[u8]) -> Result<(), AllocError>
        ensures { OnOk result (held_of self.new ≡ said text.now (held_of self.old)) }
    {
        self.text.extend_from_slice(text)
    }

    /// Puts an attribute or a label on the open element inside which n others stand.
    fn put(&mut self, n: usize, extra: Extra<'a>) -> Result<(), AllocError>
        requires { n ≤ length self.old.outer.items }
        ensures { OnOk result (held_of self.new ≡ changed n (extra_after extra.entry) (held_of self.old)) }
    {
        if n == 0 {
            self.inner.give(extra)
        } else {
            let at = self.outer.len() - n;
            self.outer[at].give(extra)
        }
    }

    /// The fault of a child in the innermost open element.
    fn refuse_child(&self, content: &Content, code: u8, child: &[u8]) -> BuildFault
        ensures { Refuses (fault_of code child.now ((rules_of content.now).name (innermost (path_of (held_of self.now))))) result }
    {
        refuse(self.alloc, code, child, content.name(self.inner.elem))
    }

    /// Starts an element, if the path may get longer.
    fn start(
        &mut self,
        content: &Content,
        target: Option<&'a [u8]>,
        elem: Elem,
    ) -> Result<(), BuildFault>
        ensures does { Does (rules_of content.now) (spec_start (rules_of content.now) (option_map (λ t. t.now) target.entry) elem.0) (held_of self.old) (held_of self.new) result }
        ensures open { OnOk result (0 < length self.new.outer.items) }
    {
        if self.outer.len() >= DEEPEST {
            return Err(self.refuse_child(content, TREE_DEPTH, content.name(elem)));
        }
        match self.begin(content, target, elem) {
            Ok(()) => Ok(()),
            Err(_) => Err(BuildFault::NoMemory),
        }
    }

    /// Starts the elements of a chain.
    #[tactic(auto, using(crate::proofs::Follow::each_fails))]
    fn start_all(&mut self, content: &Content, chain: &[Elem]) -> Result<(), BuildFault>
        ensures { Does (rules_of content.now) (spec_start_all (rules_of content.now) (places_of chain.now)) (held_of self.old) (held_of self.new) result }
    {
        for elem in chain {
            self.start(content, None, *elem)?;
        }
        Ok(())
    }

    /// Ends the innermost element.
    fn end_one(&mut self, content: &Content) -> Result<(), BuildFault>
        requires { 0 < length self.old.outer.items }
        ensures does { Does (rules_of content.now) spec_end_one (held_of self.old) (held_of self.new) result }
        ensures shorter { OnOk result (length self.new.outer.items ≡ length self.old.outer.items - 1) }
    {
        match self.end(content) {
            Ok(()) => Ok(()),
            Err(_) => Err(BuildFault::NoMemory),
        }
    }

    /// Ends the n innermost elements.
    #[tactic(auto, using(crate::proofs::Follow::ends_fail))]
    fn end_many(&mut self, content: &Content, n: usize) -> Result<(), BuildFault>
        requires { n ≤ length self.old.outer.items }
        ensures { Does (rules_of content.now) (spec_end_many n) (held_of self.old) (held_of self.new) result }
    {
        for _k in 0..n {
            self.end_one(content)?;
        }
        Ok(())
    }

    /// Appends a text to the one that is growing.
    #[tactic(auto, using(crate::proofs::Follow::said_follows))]
    fn say(&mut self, content: &Content, text: &[u8]) -> Result<(), BuildFault>
        ensures { Does (rules_of content.now) (spec_say text.now) (held_of self.old) (held_of self.new) result }
    {
        match self.append(text) {
            Ok(()) => Ok(()),
            Err(_) => Err(BuildFault::NoMemory),
        }
    }

    /// The open element inside which n others stand.
    #[tactic(auto, using(crate::proofs::Paths::elem_inside))]
    fn elem_at(&self, n: usize) -> Elem
        requires { n ≤ length self.now.outer.items }
        ensures { result.0 ≡ get_or (path_of (held_of self.now)) n 0 }
    {
        if n == 0 {
            self.inner.elem
        } else {
            self.outer[self.outer.len() - n].elem
        }
    }

    /// How many elements end for the child, and which start.
    #[tactic(auto, using(crate::proofs::Paths::fit_found, crate::proofs::Paths::fit_stops, crate::proofs::Paths::fit_none))]
    fn fit<'c>(&self, content: &'c Content, child: Option<Elem>) -> Option<(usize, &'c [Elem])>
        ensures value { option_map (λ f. (f.0, places_of f.1.now)) result ≡ spec_fit (rules_of content.now) (path_of (held_of self.now)) (option_map (λ e. e.0) child) }
        ensures within { IfSome result (λ f. f.0 ≤ length self.now.outer.items) }
    {
        for n in 0..self.outer.len() + 1 {
            let at = self.elem_at(n);
            match content.chain(at, child) {
                Some(chain) => return Some((n, chain)),
                None => {
                    if !closes(content, at) {
                        return None;
                    }
                }
            }
        }
        None
    }

    /// Ends n elements and starts those of a chain.
    #[tactic(auto, using(crate::proofs::Follow::does_next, crate::proofs::Follow::does_fail))]
    fn move_to(&mut self, content: &Content, n: usize, chain: &[Elem]) -> Result<(), BuildFault>
        requires { n ≤ length self.old.outer.items }
        ensures { Does (rules_of content.now) (both (spec_end_many n) (spec_start_all (rules_of content.now) (places_of chain.now))) (held_of self.old) (held_of self.new) result }
    {
        self.end_many(content, n)?;
        self.start_all(content, chain)
    }

    /// The fault of a child that has no place, which is an element or else a text.
    fn refuse_place(&self, content: &Content, child: Option<Elem>) -> BuildFault
        ensures { Refuses (no_place (rules_of content.now) (option_map (λ e. e.0) child) (innermost (path_of (held_of self.now)))) result }
    {
        match child {
            None => self.refuse_child(content, NO_TEXT, &[]),
            Some(elem) => self.refuse_child(content, NO_PLACE, content.name(elem)),
        }
    }

    /// Makes a place for the child: elements end and those of a chain start.
    #[tactic(auto, using(crate::proofs::Follow::place_some, crate::proofs::Follow::place_none))]
    fn place(&mut self, content: &Content, child: Option<Elem>) -> Result<(), BuildFault>
        ensures { Does (rules_of content.now) (spec_place (rules_of content.now) (option_map (λ e. e.0) child)) (held_of self.old) (held_of self.new) result }
    {
        match self.fit(content, child) {
            None => Err(self.refuse_place(content, child)),
            Some((n, chain)) => self.move_to(content, n, chain),
        }
    }

    /// Starts an element at its place.
    #[tactic(auto, using(crate::proofs::Follow::does_next, crate::proofs::Follow::does_fail))]
    fn enter(
        &mut self,
        content: &Content,
        target: Option<&'a [u8]>,
        elem: Elem,
    ) -> Result<(), BuildFault>
        ensures does { Does (rules_of content.now) (spec_enter (rules_of content.now) (option_map (λ t. t.now) target.entry) elem.0) (held_of self.old) (held_of self.new) result }
        ensures open { OnOk result (0 < length self.new.outer.items) }
    {
        self.place(content, Some(elem))?;
        self.start(content, target, elem)
    }

    /// How many elements stand inside the innermost one of this name.
    #[tactic(auto, using(crate::proofs::Paths::depth_found, crate::proofs::Paths::depth_stops, crate::proofs::Paths::depth_none))]
    fn depth(&self, content: &Content, elem: Elem) -> Option<usize>
        ensures value { result ≡ depth_of (rules_of content.now) elem.0 (path_of (held_of self.now)) }
        ensures within { IfSome result (λ n. n < length self.now.outer.items) }
    {
        for n in 0..self.outer.len() {
            let at = self.elem_at(n);
            if at.0 == elem.0 {
                return Some(n);
            }
            if !closes(content, at) {
                return None;
            }
        }
        None
    }

    /// Ends the innermost element of this name, and those inside it.
    #[tactic(auto, using(crate::proofs::Follow::close_some, crate::proofs::Follow::close_none))]
    fn close_to(&mut self, content: &Content, elem: Elem) -> Result<(), BuildFault>
        ensures { Does (rules_of content.now) (spec_close (rules_of content.now) elem.0) (held_of self.old) (held_of self.new) result }
    {
        match self.depth(content, elem) {
            None => Err(self.refuse_child(content, NOTHING_TO_CLOSE, content.name(elem))),
            Some(n) => self.end_many(content, n + 1),
        }
    }

    /// Ends it and those inside it, if that can be done.
    #[tactic(auto, using(crate::proofs::Follow::close_if_some, crate::proofs::Follow::close_if_none))]
    fn close_if(&mut self, content: &Content, elem: Elem) -> Result<(), BuildFault>
        ensures { Does (rules_of content.now) (spec_close_if (rules_of content.now) elem.0) (held_of self.old) (held_of self.new) result }
    {
        match self.depth(content, elem) {
            None => Ok(()),
            Some(n) => self.end_many(content, n + 1),
        }
    }

    /// Puts a space where the innermost open element takes texts.
    #[tactic(auto, using(crate::proofs::Follow::space_said, crate::proofs::Follow::space_gone))]
    fn space(&mut self, content: &Content) -> Result<(), BuildFault>
        ensures { Does (rules_of content.now) (spec_space (rules_of content.now)) (held_of self.old) (held_of self.new) result }
    {
        let takes = content.may_text(self.inner.elem);
        if takes {
            let text = [32u8];
            return self.say(content, &text);
        }
        Ok(())
    }

    /// Puts a text at its place.
    #[tactic(auto, using(crate::proofs::Follow::does_next, crate::proofs::Follow::does_fail))]
    fn text(&mut self, content: &Content, text: &[u8]) -> Result<(), BuildFault>
        ensures { Does (rules_of content.now) (both (spec_place (rules_of content.now) None) (spec_say text.now)) (held_of self.old) (held_of self.new) result }
    {
        self.place(content, None)?;
        self.say(content, text)
    }

    /// How many elements stand inside the innermost one that may have the attribute.
    #[tactic(auto, using(crate::proofs::Paths::holder_found, crate::proofs::Paths::holder_none))]
    fn holder(&self, content: &Content, attr: usize) -> Option<usize>
        ensures value { result ≡ spec_holder (rules_of content.now) attr (path_of (held_of self.now)) }
        ensures within { IfSome result (λ n. n ≤ length self.now.outer.items) }
    {
        for n in 0..self.outer.len() + 1 {
            let at = self.elem_at(n);
            if content.may_attr(at, attr) {
                return Some(n);
            }
        }
        None
    }

    /// Sets an attribute of the element inside which n others stand.
    fn put_attr(&mut self, n: usize, attr: usize, value: &[u8]) -> Result<(), AllocError>
        requires { n ≤ length self.old.outer.items }
        ensures { OnOk result (held_of self.new ≡ changed n (set_after (record { number = attr; value = value.now })) (held_of self.old)) }
    {
        let value: &'a [u8] = self.arena.try_alloc_slice_copy(value)?;
        self.put(
            n,
            Extra::Attribute(Attr {
                number: attr,
                value,
            }),
        )
    }

    /// Sets an attribute of the element inside which so many others stand, if there is one.
    #[tactic(auto, using(crate::proofs::Follow::attr_none))]
    fn set_at(
        &mut self,
        content: &Content,
        found: Option<usize>,
        attr: usize,
        value: &[u8],
    ) -> Result<(), BuildFault>
        requires { ForSome found (λ n. n ≤ length self.old.outer.items) }
        ensures { Does (rules_of content.now) (attr_by (rules_of content.now) found attr value.now) (held_of self.old) (held_of self.new) result }
    {
        match found {
            None => Err(self.refuse_child(content, BAD_ATTRIBUTE, content.attr_name(attr))),
            Some(n) => match self.put_attr(n, attr, value) {
                Ok(()) => Ok(()),
                Err(_) => Err(BuildFault::NoMemory),
            },
        }
    }

    /// Sets an attribute of the innermost open element that may have it.
    #[tactic(auto, using(crate::proofs::Follow::attr_does))]
    fn attr(&mut self, content: &Content, attr: usize, value: &[u8]) -> Result<(), BuildFault>
        ensures { Does (rules_of content.now) (spec_attr (rules_of content.now) attr value.now) (held_of self.old) (held_of self.new) result }
    {
        let found = self.holder(content, attr);
        self.set_at(content, found, attr, value)
    }

    /// Sets an attribute of the innermost open element itself.
    #[tactic(auto, using(crate::proofs::Follow::own_attr_does))]
    fn own_attr(&mut self, content: &Content, set: &(usize, Bytes)) -> Result<(), BuildFault>
        ensures { Does (rules_of content.now) (spec_own_attr (rules_of content.now) set.now) (held_of self.old) (held_of self.new) result }
    {
        let found = self.own_holder(content, set.0);
        self.set_at(content, found, set.0, set.1.as_slice())
    }

    /// No element, if the innermost one itself may have the attribute.
    fn own_holder(&self, content: &Content, attr: usize) -> Option<usize>
        ensures value { result ≡ holder_or ((rules_of content.now).may_attr (innermost (path_of (held_of self.now))) attr) None }
        ensures within { IfSome result (λ n. n ≤ length self.now.outer.items) }
    {
        if content.may_attr(self.inner.elem, attr) {
            Some(0)
        } else {
            None
        }
    }

    /// Sets attributes of the innermost open element itself, one after the other.
    fn own_attrs(&mut self, content: &Content, sets: &Sets) -> Result<(), BuildFault>
        ensures { Does (rules_of content.now) (each (spec_own_attr (rules_of content.now)) sets.now) (held_of self.old) (held_of self.new) result }
    {
        for set in sets.as_slice() {
            match self.own_attr(content, set) {
                Ok(()) => {}
                Err(fault) => return Err(fault),
            }
        }
        Ok(())
    }

    /// Starts an element at its place, with these attributes.
    #[tactic(auto, using(crate::proofs::Follow::does_next, crate::proofs::Follow::does_fail))]
    fn open(&mut self, content: &Content, elem: Elem, sets: &Sets) -> Result<(), BuildFault>
        ensures { Does (rules_of content.now) (both (spec_enter (rules_of content.now) None elem.0) (each (spec_own_attr (rules_of content.now)) sets.now)) (held_of self.old) (held_of self.new) result }
    {
        self.enter(content, None, elem)?;
        self.own_attrs(content, sets)
    }

    /// How many elements stand inside the innermost one that gets an id. The root gets one.
    fn owner(&self, content: &Content) -> usize
        ensures value { result ≡ owner_of (rules_of content.now) (path_of (held_of self.now)) }
        ensures within { result ≤ length self.now.outer.items }
    {
        let count = self.outer.len();
        for n in 0..count {
            let at = self.elem_at(n);
            if gets_id(content, at) {
                return n;
            }
        }
        count
    }

    /// Puts a label on the element inside which n others stand.
    fn put_label(&mut self, n: usize, label: &[u8], number: &[u8]) -> Result<(), AllocError>
        requires { n ≤ length self.old.outer.items }
        ensures { OnOk result (held_of self.new ≡ changed n (mark_after (record { label = label.now; number = number.now })) (held_of self.old)) }
    {
        let label: &'a [u8] = self.arena.try_alloc_slice_copy(label)?;
        let number: &'a [u8] = self.arena.try_alloc_slice_copy(number)?;
        self.put(n, Extra::Label(Tag { label, number }))
    }

    /// Puts a label on the innermost open element that gets an id.
    fn label(&mut self, content: &Content, label: &[u8], number: &[u8]) -> Result<(), BuildFault>
        ensures { Does (rules_of content.now) (spec_label (rules_of content.now) label.now number.now) (held_of self.old) (held_of self.new) result }
    {
        let n = self.owner(content);
        match self.put_label(n, label, number) {
            Ok(()) => Ok(()),
            Err(_) => Err(BuildFault::NoMemory),
        }
    }

    /// The text, copied into the arena.
    fn kept(&self, text: &[u8]) -> Result<&'a [u8], AllocError>
        ensures { IfOk result (λ copy. copy.now ≡ text.now) }
    {
        let copy: &'a [u8] = self.arena.try_alloc_slice_copy(text)?;
        Ok(copy)
    }

    /// Opens and closes an element that refers to the label.
    #[tactic(auto, using(crate::proofs::Follow::does_next, crate::proofs::Follow::does_fail))]
    fn refer_by(
        &mut self,
        content: &Content,
        elem: Elem,
        target: &'a [u8],
    ) -> Result<(), BuildFault>
        ensures { Does (rules_of content.now) (both (spec_enter (rules_of content.now) (Some target.now) elem.0) spec_end_one) (held_of self.old) (held_of self.new) result }
    {
        self.enter(content, Some(target), elem)?;
        self.end_one(content)
    }

    /// Puts a reference to the label at its place.
    #[tactic(auto, using(crate::proofs::Follow::refer_some, crate::proofs::Follow::refer_none))]
    fn refer(&mut self, content: &Content, label: &[u8]) -> Result<(), BuildFault>
        ensures { Does (rules_of content.now) (spec_refer (rules_of content.now) label.now) (held_of self.old) (held_of self.new) result }
    {
        match content.named(b"ref") {
            None => Err(self.refuse_child(content, NO_PLACE, b"ref")),
            Some(elem) => match self.kept(label) {
                Ok(target) => self.refer_by(content, elem, target),
                Err(_) => Err(BuildFault::NoMemory),
            },
        }
    }

    /// Does one operation.
    pub(crate) fn step(&mut self, content: &Content, op: &Op) -> Result<(), BuildFault>
        ensures { Does (rules_of content.now) (spec_step (rules_of content.now) op.now) (held_of self.old) (held_of self.new) result }
    {
        match op {
            Op::Open(elem, sets) => self.open(content, *elem, sets),
            Op::Close(elem) => self.close_to(content, *elem),
            Op::CloseIf(elem) => self.close_if(content, *elem),
            Op::Text(text) => self.text(content, text.as_slice()),
            Op::Space => self.space(content),
            Op::Attr(attr, value) => self.attr(content, *attr, value.as_slice()),
            Op::Label(label, number) => self.label(content, label.as_slice(), number.as_slice()),
            Op::Ref(label) => self.refer(content, label.as_slice()),
        }
    }

    /// Ends all but the root.
    #[tactic(auto, using(crate::proofs::Follow::end_fails, crate::proofs::Follow::end_done))]
    pub(crate) fn finish(&mut self, content: &Content) -> Result<(), BuildFault>
        ensures does { Does (rules_of content.now) (end_all (rules_of content.now)) (held_of self.old) (held_of self.new) result }
        ensures root { OnOk result (length self.new.outer.items ≡ 0) }
    {
        while !self.outer.is_empty() {
            let at = self.inner.elem;
            if !closes(content, at) {
                return Err(refuse(self.alloc, UNCLOSED, content.name(at), &[]));
            }
            self.end_one(content)?;
        }
        Ok(())
    }

    /// The root, when all others have ended.
    pub(crate) fn root(mut self, content: &Content) -> Result<Node<'a>, AllocError>
        ensures value { IfOk result (λ node. plain node ≡ whole (rules_of content.now) (held_of self.entry).inner.start (kids_after (texts (held_of self.entry).text) (held_of self.entry).inner.has)) }
        ensures model { OnOk result (IsContentModel content.now) }
    {
        self.flush()?;
        let Builder {
            alloc: _,
            arena,
            text: _,
            inner,
            outer: _,
        } = self;
        close(arena, content, inner)
    }
}
