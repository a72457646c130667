//! A content model, and its look-ups.

ghost use Rattle.std.specs.Prelude.{◌≡◌, ◌<◌, length, map, IfOk};
ghost use Rattle.std.specs.Option.{option_map};
ghost use Rattle.std.specs.List.{All, slice_get};
ghost use Rattle.texml_model.specs.Rules.{IsContentModel, Sound, VoidIsEmpty, rules_of, flags_of};
ghost use Rattle.texml_model.specs.Levels.{places_of};

use crate::chains::{Chains, all_chains, chain_at, chain_to, chains_to, is_held, takes_text};
use crate::places::{attr_numbers, holdings, place_of, row_at};
use std::alloc::{AllocError, Global};
use std::marker::Model;
use texml_tree::{Elem, ElementLine, Elements, Flags};

const NO_FLAGS: Flags = Flags {
    text: false,
    block: false,
    opens: false,
    closes: false,
    id: false,
    toc: false,
    void: false,
};

/// Which element may hold which, and how an element is written: a table of elements, prepared for look-ups.
#[derive(Drop)]
pub struct Content {
    elements: Elements,
    holds: Vec<Vec<bool>>,
    attrs: Vec<Vec<usize>>,
    to_text: Chains,
    to_elements: Vec<Chains>,
}

impl Model for Content {
    ghost use Rattle.texml_tree.specs.declared.table.Elements.{Elements};

    ghost Value = { Elements };

    ghost view = { λ c. c.elements };

    ghost use Rattle.texml_model.specs.Prepared.{IsPrepared};

    ghost invariant = { λ c. IsPrepared c.elements c.holds.items c.attrs.items c.to_text.items c.to_elements.items };
}

impl Content {
    /// The content model of a table. Chains are found here, for each parent and each child.
    ///
    /// # Errors
    ///
    /// `AllocError` where there is no memory.
    pub fn new(alloc: Global, binding_elements: &Elements) -> Result<Content, AllocError>
        requires { IsContentModel binding_elements.now }
        ensures { IfOk result (λ content. content ≡ binding_elements.now) }
    {
        let elements = binding_elements.clone()?;
        let lines = elements.lines.as_slice();
        let holds = holdings(alloc, lines)?;
        let held = holds.as_slice();
        let attrs = attr_numbers(alloc, elements.attributes.as_slice(), lines)?;
        let to_text = chains_to(alloc, lines, held, None)?;
        let to_elements = all_chains(alloc, lines, held)?;
        Ok(Content {
            elements,
            holds,
            attrs,
            to_text,
            to_elements,
        })
    }

    /// Whether the parent may hold the child itself.
    #[tactic(auto, using(crate::proofs::Looks::held_is), unfolding(crate::specs::Rules::rules_of))]
    pub fn may_hold(&self, parent: Elem, child: Elem) -> bool
        ensures { result ≡ (rules_of self.now).holds parent.0 child.0 }
    {
        is_held(self.holds.as_slice(), parent.0, child.0)
    }

    /// Whether texts may stand in the element.
    #[tactic(auto, unfolding(crate::specs::Rules::rules_of))]
    pub fn may_text(&self, parent: Elem) -> bool
        ensures { result ≡ (rules_of self.now).takes_text parent.0 }
    {
        takes_text(self.elements.lines.as_slice(), parent.0)
    }

    /// Whether the element may have the attribute.
    #[tactic(auto, using(crate::proofs::Looks::attrs_is), unfolding(crate::specs::Rules::rules_of))]
    pub fn may_attr(&self, elem: Elem, attr: usize) -> bool
        ensures { result ≡ (rules_of self.now).may_attr elem.0 attr }
    {
        row_at(self.attrs.as_slice(), elem.0).contains(&attr)
    }

    /// The elements that open by themselves between the parent and the child, or a text where there is no child: the first
    /// in table order of the shortest chains. `None` exactly where no elements lead there.
    #[tactic(auto, using(crate::proofs::Looks::chain_at_is, crate::proofs::Looks::chain_to_is, crate::proofs::Models::rules_sound), unfolding(crate::specs::Rules::rules_of))]
    pub fn chain(&self, parent: Elem, child: Option<Elem>) -> Option<&[Elem]>
        ensures value { option_map (λ chain. places_of chain.now) result ≡ (rules_of self.now).chain parent.0 (option_map (λ e. e.0) child) }
        ensures sound { Sound (rules_of self.now) }
    {
        match child {
            None => chain_at(self.to_text.as_slice(), parent.0),
            Some(elem) => chain_to(self.to_elements.as_slice(), parent.0, elem.0),
        }
    }

    /// The flags of the element. An element that the table lacks has none.
    #[tactic(auto, using(crate::proofs::Models::void_is_empty))]
    pub fn flags(&self, elem: Elem) -> Flags
        ensures value { result ≡ flags_of (rules_of self.now) elem.0 }
        ensures void { VoidIsEmpty (rules_of self.now) }
        ensures model { IsContentModel self.now }
    {
        match self.find(elem) {
            None => NO_FLAGS,
            Some(line) => line.flags,
        }
    }

    /// The tag as which the element is written.
    #[tactic(auto, unfolding(crate::specs::Rules::rules_of))]
    pub fn tag(&self, elem: Elem) -> &[u8]
        requires { elem.0 < (rules_of self.now).size }
        ensures { result.now ≡ (rules_of self.now).tag elem.0 }
    {
        self.line(elem).tag.as_slice()
    }

    /// The class with which the element is written, `None` exactly where its line names none.
    #[tactic(auto, unfolding(crate::specs::Rules::rules_of))]
    pub fn class(&self, elem: Elem) -> Option<&[u8]>
        requires { elem.0 < (rules_of self.now).size }
        ensures { option_map (λ class. class.now) result ≡ (rules_of self.now).class elem.0 }
    {
        match &self.line(elem).class {
            None => None,
            Some(class) => Some(class.as_slice()),
        }
    }

    /// The numbers of the attributes that the element may have, in the order of its line.
    #[tactic(auto, using(crate::proofs::Looks::attrs_is, crate::proofs::Models::attrs_known), unfolding(crate::specs::Rules::rules_of))]
    pub fn attrs(&self, elem: Elem) -> &[usize]
        requires { elem.0 < (rules_of self.now).size }
        ensures value { result.now ≡ (rules_of self.now).attrs elem.0 }
        ensures known { All (λ attr. attr < (rules_of self.now).attributes) result.now }
    {
        row_at(self.attrs.as_slice(), elem.0)
    }

    /// The name of the attribute, empty where the table lacks it.
    #[tactic(auto, unfolding(crate::specs::Rules::rules_of))]
    pub fn attr_name(&self, attr: usize) -> &[u8]
        ensures { result.now ≡ (rules_of self.now).attr_name attr }
    {
        match self.elements.attributes.as_slice().get(attr) {
            None => &[],
            Some(name) => name.as_slice(),
        }
    }

    /// The element of this name, `None` exactly where the table has none.
    #[tactic(auto, unfolding(crate::specs::Rules::rules_of))]
    pub fn named(&self, name: &[u8]) -> Option<Elem>
        ensures { option_map (λ e. e.0) result ≡ (rules_of self.now).named name.now }
    {
        place_of(self.elements.lines.as_slice(), name)
    }

    /// The name of the element, empty where the table lacks it.
    #[tactic(auto, unfolding(crate::specs::Rules::rules_of))]
    pub fn name(&self, elem: Elem) -> &[u8]
        ensures { result.now ≡ (rules_of self.now).name elem.0 }
    {
        match self.find(elem) {
            None => &[],
            Some(line) => line.name.as_slice(),
        }
    }

    /// The line of the element, if the table has it.
    fn find(&self, elem: Elem) -> Option<&ElementLine>
        ensures line { option_map (λ line. line.now) result ≡ slice_get self.now.lines elem.0 }
        ensures model { IsContentModel self.now }
    {
        self.elements.lines.as_slice().get(elem.0)
    }

    /// The line of the element.
    #[tactic(auto, unfolding(crate::specs::Rules::rules_of))]
    fn line(&self, elem: Elem) -> &ElementLine
        requires { elem.0 < (rules_of self.now).size }
        ensures line { slice_get self.now.lines elem.0 ≡ Some result.now }
        ensures model { IsContentModel self.now }
    {
        &self.elements.lines.as_slice()[elem.0]
    }
}
